use gem_ids::Text80;

/// Why a text is no configuration.
#[derive(Clone, Copy)]
pub enum ConfigFault {
    /// This is the least rule that the text breaks, 0 to 18, and its first faulty key. The key is empty under rule 0, that the
    /// text is a table of TOML, and under rule 18, that it has no other key.
    Rule { rule: u8, key: Text80 },
    /// There was no memory. Nothing is said of the text.
    NoMemory,
}
