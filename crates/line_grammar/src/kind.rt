/// What a word of plain bytes names (this tool's profile, input lines).
#[derive(Clone, Copy)]
pub enum WordKind {
    /// A carrier or a job: 1 to 64 bytes, 33 to 126.
    Name,
    /// A substrate: 4 to 67 bytes, 33 to 126.
    Substrate,
    /// What lies in the slots 1 to 25 of a carrier: 25 digits, 0 to 5 (SEMI E87, slot map).
    SlotMap,
}
