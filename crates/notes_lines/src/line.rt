use spool::Note;

/// What a line says to a durable spool.
#[derive(Drop)]
pub enum SpoolLine {
    /// Nothing: it is empty, or a comment.
    Skip,
    /// `format CAPACITY HALF`: the disk is to stand for no notes, with these sizes.
    Format(u32, u64),
    /// `push keep N KIND ID HEX`, and `push over ..`, with overwriting: a note comes.
    Push(bool, Note),
    /// `take`: the oldest note leaves, and is printed.
    Take,
    /// `list`: the notes are printed.
    List,
}
