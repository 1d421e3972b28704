/// Why a reader of a source gives no line.
#[derive(Clone, Copy)]
pub enum NoLine {
    /// The source is over. What came of a last line is a line too.
    End,
    /// A read failed.
    Fault,
    /// So many bytes were read that none is read any more.
    Bound,
    /// The line has more bytes than a line may have, whatever follows.
    Long,
    /// There was no memory.
    NoMemory,
}
