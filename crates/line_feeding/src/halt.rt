//! Why a run of lines stops before its end, and how the reading of an input ended.

/// Why a run of lines stops before its end.
#[derive(Clone, Copy)]
pub enum Halt {
    /// A write failed, or took nothing of a piece.
    Write,
    /// There was no memory.
    NoMemory,
    /// A line leaves the grammar at this byte, counted from 0.
    Line(u64),
    /// The next entry would not fit the history's limits.
    Full,
    /// The operator ended the run.
    Quit,
}

/// How the reading of an input ended.
#[derive(Clone, Copy)]
pub enum InputEnd {
    /// It was read to its end.
    Whole,
    /// A read failed.
    Fault,
    /// 4,294,967,296 bytes were read.
    Bound,
    /// A line stopped it.
    Halted(Halt),
}

/// What was read of an input: how the reading ended, and how many bytes were read.
#[derive(Clone, Copy)]
pub struct InputRead {
    pub end: InputEnd,
    pub count: u64,
}
