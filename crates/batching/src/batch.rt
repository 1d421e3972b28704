use batch_model::Primary;
use history_laws::Recorder;
use std::collections::VecDeque;

/// The core, the messages of the tool that were taken and are not answered yet, the oldest first, and the number that was drawn
/// last, which is the seed at first.
#[derive(Drop)]
pub struct Batch<C: Recorder> {
    pub core: C,
    pub asked: VecDeque<Primary>,
    pub drawn: u64,
}

/// Why a batch stops before its end.
#[derive(Clone, Copy)]
pub enum Stop {
    /// The next entry would not fit the history's limits.
    Full,
    /// There was no memory.
    NoMemory,
}
