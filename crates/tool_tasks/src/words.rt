/// What an operator tells a process job.
#[derive(Clone, Copy, PartialEq, Eq)]
pub enum JobWord {
    Start,
    Pause,
    Resume,
    Stop,
    Abort,
    Cancel,
}
