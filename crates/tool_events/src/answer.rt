use hsms_frame::Bytes;
use tool_tasks::Command;

/// What an event is answered.
#[derive(Drop)]
pub enum Answer {
    /// It was done.
    Done,
    /// The link is up as this session.
    Session(u64),
    /// The frame that was taken, all of its bytes.
    Frame(Bytes),
    /// The command that was fetched.
    Command(Command),
    /// The session is not up after the event, or another one is up already.
    Ended,
    /// Whether the operator's command was accepted.
    Oper(bool),
}

/// Why an event was not taken.
#[derive(Clone, Copy, Debug, PartialEq, Eq)]
pub enum PostFault {
    /// The event has to wait: what it wants is not there yet. Nothing has changed.
    Again,
    /// The history has this many entries. It takes no more, or not so much text. Nothing has changed.
    Full(u64),
    /// There was no memory. The history is as before.
    NoMemory,
}
