/// A point that an actor passes.
#[derive(Clone, Copy, PartialEq, Eq)]
pub enum Point {
    /// Nothing is to be done just now, for the host actor, the operator or the clock.
    Idle,
    /// Before a door is asked for a link.
    Accept,
    /// Before a link is read.
    HostRead,
    /// After a line of the operator was answered.
    OperLine,
    /// Before the module of this number fetches a command.
    Module(u8),
    /// Before the clock ticks.
    Tick,
    /// After a message of the host was answered, and its session goes on.
    HostPosted,
    /// No frame waits for the writer just now.
    NoFrame,
    /// No command waits for the module of this number just now.
    NoCommand(u8),
    /// After a signal of a module or a look at the clock was answered.
    Posted,
    /// Where the reader or the writer of a session has ended.
    SessionEnd,
    /// Where the clock has ended, which it does when the run is over.
    Over,
}

/// What actors pass on their way, so that a test can hold one of them. Nothing is said of what it does.
pub trait Gate {
    /// Passes a point.
    fn pass(&self, point: Point);
}
