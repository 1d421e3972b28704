/// What is counted over a history. The counts of commands and of control jobs stand still at the greatest number of 64 bits.
#[derive(Clone, Copy)]
pub struct Totals {
    /// The sessions that came up.
    pub sessions: u64,
    /// The notes that were made, of events and of alarms.
    pub notes: u64,
    /// Those that the host answered.
    pub answered: u64,
    /// Those that were dropped, for whatever cause.
    pub dropped: u64,
    /// The commands of modules that were ended by Done.
    pub done: u64,
    /// The firings of row 8 of table 15: the control jobs that were COMPLETED since no process job was left in them.
    pub completed: u64,
    /// The substrates that were registered.
    pub substrates: u64,
}
