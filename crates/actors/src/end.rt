/// How an actor ended.
#[derive(Clone, Copy)]
pub enum ActorEnd {
    /// Its last post was answered `Ended`, told that the link was lost, or was the accepted `Quit` of a script.
    Quit,
    /// A post was answered `Full`, or the script has more bytes than are read.
    Full,
    /// There was no memory.
    NoMemory,
    /// A read of the script failed.
    ReadFault,
    /// This line of the script, counted from 1, is outside the grammar from this byte on.
    Line { number: u64, place: u64 },
    /// The door failed, or closed before the run ended.
    Door,
}
