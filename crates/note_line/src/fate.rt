//! What became of a note.

use spool::Kind;

/// Why a note was dropped: its transaction failed, or the tool didn't communicate, and notes of its kind aren't spooled;
/// the spool was full; or the host had the spool emptied without sending it.
#[derive(Clone, Copy, Debug)]
pub enum DropCause {
    NoSpool,
    Full,
    Purged,
}

/// What became of a note: it waits; it is spooled; or it is sent and its transaction is open; or it has ended, answered or
/// dropped.
#[derive(Clone, Copy, Debug)]
pub enum Fate {
    Answered,
    Open,
    Waiting,
    Spooled,
    Dropped(DropCause),
}

/// What the note of a number told of, by its kind and its CEID or ALID, and what became of it.
#[derive(Clone, Copy)]
pub struct Told {
    pub kind: Kind,
    pub id: u32,
    pub fate: Fate,
}
