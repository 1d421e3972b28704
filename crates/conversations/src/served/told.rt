//! What is told of a run that has ended.

use crate::runs::notes_of;
use serving::Ended;
use std::alloc::{AllocError, Global};
use test_lines::{tell_cause, tell_notes, tell_number};
use test_peers::tell_history;

/// Tells how a run ended, and what it leaves: its status, the text of its cause in quotes, how many entries and notes there are, what
/// each seat posted, whether the operator was first, and each note.
pub fn tell_ended(alloc: Global, told: &mut String, ended: &Ended) -> Result<(), AllocError> {
    tell_number(alloc, told, "status", ended.status as u64)?;
    tell_cause(alloc, told, &ended.cause.text(alloc)?)?;
    tell_history(alloc, told, ended.history.as_slice())?;
    let notes = notes_of(alloc, ended.sessions.as_slice())?;
    tell_notes(alloc, told, notes.as_slice())
}
