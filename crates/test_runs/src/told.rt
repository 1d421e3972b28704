//! What is told of a run over lines that has ended.

use crate::tool::Ran;
use std::alloc::{AllocError, Global};
use test_lines::{tell, tell_cause, tell_notes, tell_number, tell_quoted, tell_whether};

/// Tells how a run ended, and what it leaves: its status, the text of its cause in quotes, how many entries and notes there are, whether
/// its cause counts the entries and their text, and each note.
pub fn tell_ran(alloc: Global, told: &mut String, ran: &Ran) -> Result<(), AllocError> {
    tell_number(alloc, told, "status", ran.status as u64)?;
    tell_cause(alloc, told, &ran.cause)?;
    tell_number(alloc, told, "entries", ran.entries as u64)?;
    tell_whether(told, "counted", ran.is_counted)?;
    tell_notes(alloc, told, ran.notes.as_slice())
}

/// Tells what was printed: `as wanted`, or in quotes where it is something else.
pub fn tell_printed(
    alloc: Global,
    told: &mut String,
    printed: &[u8],
    wanted: &[u8],
) -> Result<(), AllocError> {
    if printed == wanted {
        return tell(told, "printed", "as wanted");
    }
    let text = String::from_utf8_lossy(alloc, printed)?;
    tell_quoted(alloc, told, "printed", text.as_str())
}
