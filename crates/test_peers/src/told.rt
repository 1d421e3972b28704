//! What is told of a run of a tool that serves.

use crate::histories::{add_seat, is_operator_first, operator_moment};
use std::alloc::{AllocError, Global};
use test_lines::{tell, tell_number, tell_quoted, tell_whether};
use tool_events::Entry;

/// Tells a history: how many entries it has, the seat of the first, whether the operator was first and at which moment of the tool, and what
/// each seat posted.
pub fn tell_history(alloc: Global, told: &mut String, entries: &[Entry]) -> Result<(), AllocError> {
    tell_number(alloc, told, "entries", entries.len() as u64)?;
    tell_first_seat(alloc, told, entries)?;
    tell_whether(told, "operator first", is_operator_first(entries))?;
    tell_number(alloc, told, "operator moment", operator_moment(entries))?;
    for seat in 0..3 {
        tell_seat(alloc, told, entries, seat)?;
    }
    tell_others(alloc, told, entries)
}

// Tells the seat of the first entry.
fn tell_first_seat(alloc: Global, told: &mut String, entries: &[Entry]) -> Result<(), AllocError> {
    match entries {
        [first, ..] => tell_number(alloc, told, "first seat", first.seat as u64),
        [] => tell(told, "first seat", "none"),
    }
}

// Tells what a seat posted.
fn tell_seat(
    alloc: Global,
    told: &mut String,
    entries: &[Entry],
    seat: u32,
) -> Result<(), AllocError> {
    let key = format!(in alloc; "seat {seat}:")?;
    told.push_str(key.as_str())?;
    add_seat(alloc, told, entries, seat)?;
    told.push_str("\n")
}

// Tells what the seats from 3 to 9 posted, a semicolon behind each.
fn tell_others(alloc: Global, told: &mut String, entries: &[Entry]) -> Result<(), AllocError> {
    told.push_str("seats from 3:")?;
    for seat in 3..10 {
        add_seat(alloc, told, entries, seat)?;
        told.push_str(";")?;
    }
    told.push_str("\n")
}

/// Tells the log, in quotes.
pub fn tell_log(alloc: Global, told: &mut String, log: &[u8]) -> Result<(), AllocError> {
    let text = String::from_utf8_lossy(alloc, log)?;
    tell_quoted(alloc, told, "log", text.as_str())
}
