//! What is told of a run that has ended, a line for each thing: its key, a colon, and what is answered to the key.

use std::alloc::{AllocError, Global};
use tool_events::SessionCause;

/// What is answered to this key.
pub fn answer_of<'a>(told: &'a str, key: &str) -> Option<&'a str> {
    for line in told.lines() {
        if let Some((first, words)) = line.split_once(": ") {
            if first == key {
                return Some(words);
            }
        }
    }
    None
}

/// Tells a thing.
pub fn tell(told: &mut String, key: &str, words: &str) -> Result<(), AllocError> {
    told.push_str(key)?;
    told.push_str(": ")?;
    told.push_str(words)?;
    told.push_str("\n")
}

/// Tells whether something is so.
pub fn tell_whether(told: &mut String, key: &str, is_so: bool) -> Result<(), AllocError> {
    tell(told, key, if is_so { "true" } else { "false" })
}

/// Tells a number.
pub fn tell_number(alloc: Global, told: &mut String, key: &str, n: u64) -> Result<(), AllocError> {
    let words = format!(in alloc; "{n}")?;
    tell(told, key, words.as_str())
}

/// Tells a text in quotes.
pub fn tell_quoted(
    alloc: Global,
    told: &mut String,
    key: &str,
    text: &str,
) -> Result<(), AllocError> {
    let words = format!(in alloc; "{text:?}")?;
    tell(told, key, words.as_str())
}

/// Tells the text of a cause, in quotes, or that there is none.
pub fn tell_cause(
    alloc: Global,
    told: &mut String,
    cause: &Option<String>,
) -> Result<(), AllocError> {
    match cause {
        Some(text) => tell_quoted(alloc, told, "cause", text.as_str()),
        None => tell(told, "cause", "none"),
    }
}

/// The note of a session of a run: why it ended, and how many bytes came and went.
#[derive(Clone, Copy)]
pub struct Noted {
    /// Its number.
    pub session: u64,
    /// Why it ended.
    pub cause: SessionCause,
    /// How many bytes came.
    pub read: u64,
    /// How many went.
    pub written: u64,
}

/// Tells how many notes there are, and each: why its session ended, and what came and went.
pub fn tell_notes(alloc: Global, told: &mut String, notes: &[Noted]) -> Result<(), AllocError> {
    tell_number(alloc, told, "notes", notes.len() as u64)?;
    for note in notes {
        tell_note(alloc, told, note)?;
    }
    Ok(())
}

// Tells why a session ended, and what came and went.
fn tell_note(alloc: Global, told: &mut String, note: &Noted) -> Result<(), AllocError> {
    let cause = format!(in alloc; "note {}: {:?}\n", note.session, note.cause)?;
    told.push_str(cause.as_str())?;
    tell_bytes(alloc, told, note.session, note.read, note.written)
}

fn tell_bytes(
    alloc: Global,
    told: &mut String,
    session: u64,
    read: u64,
    written: u64,
) -> Result<(), AllocError> {
    let bytes = format!(in alloc; "bytes {session}: {read} {written}\n")?;
    told.push_str(bytes.as_str())
}
