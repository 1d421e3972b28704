//! The log of a run.
ghost use Rattle.std.specs.Prelude.{◌≡◌, ◌++◌, IfOk, OnOk};
ghost use Rattle.line_feeding.specs.Going.{seen};
ghost use Rattle.serving.specs.Log.{log_line, log_lines};
ghost use Rattle.serving.specs.Served.{LoggedText};

use history_parts::Totals;
use outside::{Sink, write_all};
use std::alloc::{AllocError, Global};

// Appends a line: a word and a number.
fn push_line(alloc: Global, word: &str, n: u64, text: &mut Vec<u8>) -> Result<(), AllocError>
    ensures { OnOk result (text.new.items ≡ text.old.items ++ log_line word.now n) }
{
    let line = format!(in alloc; "{word} {n}\n")?;
    text.extend_from_slice(line.as_bytes())
}

/// The log of a history with so many entries and these counts.
pub fn log_text(alloc: Global, entries: u64, totals: &Totals) -> Result<Vec<u8>, AllocError>
    ensures { IfOk result (λ text. text.items ≡ log_lines entries totals.now) }
{
    let mut text = Vec::new(alloc);
    push_line(alloc, "entries", entries, &mut text)?;
    push_line(alloc, "sessions", totals.sessions, &mut text)?;
    push_line(alloc, "notes", totals.notes, &mut text)?;
    push_line(alloc, "answered", totals.answered, &mut text)?;
    push_line(alloc, "dropped", totals.dropped, &mut text)?;
    push_line(alloc, "done", totals.done, &mut text)?;
    push_line(alloc, "completed", totals.completed, &mut text)?;
    Ok(text)
}

/// Writes the text of a log. False: a write failed, or took nothing of a piece.
pub fn write_log<K: Sink>(log: &mut K, text: &[u8]) -> bool
    ensures { LoggedText text.now result (seen K.held K.faults K.refusals log.old) (seen K.held K.faults K.refusals log.new) }
{
    match write_all(log, text) {
        Ok(()) => true,
        Err(_) => false,
    }
}
