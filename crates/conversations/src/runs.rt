//! The program, as tests run it over lines.

use crate::told_core::ToldCore;
use gem_ids::Text80;
use hsms_frame::Arrival;
use outside::{MemSource, Sink, Source};
use program_words::{help_text, version_text};
use std::alloc::{AllocError, Global};
use test_lines::Noted;
use test_runs::{Ran, Tools};
use tool_events::{Entry, Event};
use top_calls::{Cause, Ended, SessionNote, feed};

/// The program.
#[derive(Drop)]
pub struct Program;

impl Tools for Program {
    type Tool = ToldCore;

    fn opened(&self, alloc: Global, configuration: &str) -> Option<ToldCore> {
        ToldCore::under(alloc, configuration)
    }

    fn run<S: Source, K: Sink>(
        &self,
        alloc: Global,
        words: &[Text80],
        config: &mut MemSource,
        input: &mut S,
        out: &mut K,
    ) -> Result<Ran, AllocError> {
        ran_of(alloc, &fed(alloc, words, config, input, out))
    }

    fn cause(&self, alloc: Global, status: u8) -> Result<Option<String>, AllocError> {
        cause_of(status).text(alloc)
    }

    fn help(&self, alloc: Global) -> Result<String, AllocError> {
        help_text(alloc)
    }

    fn version(&self, alloc: Global) -> Result<String, AllocError> {
        version_text(alloc)
    }
}

// Calls `feed`. It tells nothing of the contract of `feed`, which is long, so that all else is proved without it; and it alone calls `feed`,
// since each call takes long to prove.
fn fed<S: Source, K: Sink>(
    alloc: Global,
    words: &[Text80],
    config: &mut MemSource,
    input: &mut S,
    out: &mut K,
) -> Ended {
    feed(alloc, words, config, input, out)
}

// How a run ended, and what it leaves.
fn ran_of(alloc: Global, ended: &Ended) -> Result<Ran, AllocError> {
    Ok(Ran {
        status: ended.status,
        cause: ended.cause.text(alloc)?,
        entries: ended.history.as_slice().len(),
        is_counted: is_counted(ended.cause, ended.history.as_slice()),
        notes: notes_of(alloc, ended.sessions.as_slice())?,
    })
}

/// The notes of the sessions of a run.
pub fn notes_of(alloc: Global, sessions: &[SessionNote]) -> Result<Vec<Noted>, AllocError> {
    let mut notes = Vec::new(alloc);
    for note in sessions {
        notes.push(Noted {
            session: note.session,
            cause: note.cause,
            read: note.read,
            written: note.written,
        })?;
    }
    Ok(notes)
}

// Whether the history is full, and the cause has its entries and the bytes of text in it, and no byte of an input.
fn is_counted(cause: Cause, history: &[Entry]) -> bool {
    match cause {
        Cause::Full(entries, bytes, 0) => {
            entries == history.len() as u64 && bytes == all_bytes(history)
        }
        _ => false,
    }
}

// How much text a history holds.
fn all_bytes(history: &[Entry]) -> u64 {
    let mut sum: u64 = 0;
    for entry in history {
        sum = sum.saturating_add(text_bytes(entry));
    }
    sum
}

// How much text an entry holds, in bytes.
fn text_bytes(entry: &Entry) -> u64 {
    match &entry.event {
        Event::Host {
            arrival: Arrival::Frame(frame),
            ..
        } => frame.text.as_slice().len() as u64,
        _ => 0,
    }
}

// A cause with this status.
fn cause_of(status: u8) -> Cause {
    match status {
        0 => Cause::Done,
        1 => Cause::Words(1),
        2 => Cause::Config(0, Text80::empty()),
        3 => Cause::ReadFault,
        4 => Cause::WriteFault,
        5 => Cause::Full(40, 0, 500),
        6 => Cause::Line(3, 5),
        7 => Cause::NoMemory,
        _ => Cause::Door,
    }
}
