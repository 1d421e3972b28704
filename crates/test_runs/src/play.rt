//! How a conversation is played. Begin with `play`.
//!
//! What comes in is given to the tool, with the words and the configuration, byte by byte, and whenever the next line is asked for,
//! what stands above it has to have been printed, and no more. So a printed line stands behind the line that has it printed. The whole is
//! played once more in pieces of 4,096 bytes and of five. What is printed in all, the end and the notes of the sessions have to be those that
//! are written.

ghost use Rattle.std.specs.Prelude.{◌<◌};

use crate::steps::{Counting, Printed, Stepped};
use crate::tool::{Ran, Tools};
use conversation_files::{
    Kind, Line, Section, configuration_of, input_of, otherwise, otherwise_ended, otherwise_noted,
    words_of,
};
use gem_ids::Text80;
use outside::{MemSink, MemSource, Sink, Source};
use std::alloc::{AllocError, Global};
use test_lines::{Noted, text_of};

/// How the tool is called: the words, and the text of the configuration.
#[derive(Drop)]
struct Call {
    words: Vec<Text80>,
    configuration: String,
}

/// How a run ended, and the notes of its sessions, each a line.
#[derive(Drop)]
struct Finished {
    ended: String,
    notes: String,
}

/// Adds the cause of an end, as standard error tells it, where there is one.
fn add_cause(text: &mut String, cause: &Option<String>) -> Result<(), AllocError> {
    match cause {
        Some(cause) if text.push(' ').is_ok() => text.push_str(cause.as_str()),
        Some(_) => Err(AllocError),
        None => Ok(()),
    }
}

/// The status, and the cause as standard error tells it.
fn end_of(alloc: Global, ran: &Ran) -> Result<String, AllocError> {
    let mut text = String::new(alloc);
    let status = ran.status;
    if write!(text, "{status}").is_err() {
        return Err(AllocError);
    }
    match add_cause(&mut text, &ran.cause) {
        Ok(()) => Ok(text),
        Err(error) => Err(error),
    }
}

/// Adds the note of a session, as a line. False where there is no memory.
fn add_note(text: &mut String, note: &Noted) -> bool {
    let (session, read, written, cause) = (note.session, note.read, note.written, note.cause);
    writeln!(text, "{session} read {read} written {written} {cause:?}").is_ok()
}

/// Adds the notes of sessions. False where there is no memory.
fn add_notes(text: &mut String, notes: &[Noted]) -> bool {
    for note in notes {
        if !add_note(text, note) {
            return false;
        }
    }
    true
}

fn notes_of(alloc: Global, notes: &[Noted]) -> Result<String, AllocError> {
    let mut text = String::new(alloc);
    if add_notes(&mut text, notes) {
        Ok(text)
    } else {
        Err(AllocError)
    }
}

/// A source of this text.
fn source(alloc: Global, text: &str) -> Result<MemSource, AllocError> {
    let text = Vec::from_slice(alloc, text.as_bytes())?;
    Ok(MemSource::new(text, Vec::new(alloc)))
}

fn finished_of(alloc: Global, ran: &Ran) -> Result<Finished, AllocError> {
    match (end_of(alloc, ran), notes_of(alloc, ran.notes.as_slice())) {
        (Ok(ended), Ok(notes)) => Ok(Finished { ended, notes }),
        _ => Err(AllocError),
    }
}

/// Runs a call with this input.
fn run<O: Tools, S: Source, K: Sink>(
    tools: &O,
    alloc: Global,
    call: &Call,
    input: &mut S,
    out: &mut K,
) -> Result<Finished, AllocError> {
    let mut config = source(alloc, call.configuration.as_str())?;
    let ran = tools.run(alloc, call.words.as_slice(), &mut config, input, out)?;
    finished_of(alloc, &ran)
}

/// The lines that come in, as they come in pieces of so many bytes.
fn input(alloc: Global, lines: &[Line<'_>], piece: usize) -> Result<MemSource, AllocError>
    requires { 0 < piece }
{
    match input_of(alloc, lines) {
        Ok(text) => match source(alloc, text.as_str()) {
            Ok(source) => Ok(source.with_piece(piece)),
            Err(error) => Err(error),
        },
        Err(error) => Err(error),
    }
}

/// Runs a call with these lines.
fn run_lines<O: Tools>(
    tools: &O,
    alloc: Global,
    call: &Call,
    lines: &[Line<'_>],
    piece: usize,
    out: &mut MemSink,
) -> Result<Finished, AllocError>
    requires { 0 < piece }
{
    match input(alloc, lines, piece) {
        Ok(mut input) => run(tools, alloc, call, &mut input, out),
        Err(error) => Err(error),
    }
}

/// Tells the first line that was printed otherwise.
fn printed_otherwise(
    alloc: Global,
    lines: &[Line<'_>],
    printed: &[u8],
) -> Result<String, AllocError> {
    match String::from_utf8_lossy(alloc, printed) {
        Ok(printed) => otherwise(alloc, lines, printed.as_str()),
        Err(error) => Err(error),
    }
}

/// Tells the first session that has another note, or how the run ended otherwise.
fn finished_otherwise(
    alloc: Global,
    lines: &[Line<'_>],
    finished: &Finished,
) -> Result<String, AllocError> {
    match otherwise_noted(alloc, lines, finished.notes.as_str()) {
        Ok(told) if told.is_empty() => otherwise_ended(alloc, lines, finished.ended.as_str()),
        told => told,
    }
}

/// Tells what was printed otherwise, the first session that has another note, or how the run ended otherwise.
fn told_otherwise(
    alloc: Global,
    lines: &[Line<'_>],
    printed: &[u8],
    finished: &Finished,
) -> Result<String, AllocError> {
    match printed_otherwise(alloc, lines, printed) {
        Ok(told) if told.is_empty() => finished_otherwise(alloc, lines, finished),
        told => told,
    }
}

/// Tells a line in front of which too much or too little was printed.
fn told_step(alloc: Global, line: &Line<'_>, wanted: u64, got: u64) -> Result<String, AllocError> {
    let number = line.number;
    let text = line.text;
    format!(in alloc;
        "line {number}: in front of {text} stand {wanted} bytes that are printed, and {got} were"
    )
}

/// Tells the first line in front of which something else was printed than stands above it: as each was asked for, so much was printed. A line
/// that was never asked for stands behind all.
fn stepped_otherwise(
    alloc: Global,
    lines: &[Line<'_>],
    marks: &[u64],
    all: u64,
) -> Result<String, AllocError> {
    let mut wanted: u64 = 0;
    let mut place: usize = 0;
    for line in lines {
        if line.kind == Kind::Printed {
            wanted = wanted
                .saturating_add(line.spelled().len() as u64)
                .saturating_add(1);
        } else if line.kind == Kind::Said {
            let got = marks.get(place).copied().unwrap_or(all);
            if got != wanted {
                return told_step(alloc, line, wanted, got);
            }
            place = place.saturating_add(1);
        }
    }
    Ok(String::new(alloc))
}

/// All lines as bytes, beside what is printed.
fn stepped<'a>(
    alloc: Global,
    lines: &[Line<'_>],
    printed: &'a Printed,
) -> Result<Stepped<'a>, AllocError> {
    let text = input_of(alloc, lines)?;
    let bytes = Vec::from_slice(alloc, text.as_bytes())?;
    Ok(Stepped::new(alloc, bytes, printed))
}

/// Plays all lines byte by byte, and tells the first in front of which something else was printed than stands above it, and what is otherwise in all.
fn play_steps<O: Tools>(
    tools: &O,
    alloc: Global,
    call: &Call,
    lines: &[Line<'_>],
) -> Result<String, AllocError> {
    let printed = Printed::nothing();
    let mut input = stepped(alloc, lines, &printed)?;
    let mut out = Counting::new(alloc, &printed);
    let finished = run(tools, alloc, call, &mut input, &mut out)?;
    told_stepped(
        alloc,
        lines,
        &finished,
        out.as_bytes(),
        &input,
        printed.count(),
    )
}

/// Tells what is otherwise in all, or the first line in front of which something else was printed than stands above it.
fn told_stepped(
    alloc: Global,
    lines: &[Line<'_>],
    finished: &Finished,
    out: &[u8],
    input: &Stepped<'_>,
    all: u64,
) -> Result<String, AllocError> {
    match told_otherwise(alloc, lines, out, finished) {
        Ok(told) if told.is_empty() => told_marked(alloc, lines, input.marks(), all),
        told => told,
    }
}

fn told_marked(
    alloc: Global,
    lines: &[Line<'_>],
    marks: Option<&[u64]>,
    all: u64,
) -> Result<String, AllocError> {
    match marks {
        Some(marks) => stepped_otherwise(alloc, lines, marks, all),
        None => Err(AllocError),
    }
}

/// Plays all lines in pieces of so many bytes, and tells the first that is printed otherwise, the first session that has
/// another note, or how the run ended otherwise.
fn play_whole<O: Tools>(
    tools: &O,
    alloc: Global,
    call: &Call,
    lines: &[Line<'_>],
    piece: usize,
) -> Result<String, AllocError>
    requires { 0 < piece }
{
    let mut out = MemSink::new(alloc, Vec::new(alloc));
    match run_lines(tools, alloc, call, lines, piece, &mut out) {
        Ok(finished) => told_otherwise(alloc, lines, out.as_bytes(), &finished),
        Err(error) => Err(error),
    }
}

/// The same, where what is told says how large the pieces are.
fn play_pieces<O: Tools>(
    tools: &O,
    alloc: Global,
    call: &Call,
    lines: &[Line<'_>],
    piece: usize,
) -> Result<String, AllocError>
    requires { 0 < piece }
{
    match play_whole(tools, alloc, call, lines, piece) {
        Ok(told) if !told.is_empty() => format!(in alloc; "{told}, in pieces of {piece}"),
        told => told,
    }
}

/// Adds words as the program hands them in. False where there is no memory.
fn add_texts(words: &mut Vec<Text80>, typed: &[&str]) -> bool {
    for word in typed {
        if words.push(text_of(word)).is_err() {
            return false;
        }
    }
    true
}

/// The words of the command, as the program hands them in.
fn texts_of(alloc: Global, lines: &[Line<'_>]) -> Result<Vec<Text80>, AllocError> {
    let mut words = Vec::new(alloc);
    match words_of(alloc, lines) {
        Ok(typed) if add_texts(&mut words, typed.as_slice()) => Ok(words),
        _ => Err(AllocError),
    }
}

fn call_of(alloc: Global, lines: &[Line<'_>]) -> Result<Call, AllocError> {
    match (texts_of(alloc, lines), configuration_of(alloc, lines)) {
        (Ok(words), Ok(configuration)) => Ok(Call {
            words,
            configuration,
        }),
        _ => Err(AllocError),
    }
}

/// Plays all lines in pieces of both sizes.
fn play_all<O: Tools>(
    tools: &O,
    alloc: Global,
    call: &Call,
    lines: &[Line<'_>],
) -> Result<String, AllocError> {
    for piece in [4096, 5] {
        match play_pieces(tools, alloc, call, lines, piece) {
            Ok(told) if told.is_empty() => {}
            told => return told,
        }
    }
    Ok(String::new(alloc))
}

fn play_called<O: Tools>(
    tools: &O,
    alloc: Global,
    call: &Call,
    lines: &[Line<'_>],
) -> Result<String, AllocError> {
    match play_steps(tools, alloc, call, lines) {
        Ok(told) if told.is_empty() => play_all(tools, alloc, call, lines),
        told => told,
    }
}

/// Plays a conversation, and tells the first line that goes otherwise than it is written; an empty text where none does.
pub fn play<O: Tools>(
    tools: &O,
    alloc: Global,
    section: &Section<'_>,
) -> Result<String, AllocError> {
    let lines = section.lines.as_slice();
    match call_of(alloc, lines) {
        Ok(call) => play_called(tools, alloc, &call, lines),
        Err(error) => Err(error),
    }
}
