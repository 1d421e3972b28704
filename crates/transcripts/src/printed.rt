//! The lines that the tool prints (this tool's profile, output lines), as they are read.

ghost use Rattle.std.specs.Prelude.{◌≡◌, slice_get, Some, IfOk};

use crate::cursor::Cursor;
use std::alloc::{AllocError, Global};
use tool_texts::{LINE_BYTES, LineFault, read_host_line};

/// A line that the tool printed.
#[derive(Drop)]
pub(crate) enum Printed<'a> {
    /// `+ k`: session k came up.
    Up(u64),
    /// `- k CAUSE`: session k ended.
    Ended(u64, Cause),
    /// `> HEX`: a frame goes to the host.
    Frame(Vec<u8>),
    /// `! m n TASK`: module m is to do command n.
    Command(u8, u64, &'a [u8]),
    /// `= ok` or `= no`: an operator's command was accepted or not.
    Oper(bool),
}

/// Why a session ended, as it is printed.
#[derive(Clone, Copy)]
pub(crate) enum Cause {
    PeerEnd,
    ShortLength,
    Separated,
    T6,
    T7,
    Quit,
    ReadFault,
    WriteFault,
    Stopped,
}

// The causes by their words.
const CAUSES: [(&str, Cause); 9] = [
    ("PeerEnd", Cause::PeerEnd),
    ("ShortLength", Cause::ShortLength),
    ("Separated", Cause::Separated),
    ("T6", Cause::T6),
    ("T7", Cause::T7),
    ("Quit", Cause::Quit),
    ("ReadFault", Cause::ReadFault),
    ("WriteFault", Cause::WriteFault),
    ("Stopped", Cause::Stopped),
];

// The words that a task begins with.
const TASKS: [&str; 4] = ["pick ", "place ", "align ", "process "];

// A whole word that is the rest of a line; else the place where it leaves that word.
fn whole_word(rest: Cursor<'_>, word: &str) -> Result<(), u64> {
    let mut cursor = rest;
    cursor.literal(word.as_bytes())?;
    cursor.end()
}

// The cause that the rest of a line says.
fn ending(rest: Cursor<'_>) -> Result<Cause, u64> {
    let mut place = rest.place();
    for (word, cause) in &CAUSES {
        match whole_word(rest, word) {
            Ok(()) => return Ok(*cause),
            Err(farther) => place = place.max(farther),
        }
    }
    Err(place)
}

// `k`, the rest of a line.
fn up<'a>(rest: Cursor<'_>) -> Result<Printed<'a>, u64> {
    let mut cursor = rest;
    let session = cursor.number(u64::MAX)?;
    cursor.end()?;
    Ok(Printed::Up(session))
}

// `k CAUSE`.
fn ended<'a>(rest: Cursor<'_>) -> Result<Printed<'a>, u64> {
    let mut cursor = rest;
    let session = cursor.number(u64::MAX)?;
    cursor.literal(b" ")?;
    Ok(Printed::Ended(session, ending(cursor)?))
}

// A task begins here, whose words go on to the end of the line.
fn task(rest: Cursor<'_>) -> Result<(), u64> {
    let mut place = rest.place();
    for word in &TASKS {
        let mut cursor = rest;
        match cursor.literal(word.as_bytes()) {
            Ok(()) => {
                let _words = cursor.printing()?;
                return Ok(());
            }
            Err(farther) => place = place.max(farther),
        }
    }
    Err(place)
}

// `m n TASK`.
fn command(rest: Cursor<'_>) -> Result<Printed<'_>, u64> {
    let mut cursor = rest;
    let module = cursor.number(255)?.min(255) as u8;
    cursor.literal(b" ")?;
    let number = cursor.number(u64::MAX)?;
    cursor.literal(b" ")?;
    task(cursor)?;
    Ok(Printed::Command(module, number, cursor.rest()))
}

// `ok` or `no`.
fn oper<'a>(rest: Cursor<'_>) -> Result<Printed<'a>, u64> {
    match (whole_word(rest, "ok"), whole_word(rest, "no")) {
        (Ok(()), _) => Ok(Printed::Oper(true)),
        (_, Ok(())) => Ok(Printed::Oper(false)),
        (Err(place), Err(farther)) => Err(place.max(farther)),
    }
}

// A line but that of a frame, by its mark.
fn short_line(line: &[u8]) -> Result<Printed<'_>, u64> {
    let mut cursor = Cursor::new(line);
    match line {
        [b'+', ..] => {
            cursor.literal(b"+ ")?;
            up(cursor)
        }
        [b'-', ..] => {
            cursor.literal(b"- ")?;
            ended(cursor)
        }
        [b'!', ..] => {
            cursor.literal(b"! ")?;
            command(cursor)
        }
        [b'=', ..] => {
            cursor.literal(b"= ")?;
            oper(cursor)
        }
        _ => Err(0),
    }
}

// The line `H HEX` that has the hex digits of a line `> HEX`.
fn host_line(alloc: Global, line: &[u8]) -> Result<Vec<u8>, AllocError>
    ensures { IfOk result (λ host. slice_get host.items 0 ≡ Some 72) }
{
    let mut host = Vec::from_slice(alloc, b"H")?;
    if let [_mark, rest @ ..] = line {
        host.extend_from_slice(rest)?;
    }
    Ok(host)
}

// The bytes of a line `> HEX`, which is read as `H HEX`: places are the same, and digits are of either case.
fn frame(alloc: Global, line: &[u8]) -> Result<Vec<u8>, LineFault> {
    let Ok(host) = host_line(alloc, line) else {
        return Err(LineFault::NoMemory);
    };
    let mut bytes = Vec::new(alloc);
    match read_host_line(host.as_slice(), &mut bytes) {
        Ok(()) => Ok(bytes),
        Err(fault) => Err(fault),
    }
}

/// Whether a line begins with the mark of a printed line.
pub(crate) fn is_marked(line: &[u8]) -> bool {
    matches!(line, [b'+' | b'-' | b'>' | b'=' | b'!', ..])
}

/// What a line says that begins with the mark of a printed line. `Place` comes where it leaves the printed lines, with the first byte
/// with which none goes on, and with 600,000 where it has more bytes than that.
pub(crate) fn read_printed(alloc: Global, line: &[u8]) -> Result<Printed<'_>, LineFault> {
    if line.len() > LINE_BYTES {
        return Err(LineFault::Place(600_000));
    }
    if let [b'>', ..] = line {
        return Ok(Printed::Frame(frame(alloc, line)?));
    }
    match short_line(line) {
        Ok(printed) => Ok(printed),
        Err(place) => Err(LineFault::Place(place)),
    }
}
