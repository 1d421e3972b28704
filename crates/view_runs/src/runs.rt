//! Runs with the words of lines.

use crate::drawn::say_items;
use line_feeding::{Cause, read_text};
use outside::{FileSource, MemSink, MemSource};
use std::alloc::{AllocError, Global};
use std::rt::Files;
use std::str;
use view_calls::run_view;

// The arguments of a line: the program's own name, and the words between blanks. `''` is an empty word.
fn arguments(alloc: Global, words: &str) -> Result<Vec<String>, AllocError> {
    let mut args = Vec::new(alloc);
    args.push(String::from_str(alloc, "gem300_view")?)?;
    for word in words.split(' ') {
        if !word.is_empty() {
            let word = if word == "''" { "" } else { word };
            args.push(String::from_str(alloc, word)?)?;
        }
    }
    Ok(args)
}

// The number of the call that is to fail, by these words, as `read 2 fails`.
fn failing(alloc: Global, kind: &str, fault: &str) -> Result<Vec<u64>, AllocError> {
    let mut fails = Vec::new(alloc);
    let mut words = fault.split(' ');
    if words.next() == Some(kind) {
        if let Some(Ok(number)) = words.next().map(|word| word.parse::<u64>()) {
            fails.push(number)?;
        }
    }
    Ok(fails)
}

// The lines of an input that stands in the line of a run, with a semicolon between two.
fn lines_of(alloc: Global, lines: &str) -> Result<Vec<u8>, AllocError> {
    let mut bytes = Vec::from_slice(alloc, lines.as_bytes())?;
    for byte in &mut bytes {
        if *byte == b';' {
            *byte = b'\n';
        }
    }
    Ok(bytes)
}

// The input of this name: the lines behind `=`, or the bytes of a file, none where it can't be read.
fn bytes_of<R: Files>(rt: &R, alloc: Global, name: &str) -> Result<Vec<u8>, AllocError> {
    if let Some(lines) = name.strip_prefix('=') {
        return lines_of(alloc, lines);
    }
    let mut source = FileSource::new(rt, name);
    match read_text(alloc, &mut source, 100_000) {
        Ok(bytes) => Ok(bytes),
        Err(_) => Ok(Vec::new(alloc)),
    }
}

// Prints bytes in hex, sixteen on a line.
fn print_hex<R: Print>(rt: &R, alloc: Global, bytes: &[u8]) -> Result<(), AllocError> {
    for piece in bytes.chunks(16) {
        let mut line = String::new(alloc);
        for byte in piece {
            let digits = format!(in alloc; "{byte:02X}")?;
            line.push_str(digits.as_str())?;
        }
        line.push_str("\n")?;
        let _ = rt.print(line.as_str());
    }
    Ok(())
}

// Prints what was written: text as it is, and what is none in hex.
fn print_written<R: Print>(rt: &R, alloc: Global, bytes: &[u8]) -> Result<(), AllocError> {
    match str::from_utf8(bytes) {
        Ok(text) if !bytes.contains(&0) => {
            let _ = rt.print(text);
            Ok(())
        }
        _ => print_hex(rt, alloc, bytes),
    }
}

// Prints the status of a cause, and its text, if it has one.
fn tell<R: Print>(rt: &R, alloc: Global, cause: Cause) -> Result<(), AllocError> {
    let status = cause.status();
    let text = match cause.text(alloc)? {
        Some(text) => format!(in alloc; "status {status}: {text}\n")?,
        None => format!(in alloc; "status {status}\n")?,
    };
    let _ = rt.print(text.as_str());
    Ok(())
}

// Runs these words over the bytes of this file, where a call may fail.
fn run<R: Files + Print>(
    rt: &R,
    alloc: Global,
    words: &str,
    input: &str,
    fault: &str,
) -> Result<(), AllocError> {
    let args = arguments(alloc, words)?;
    let bytes = bytes_of(rt, alloc, input)?;
    let mut source = MemSource::new(bytes, failing(alloc, "read", fault)?);
    let mut sink = MemSink::new(alloc, failing(alloc, "write", fault)?);
    let cause = run_view(rt, alloc, &args, &mut source, &mut sink)?;
    print_written(rt, alloc, sink.as_bytes())?;
    tell(rt, alloc, cause)
}

// Runs a line.
fn run_line<R: Files + Print>(rt: &R, alloc: Global, line: &str) -> Result<(), AllocError> {
    let heading = format!(in alloc; "$ {line}\n")?;
    let _ = rt.print(heading.as_str());
    if let Some(words) = line.strip_prefix("items ") {
        return say_items(rt, alloc, words);
    }
    let (words, input) = line.split_once(" < ").unwrap_or((line, ""));
    let (input, fault) = input.split_once(", ").unwrap_or((input, ""));
    run(rt, alloc, words, input, fault)
}

/// Runs each line that isn't empty.
pub(crate) fn run_lines<R: Files + Print>(
    rt: &R,
    alloc: Global,
    text: &str,
) -> Result<(), AllocError> {
    for line in text.lines() {
        if !line.is_empty() {
            run_line(rt, alloc, line)?;
        }
    }
    Ok(())
}
