//! Bytes that lines of a text put together: a configuration, an input, and what is to be printed.
//!
//! `line TEXT` adds a text and a line feed, `text |TEXT|` what stands between the bars, `bytes HEX` bytes, `bytes HEX 7` the same seven times,
//! and `many COUNT BYTE` so many of a byte. `asks FIRST LAST` adds lines of S1F1 with the W-bit under these system bytes, and `answered FIRST LAST` the lines of S1F2
//! that are printed. `none` takes all away.

use std::alloc::{AllocError, Global};

/// The first word of a line, and what stands behind it.
pub fn first_word(said: &str) -> (&str, &str) {
    said.split_once(' ').unwrap_or((said, ""))
}

/// Adds what is said to a place. False: it says nothing.
pub fn add(alloc: Global, place: &mut Vec<u8>, said: &str) -> Result<bool, AllocError> {
    let (form, text) = first_word(said);
    match form {
        "line" => add_line(place, text),
        "text" => add_text(place, text),
        _ => add_bytes(alloc, place, form, text),
    }
}

// Takes all away.
fn cleared(place: &mut Vec<u8>) -> Result<bool, AllocError> {
    place.clear();
    Ok(true)
}

fn add_text(place: &mut Vec<u8>, text: &str) -> Result<bool, AllocError> {
    place.extend_from_slice(text.trim_matches('|').as_bytes())?;
    Ok(true)
}

/// Adds a text and a line feed.
pub fn add_line(place: &mut Vec<u8>, text: &str) -> Result<bool, AllocError> {
    place.extend_from_slice(text.as_bytes())?;
    place.push(b'\n')?;
    Ok(true)
}

// The forms that are no text.
fn add_bytes(
    alloc: Global,
    place: &mut Vec<u8>,
    form: &str,
    text: &str,
) -> Result<bool, AllocError> {
    match form {
        "none" => cleared(place),
        "bytes" => add_hex(alloc, place, text),
        "many" => add_many(place, text),
        "asks" => add_messages(alloc, place, text, ASK),
        "answered" => add_messages(alloc, place, text, ANSWERED),
        _ => Ok(false),
    }
}

// Bytes, as often as stands behind them.
fn add_hex(alloc: Global, place: &mut Vec<u8>, text: &str) -> Result<bool, AllocError> {
    let (digits, times) = text.split_once(' ').unwrap_or((text, "1"));
    match (hex::decode(alloc, digits), times.parse::<u32>()) {
        (Ok(bytes), Ok(times)) => repeat(place, bytes.as_slice(), times),
        _ => Ok(false),
    }
}

fn repeat(place: &mut Vec<u8>, bytes: &[u8], times: u32) -> Result<bool, AllocError> {
    for _ in 0..times {
        place.extend_from_slice(bytes)?;
    }
    Ok(true)
}

fn add_many(place: &mut Vec<u8>, text: &str) -> Result<bool, AllocError> {
    match counted_byte(text) {
        Some((count, byte)) => {
            for _ in 0..count {
                place.push(byte)?;
            }
            Ok(true)
        }
        None => Ok(false),
    }
}

// A count, and the byte behind it.
fn counted_byte(text: &str) -> Option<(u32, u8)> {
    let (count, byte) = text.split_once(' ')?;
    let Ok(count) = count.parse::<u32>() else {
        return None;
    };
    match byte.as_bytes() {
        [byte] => Some((count, *byte)),
        _ => None,
    }
}

// What stands in front of the system bytes of a message, and behind them.
type Around = (&'static str, &'static str);

// S1F1 with the W-bit to device 0, as it comes in.
const ASK: Around = ("H 0000000A000081010000", "\n");

// S1F2 of device 0 as it is printed: GEM300 and 1.0.00.
const ANSWERED: Around = (
    "> 0000001C000001020000",
    "0102410647454D3330304106312E302E3030\n",
);

// Adds a message under each of these system bytes.
fn add_messages(
    alloc: Global,
    place: &mut Vec<u8>,
    text: &str,
    around: Around,
) -> Result<bool, AllocError> {
    match systems(text) {
        Some((first, last)) => {
            for system in first..=last {
                add_message(alloc, place, around, system)?;
            }
            Ok(true)
        }
        None => Ok(false),
    }
}

// The first and the last system bytes.
fn systems(text: &str) -> Option<(u32, u32)> {
    let (first, last) = text.split_once(' ')?;
    match (first.parse::<u32>(), last.parse::<u32>()) {
        (Ok(first), Ok(last)) => Some((first, last)),
        _ => None,
    }
}

fn add_message(
    alloc: Global,
    place: &mut Vec<u8>,
    around: Around,
    system: u32,
) -> Result<(), AllocError> {
    let digits = format!(in alloc; "{system:08X}")?;
    place.extend_from_slice(around.0.as_bytes())?;
    place.extend_from_slice(digits.as_bytes())?;
    place.extend_from_slice(around.1.as_bytes())
}
