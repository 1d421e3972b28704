//! A frame as HSMS spells it (SEMI E37, message format), from words, as hex digits. Begin with `spelled`.
//!
//! `S3F17 W 2 L[U4 1]` is a data message to or from device 0: its stream and function, `W` where a reply is wanted, the
//! system bytes as a decimal number, and its item, where it has one. `Select.req 1` is a control message with its system
//! bytes. It follows the standard alone, and takes nothing of the tool: a fault of the tool's writers is not to be shared.

use crate::names::of_name;
use crate::spelled_item::{bytes_of, digit};
use anyhow::{Result, bail};
use std::alloc::Global;

/// What a header has in front of its system bytes, as a number of six bytes: the session id, bytes 2 and 3, the PType and the
/// SType.
type Front = u64;

/// The fronts of control messages (SEMI E37, session types).
const CONTROLS: [(&str, Front); 7] = [
    ("Select.req", 0xFFFF_0000_0001),
    ("Select.rsp", 0xFFFF_0000_0002),
    ("Deselect.req", 0xFFFF_0000_0003),
    ("Deselect.rsp", 0xFFFF_0000_0004),
    ("Linktest.req", 0xFFFF_0000_0005),
    ("Linktest.rsp", 0xFFFF_0000_0006),
    ("Separate.req", 0xFFFF_0000_0009),
];

/// The stream of these letters, as `S3`.
fn stream_of(letters: &str) -> Option<u8> {
    match letters.strip_prefix('S') {
        Some(number) => number.parse::<u8>().ok(),
        None => None,
    }
}

/// The stream and the function of a name, as `S3F17`.
fn stream_and_function(name: &str) -> Option<(u8, u8)> {
    let (stream, function) = name.split_once('F').unwrap_or((name, ""));
    match (stream_of(stream), function.parse::<u8>()) {
        (Some(stream), Ok(function)) => Some((stream, function)),
        _ => None,
    }
}

/// The front of a data message to device 0: the W-bit is the uppermost of byte 2, which has the stream, and byte 3 is
/// the function (SEMI E37, data message).
fn data_front(name: &str, is_reply_wanted: bool) -> Option<Front> {
    let wanted = if is_reply_wanted { 0x80 } else { 0 };
    match stream_and_function(name) {
        Some((stream, function)) if stream <= 127 => {
            let bytes = [0, 0, 0, 0, stream | wanted, function, 0, 0];
            Some(u64::from_be_bytes(bytes))
        }
        _ => None,
    }
}

/// Adds bytes as hex digits. False where there is no memory.
fn push_hex(text: &mut String, bytes: &[u8]) -> bool {
    for byte in bytes {
        if write!(text, "{byte:02X}").is_err() {
            return false;
        }
    }
    true
}

/// Adds the frame of this front, these system bytes and this item, in hex digits; the length counts the header's ten bytes and
/// the item, which is far shorter than a length may be.
fn push_frame(text: &mut String, front: Front, system: u32, item: &[u8]) -> bool {
    let length = item.len().saturating_add(10);
    write!(text, "{length:08X}{front:012X}{system:08X}").is_ok() && push_hex(text, item)
}

/// The same, with the system bytes as a word.
fn add_frame(
    text: &mut String,
    front: Front,
    system: &str,
    item: &[u8],
) -> Result<(), &'static str> {
    match system.parse::<u32>() {
        Ok(system) if push_frame(text, front, system, item) => Ok(()),
        Ok(_) => Err("there is no memory"),
        Err(_) => Err("the system bytes are no number"),
    }
}

/// Adds the data message of this front, with these words behind it.
fn add_data(
    alloc: Global,
    text: &mut String,
    front: Front,
    words: &str,
) -> Result<(), &'static str> {
    match words.split_once(' ') {
        Some((system, words)) => match bytes_of(alloc, words) {
            Ok(item) => add_frame(text, front, system, item.as_slice()),
            Err(why) => Err(why),
        },
        None => add_frame(text, front, words, &[]),
    }
}

/// Adds the message of this name, with these words behind it.
fn add_message(
    alloc: Global,
    text: &mut String,
    name: &str,
    words: &str,
) -> Result<(), &'static str> {
    if let Some(front) = of_name(&CONTROLS, name) {
        return add_frame(text, front, words, &[]);
    }
    let after_w = words.strip_prefix("W ");
    match data_front(name, after_w.is_some()) {
        Some(front) => add_data(alloc, text, front, after_w.unwrap_or(words)),
        None => Err("its first word names no message"),
    }
}

/// Adds the frame that these words say, in hex digits. The error is why they cannot be read.
pub fn add_spelled(alloc: Global, text: &mut String, words: &str) -> Result<(), &'static str> {
    match words.split_once(' ') {
        Some((name, words)) => add_message(alloc, text, name, words),
        None => Err("it is neither whole bytes in hex digits nor a message with its system bytes"),
    }
}

/// The frame that these words say, in hex digits. The error tells what of them cannot be read.
pub fn spelled(alloc: Global, words: &str) -> Result<String> {
    let mut text = String::new(alloc);
    match add_spelled(alloc, &mut text, words) {
        Ok(()) => Ok(text),
        Err(why) => bail!("{why}"),
    }
}

/// Whether all of these are hex digits.
fn are_digits(text: &str) -> bool {
    for letter in text.as_bytes() {
        if digit(*letter).is_none() {
            return false;
        }
    }
    true
}

/// Whether these are the hex digits of whole bytes.
pub fn is_hex(text: &str) -> bool {
    !text.is_empty() && text.len() % 2 == 0 && are_digits(text)
}
