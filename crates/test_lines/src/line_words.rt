//! The words of a line, and what they stand for.

use anyhow::{Result, bail};
use hsms_frame::Header;
use std::alloc::Global;

/// The words of a line.
pub fn words(alloc: Global, said: &str) -> Result<Vec<&str>> {
    Ok(said.split_whitespace().collect(alloc)?)
}

/// The word at a place of a line.
pub fn word<'a>(words: &[&'a str], place: usize) -> Result<&'a str> {
    match words.get(place) {
        Some(word) => Ok(*word),
        None => bail!("it has more words"),
    }
}

/// The number at a place of a line.
pub fn number(words: &[&str], place: usize) -> Result<u64> {
    Ok(word(words, place)?.parse::<u64>()?)
}

/// The number of at most 255 at a place of a line.
pub fn small(words: &[&str], place: usize) -> Result<u8> {
    Ok(word(words, place)?.parse::<u8>()?)
}

/// The bytes of hex digits, and none of `-`.
pub fn bytes(alloc: Global, digits: &str) -> Result<Vec<u8>> {
    if digits == "-" {
        return Ok(Vec::new(alloc));
    }
    Ok(hex::decode(alloc, digits)?)
}

/// The header of its ten bytes.
fn header_of(bytes: &[u8]) -> Option<Header> {
    match bytes {
        [a, b, byte2, byte3, ptype, stype, c, d, e, f] => Some(Header {
            session: u16::from_be_bytes([*a, *b]),
            byte2: *byte2,
            byte3: *byte3,
            ptype: *ptype,
            stype: *stype,
            system: u32::from_be_bytes([*c, *d, *e, *f]),
        }),
        _ => None,
    }
}

/// The header of its ten bytes, as hex digits.
pub fn header(alloc: Global, digits: &str) -> Result<Header> {
    match bytes(alloc, digits) {
        Ok(bytes) => match header_of(bytes.as_slice()) {
            Some(header) => Ok(header),
            None => bail!("a header has ten bytes"),
        },
        Err(why) => Err(why),
    }
}

/// Nothing, which a line is answered that only tells something.
pub fn nothing(alloc: Global) -> Result<String> {
    Ok(String::new(alloc))
}
