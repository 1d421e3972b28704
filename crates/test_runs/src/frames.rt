//! A cutter, to which bytes are fed, and the reading of an item.
//!
//! `to a cutter with max 0` begins a cutter whose greatest text has so many bytes. `feed 0000000A00` feeds it the bytes of these hex
//! digits, and `feed 00 1000` so many times these at once; it is answered what arrives, in order, as `Frame(2)` with the length of the
//! text and `TooLong(12)` with the length field, and then the fault, as `ShortLength(9)`. `kept` is answered how many bytes the
//! cutter keeps.
//!
//! `to the reader of items` is told `decode 03FFFFFF`, and answers how many bytes the item has that stands at the front, as `item of 4
//! bytes`, or the fault, as `Truncated(4)`.

use anyhow::{Result, bail};
use hsms_frame::{Arrival, CutFault, Cutter};
use secs_items::decode;
use std::alloc::{AllocError, Global};
use test_lines::{Subject, bytes};

/// A cutter that is fed.
#[derive(Drop)]
pub(crate) struct Fed {
    cutter: Cutter,
}

impl Fed {
    /// A cutter that begins so. None: none does.
    pub(crate) fn begun(alloc: Global, begins: &str) -> Option<Fed> {
        let Some(max) = begins.strip_prefix("to a cutter with max ") else {
            return None;
        };
        match max.parse::<u32>() {
            Ok(max) => cutter(alloc, max),
            Err(_) => None,
        }
    }

    // Feeds bytes, and adds what arrives and the fault.
    fn feed(&mut self, alloc: Global, bytes: &[u8], answer: &mut String) -> bool {
        let mut arrivals = Vec::new(alloc);
        let fed = self.cutter.feed(alloc, bytes, &mut arrivals);
        add_arrivals(arrivals.as_slice(), answer) && add_fault(fed, answer)
    }
}

fn cutter(alloc: Global, max: u32) -> Option<Fed> {
    match Cutter::new(alloc, max) {
        Ok(cutter) => Some(Fed { cutter }),
        Err(_) => None,
    }
}

impl Subject for Fed {
    fn answer(&mut self, alloc: Global, said: &str) -> Result<String> {
        let mut answer = String::new(alloc);
        if say(self, alloc, said, &mut answer) {
            Ok(answer)
        } else {
            bail!("it says nothing, or there is no memory")
        }
    }
}

fn say(fed: &mut Fed, alloc: Global, said: &str, answer: &mut String) -> bool {
    if said == "kept" {
        let kept = fed.cutter.kept();
        return write!(answer, "{kept}").is_ok();
    }
    match said.strip_prefix("feed ") {
        Some(words) => feed_words(fed, alloc, words, answer),
        None => false,
    }
}

fn feed_words(fed: &mut Fed, alloc: Global, words: &str, answer: &mut String) -> bool {
    match bytes_of(alloc, words) {
        Ok(bytes) => fed.feed(alloc, bytes.as_slice(), answer),
        Err(_) => false,
    }
}

// The bytes of `0000000A00`, or of `00 1000`, a thousand times 00.
fn bytes_of(alloc: Global, words: &str) -> Result<Vec<u8>> {
    let (digits, times) = words.split_once(' ').unwrap_or((words, "1"));
    let bytes = bytes(alloc, digits)?;
    Ok(repeated(alloc, bytes.as_slice(), times.parse::<u32>()?)?)
}

fn repeated(alloc: Global, bytes: &[u8], times: u32) -> Result<Vec<u8>, AllocError> {
    let mut all = Vec::new(alloc);
    for _ in 0..times {
        all.extend_from_slice(bytes)?;
    }
    Ok(all)
}

// Adds words behind others, with a comma between.
fn add(answer: &mut String, words: &str, number: u64) -> bool {
    let comma = if answer.is_empty() { "" } else { ", " };
    write!(answer, "{comma}{words}({number})").is_ok()
}

fn add_arrivals(arrivals: &[Arrival], answer: &mut String) -> bool {
    for arrival in arrivals {
        let added = match arrival {
            Arrival::Frame(frame) => add(answer, "Frame", frame.text.as_slice().len() as u64),
            Arrival::TooLong(_, field) => add(answer, "TooLong", *field as u64),
        };
        if !added {
            return false;
        }
    }
    true
}

fn add_fault(fed: Result<(), CutFault>, answer: &mut String) -> bool {
    match fed {
        Ok(()) => true,
        Err(CutFault::ShortLength(field)) => add(answer, "ShortLength", field as u64),
        Err(CutFault::NoMemory) => false,
    }
}

/// The reader of items.
#[derive(Drop)]
pub(crate) struct ItemReader;

impl Subject for ItemReader {
    fn answer(&mut self, alloc: Global, said: &str) -> Result<String> {
        let Some(digits) = said.strip_prefix("decode ") else {
            bail!("it says nothing");
        };
        match bytes(alloc, digits) {
            Ok(bytes) => Ok(read(alloc, bytes.as_slice())?),
            Err(why) => Err(why),
        }
    }
}

// The bytes of the item at the front, or the fault.
fn read(alloc: Global, bytes: &[u8]) -> Result<String, AllocError> {
    match decode(alloc, bytes) {
        Ok((_, length)) => format!(in alloc; "item of {length} bytes"),
        Err(fault) => format!(in alloc; "{fault:?}"),
    }
}
