//! Slot maps in words.

use message_words::Remarks;
use std::alloc::{AllocError, Global};

// What the codes of a slot mean (SEMI E87, slot map).
const MEANINGS: [&str; 6] = [
    "undefined",
    "empty",
    "not empty",
    "correctly occupied",
    "double slotted",
    "cross slotted",
];

// The end of the run of slots of one code that begins in front of these.
fn run_length(code: u8, codes: &[u8]) -> usize {
    let mut count: usize = 0;
    for other in codes {
        if *other != code {
            return count;
        }
        count = count.saturating_add(1);
    }
    count
}

// Says one run of slots, of which the first has this number.
fn say_run(
    alloc: Global,
    first: usize,
    count: usize,
    code: u8,
    out: &mut Remarks,
) -> Result<(), AllocError> {
    let meaning = MEANINGS
        .get(usize::from(code))
        .copied()
        .unwrap_or("no code");
    let last = first.saturating_add(count).saturating_sub(1);
    let words = if count == 1 {
        format!(in alloc; "slot {first}: {meaning}")?
    } else {
        format!(in alloc; "slots {first} to {last}: {meaning}")?
    };
    out.say(words.as_str())
}

/// Says what lies in the slots of a carrier, of which the first is slot 1: a remark for each run of slots with one code.
pub(crate) fn say_slots(alloc: Global, codes: &[u8], out: &mut Remarks) -> Result<(), AllocError> {
    let mut left = codes;
    let mut first = 1;
    for _ in 0..codes.len() {
        let [code, ..] = left else {
            return Ok(());
        };
        let count = run_length(*code, left);
        say_run(alloc, first, count, *code, out)?;
        first = first.saturating_add(count);
        left = left.get(count..).unwrap_or(&[]);
    }
    Ok(())
}
