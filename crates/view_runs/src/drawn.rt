//! Items that are drawn, whose words are read again by the reader of the tests (`conversation_files`), which follows the standard and
//! knows nothing of the tool: the bytes are those that the tool sends of the item.

ghost use Rattle.std.specs.Prelude.{◌≤◌};
ghost use Rattle.item_model.specs.Height.{height};
ghost use Rattle.item_model.specs.View.{view};

use conversation_files::item;
use item_words::{laid_words, words};
use secs_items::{Item, encode, read_one};
use sim_modules::draw;
use std::alloc::{AllocError, Global};
use std::str;

// The format codes of items that are no lists, of which an element has so many bytes (SEMI E5, item formats).
const LEAVES: [(u8, u8); 11] = [
    (0o10, 1),
    (0o11, 1),
    (0o20, 1),
    (0o30, 8),
    (0o31, 1),
    (0o32, 2),
    (0o34, 4),
    (0o50, 8),
    (0o51, 1),
    (0o52, 2),
    (0o54, 4),
];

// Characters that texts often have here, since they mean something in words.
const CHARACTERS: [u8; 16] = [
    b' ', b',', b'[', b']', b'"', b'A', b'1', b' ', b't', b'i', b'm', b'e', b's', b'L', b'-', b'~',
];

// The next drawn number below this, of its upper bytes.
fn below(most: u8, last: &mut u64) -> u8 {
    *last = draw(*last);
    let [upper, ..] = last.to_be_bytes();
    upper % most.max(1)
}

// Adds a drawn byte of an element of this format.
fn add_byte(format: u8, last: &mut u64, out: &mut Vec<u8>) -> Result<(), AllocError> {
    let byte = match format {
        0o11 => below(2, last),
        0o20 => {
            let place = usize::from(below(16, last));
            CHARACTERS.get(place).copied().unwrap_or(b'x')
        }
        _ => {
            *last = draw(*last);
            let [_, second, ..] = last.to_be_bytes();
            second
        }
    };
    out.push(byte)?;
    Ok(())
}

// Adds an item that is no list.
fn add_leaf(last: &mut u64, out: &mut Vec<u8>) -> Result<(), AllocError> {
    let place = usize::from(below(11, last));
    let (format, width) = LEAVES.get(place).copied().unwrap_or((0o20, 1));
    let length = below(10, last).saturating_mul(width);
    out.push(format << 2 | 1)?;
    out.push(length)?;
    for _ in 0..length {
        add_byte(format, last, out)?;
    }
    Ok(())
}

// Adds a list of drawn items that are no lists.
fn add_short_list(last: &mut u64, out: &mut Vec<u8>) -> Result<(), AllocError> {
    let count = below(6, last);
    out.extend_from_slice(&[1, count])?;
    for _ in 0..count {
        add_leaf(last, out)?;
    }
    Ok(())
}

// Adds an item that is a list or not.
fn add_element(last: &mut u64, out: &mut Vec<u8>) -> Result<(), AllocError> {
    if below(3, last) == 0 {
        add_short_list(last, out)
    } else {
        add_leaf(last, out)
    }
}

// Adds a list of drawn items, which may be lists.
fn add_list(last: &mut u64, out: &mut Vec<u8>) -> Result<(), AllocError> {
    let count = below(8, last);
    out.extend_from_slice(&[1, count])?;
    for _ in 0..count {
        add_element(last, out)?;
    }
    Ok(())
}

// Whether these words are read as the item that has these bytes.
fn is_read_as(alloc: Global, words: &[u8], bytes: &[u8]) -> bool {
    let Ok(words) = str::from_utf8(words) else {
        return false;
    };
    match item(alloc, words) {
        Ok(read) => read.as_slice() == bytes,
        Err(_) => false,
    }
}

// Whether both forms of the words of an item are read as it.
fn is_read_again(alloc: Global, drawn: &[u8], found: &Item) -> Result<bool, AllocError>
    requires { height (view found.now) ≤ 16 }
{
    let line = words(alloc, found)?;
    let lines = laid_words(alloc, 4, found)?;
    Ok(is_read_as(alloc, line.as_slice(), drawn) && is_read_as(alloc, lines.as_slice(), drawn))
}

// Draws an item, and tells whether its words are read as it.
fn try_item(alloc: Global, last: &mut u64) -> Result<bool, AllocError> {
    let mut drawn = Vec::new(alloc);
    add_list(last, &mut drawn)?;
    let Some(found) = read_one(alloc, drawn.as_slice())? else {
        return Ok(false);
    };
    let mut sent = Vec::new(alloc);
    encode(&found, &mut sent)?;
    Ok(sent.as_slice() == drawn.as_slice() && is_read_again(alloc, drawn.as_slice(), &found)?)
}

// How many of so many items are read again.
fn count_items(alloc: Global, seed: u64, count: u64) -> Result<u64, AllocError> {
    let mut last = seed;
    let mut read: u64 = 0;
    for _ in 0..count {
        if try_item(alloc, &mut last)? {
            read = read.saturating_add(1);
        }
    }
    Ok(read)
}

/// Draws items by the words `SEED COUNT`, and prints how many of them are read again.
pub(crate) fn say_items<R: Print>(rt: &R, alloc: Global, words: &str) -> Result<(), AllocError> {
    let (seed, count) = words.split_once(' ').unwrap_or((words, ""));
    let (Ok(seed), Ok(count)) = (seed.parse::<u64>(), count.parse::<u64>()) else {
        let _ = rt.print("no numbers\n");
        return Ok(());
    };
    let read = count_items(alloc, seed, count)?;
    let text = format!(in alloc; "{read} of {count} are read again\n")?;
    let _ = rt.print(text.as_str());
    Ok(())
}
