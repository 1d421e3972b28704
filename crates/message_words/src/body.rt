//! The parts of the item of a message.

use item_model::Item;
use std::alloc::{AllocError, Global};

/// The items of a list; none where it is no list.
pub(crate) fn parts(item: &Item) -> Option<&[Item]> {
    match item {
        Item::List(items) => Some(items.as_slice()),
        _ => None,
    }
}

/// Both items of a list of two.
pub(crate) fn pair(item: &Item) -> Option<(&Item, &Item)> {
    match parts(item) {
        Some([first, second]) => Some((first, second)),
        _ => None,
    }
}

/// The number of a code or an id: a binary of one byte, or an integer item of one element up to 4,294,967,295.
pub(crate) fn number(item: &Item) -> Option<u32> {
    match item {
        Item::Binary(bytes) => match bytes.as_slice() {
            [byte] => Some(u32::from(*byte)),
            _ => None,
        },
        _ => item.as_id(),
    }
}

/// The truth value of a boolean of one element.
pub(crate) fn truth(item: &Item) -> Option<bool> {
    match item {
        Item::Bool(truths) => match truths.as_slice() {
            [truth] => Some(*truth),
            _ => None,
        },
        _ => None,
    }
}

/// The number of a DATAID, which has up to eight bytes.
pub(crate) fn long_number(item: &Item) -> Option<u64> {
    match item {
        Item::U8(numbers) => match numbers.as_slice() {
            [number] => Some(*number),
            _ => None,
        },
        _ => number(item).map(u64::from),
    }
}

// The ids of these items; none where one of them is no id.
fn ids(alloc: Global, items: &[Item]) -> Result<Option<Vec<u32>>, AllocError> {
    let mut all = Vec::new(alloc);
    for item in items {
        match item.as_id() {
            Some(id) => all.push(id)?,
            None => return Ok(None),
        }
    }
    Ok(Some(all))
}

/// The ids of a list; none where it is no list, or an item of it is no id.
pub(crate) fn ids_of(alloc: Global, item: &Item) -> Result<Option<Vec<u32>>, AllocError> {
    match parts(item) {
        Some(items) => ids(alloc, items),
        None => Ok(None),
    }
}
