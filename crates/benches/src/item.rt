//! One item that is read or copied again and again.
//!
//! `items WAY ITEM COUNT`: WAY is `decode` or `copy`, ITEM is `binary`, a binary item of 16,777,215 bytes, or `list`, a list of
//! 100,000 unsigned integers of four bytes. With `refuse` for WAY and `hostile` for ITEM it decodes lists that announce what isn't
//! there. It tells how often it went well.

use anyhow::{Result, bail};
use item_model::ItemFault;
use secs_items::decode;
use std::alloc::{AllocError, Global};

// A binary item of 16,777,215 bytes.
fn binary_item(alloc: Global) -> Result<Vec<u8>, AllocError> {
    let mut text = Vec::from_slice(alloc, &[0x23, 0xFF, 0xFF, 0xFF])?;
    text.extend_from_slice(&vec![in alloc; 0x5A; 16_777_215]?)?;
    Ok(text)
}

// A list of 100,000 unsigned integers of four bytes.
fn list_item(alloc: Global) -> Result<Vec<u8>, AllocError> {
    let mut text = Vec::from_slice(alloc, &[0x03, 0x01, 0x86, 0xA0])?;
    for _ in 0..100_000_u32 {
        text.extend_from_slice(&[0xB1, 0x04, 0x00, 0x00, 0x00, 0x07])?;
    }
    Ok(text)
}

// Sixteen lists inside one another, each of which announces 16,777,215 items, and no more bytes.
fn hostile_item(alloc: Global) -> Result<Vec<u8>, AllocError> {
    let mut text = Vec::new(alloc);
    for _ in 0..16_u32 {
        text.extend_from_slice(&[0x03, 0xFF, 0xFF, 0xFF])?;
    }
    Ok(text)
}

// Decodes bytes that end within an item so many times, and tells how often that was told.
fn refuse_all(alloc: Global, text: &[u8], count: u64) -> u64 {
    let mut refused: u64 = 0;
    for _ in 0..count {
        if matches!(decode(alloc, text), Err(ItemFault::Truncated(_))) {
            refused = refused.saturating_add(1);
        }
    }
    refused
}

// Decodes the item so many times, and tells how often it was an item of all bytes.
fn decode_all(alloc: Global, text: &[u8], count: u64) -> u64 {
    let mut whole: u64 = 0;
    for _ in 0..count {
        if let Ok((_, length)) = decode(alloc, text) {
            if length == text.len() {
                whole = whole.saturating_add(1);
            }
        }
    }
    whole
}

// Copies the bytes so many times, and tells how often all were copied.
fn copy_all(alloc: Global, text: &[u8], count: u64) -> u64 {
    let mut whole: u64 = 0;
    for _ in 0..count {
        if let Ok(copy) = Vec::from_slice(alloc, text) {
            if copy.len() == text.len() && copy.last() == text.last() {
                whole = whole.saturating_add(1);
            }
        }
    }
    whole
}

// The bytes of the item of this name. None: there is none.
fn item_named(alloc: Global, item: &str) -> Option<Vec<u8>> {
    match item {
        "binary" => binary_item(alloc).ok(),
        "list" => list_item(alloc).ok(),
        "hostile" => hostile_item(alloc).ok(),
        _ => None,
    }
}

/// Does what the words say; how often it went well. The error: the words are no measurement, or there is no memory.
pub(crate) fn measure(alloc: Global, way: &str, item: &str, count: u64) -> Result<u64> {
    let Some(text) = item_named(alloc, item) else {
        bail!("there is no such item, or no memory");
    };
    match way {
        "decode" => Ok(decode_all(alloc, &text, count)),
        "copy" => Ok(copy_all(alloc, &text, count)),
        "refuse" => Ok(refuse_all(alloc, &text, count)),
        _ => bail!("there is no such way"),
    }
}
