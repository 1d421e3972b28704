//! Items in words: `L[U4 1 2, A CAR01, B 0D]`.

use anyhow::Result;
use secs_items::Item;
use std::alloc::Global;
use std::fmt::Display;

/// Adds an item in words. A list stands in brackets; any other item is its kind, and its elements with a blank before each: bytes in
/// hex, numbers in decimal, truth values as `true` and `false`, and text as it stands.
#[cycle(words)]
pub fn add_item(alloc: Global, item: &Item, out: &mut String) -> Result<()> {
    match item {
        Item::List(items) => add_list(alloc, items.as_slice(), out),
        Item::Binary(bytes) => add_binary(bytes.as_slice(), out),
        Item::Bool(truths) => add_elements("BOOL", truths.as_slice(), out),
        Item::Ascii(bytes) => add_text(alloc, bytes.as_slice(), out),
        Item::I1(numbers) => add_elements("I1", numbers.as_slice(), out),
        Item::I2(numbers) => add_elements("I2", numbers.as_slice(), out),
        Item::I4(numbers) => add_elements("I4", numbers.as_slice(), out),
        Item::I8(numbers) => add_elements("I8", numbers.as_slice(), out),
        Item::U1(numbers) => add_elements("U1", numbers.as_slice(), out),
        Item::U2(numbers) => add_elements("U2", numbers.as_slice(), out),
        Item::U4(numbers) => add_elements("U4", numbers.as_slice(), out),
        Item::U8(numbers) => add_elements("U8", numbers.as_slice(), out),
    }
}

#[cycle(words)]
fn add_list(alloc: Global, items: &[Item], out: &mut String) -> Result<()> {
    out.push_str("L[")?;
    let mut is_first = true;
    for item in items {
        if !is_first {
            out.push_str(", ")?;
        }
        is_first = false;
        add_item(alloc, item, out)?;
    }
    out.push_str("]")?;
    Ok(())
}

fn add_binary(bytes: &[u8], out: &mut String) -> Result<()> {
    out.push_str("B")?;
    for byte in bytes {
        write!(out, " {byte:02X}")?;
    }
    Ok(())
}

fn add_text(alloc: Global, text: &[u8], out: &mut String) -> Result<()> {
    let text = String::from_utf8_lossy(alloc, text)?;
    write!(out, "A {}", text.as_str())?;
    Ok(())
}

fn add_elements<T: Display>(kind: &str, elements: &[T], out: &mut String) -> Result<()> {
    out.push_str(kind)?;
    for element in elements {
        write!(out, " {element}")?;
    }
    Ok(())
}
