//! Items in words, on one line.

ghost use Rattle.std.specs.Prelude.{◌≡◌, ◌++◌, OnOk, IfOk, codes};
ghost use Rattle.item_model.specs.View.{view, items_of};
ghost use Rattle.item_words.specs.Words.{words, listed, more_listed};

use crate::element::{add_bytes, add_elements};
use crate::text::add_text;
use item_model::Item;
use std::alloc::{AllocError, Global};

/// An item in words, on one line (this tool's profile, items in words): `L[U4 1, A CAR01, B 0D]`. `AllocError` comes for want of memory
/// alone.
pub fn words(alloc: Global, item: &Item) -> Result<Vec<u8>, AllocError>
    ensures { IfOk result (λ text. text.items ≡ words (view item.now)) }
{
    let mut out = Vec::new(alloc);
    add_item(alloc, item, &mut out)?;
    Ok(out)
}

// Adds an item.
#[cycle(words)]
pub(crate) fn add_item(alloc: Global, item: &Item, out: &mut Vec<u8>) -> Result<(), AllocError>
    ensures { OnOk result (out.new.items ≡ out.old.items ++ words (view item.now)) }
{
    match item {
        Item::List(items) => add_list(alloc, items.as_slice(), out),
        Item::Binary(bytes) => add_bytes(b"B", bytes.as_slice(), out),
        Item::Bool(truths) => add_elements(alloc, b"BOOL", truths.as_slice(), out),
        Item::Ascii(text) => add_text(text.as_slice(), out),
        Item::I1(numbers) => add_elements(alloc, b"I1", numbers.as_slice(), out),
        Item::I2(numbers) => add_elements(alloc, b"I2", numbers.as_slice(), out),
        Item::I4(numbers) => add_elements(alloc, b"I4", numbers.as_slice(), out),
        Item::I8(numbers) => add_elements(alloc, b"I8", numbers.as_slice(), out),
        Item::U1(numbers) => add_elements(alloc, b"U1", numbers.as_slice(), out),
        Item::U2(numbers) => add_elements(alloc, b"U2", numbers.as_slice(), out),
        Item::U4(numbers) => add_elements(alloc, b"U4", numbers.as_slice(), out),
        Item::U8(numbers) => add_elements(alloc, b"U8", numbers.as_slice(), out),
    }
}

// Adds a list.
#[cycle(words)]
fn add_list(alloc: Global, items: &[Item], out: &mut Vec<u8>) -> Result<(), AllocError>
    ensures { OnOk result (out.new.items ≡ out.old.items ++ (codes "L[" ++ (listed (items_of items.now) ++ codes "]"))) }
{
    out.extend_from_slice(b"L[")?;
    add_listed(alloc, items, out)?;
    out.extend_from_slice(b"]")
}

// Adds the items of a list.
#[cycle(words)]
fn add_listed(alloc: Global, items: &[Item], out: &mut Vec<u8>) -> Result<(), AllocError>
    ensures { OnOk result (out.new.items ≡ out.old.items ++ listed (items_of items.now)) }
{
    let [first, more @ ..] = items else {
        return Ok(());
    };
    add_item(alloc, first, out)?;
    add_more(alloc, more, out)
}

// Adds items of a list behind its first.
#[cycle(words)]
fn add_more(alloc: Global, items: &[Item], out: &mut Vec<u8>) -> Result<(), AllocError>
    ensures { OnOk result (out.new.items ≡ out.old.items ++ more_listed (items_of items.now)) }
{
    for item in items {
        out.extend_from_slice(b", ")?;
        add_item(alloc, item, out)?;
    }
    Ok(())
}
