//! The words of items in lines, where one line is too short for them.

ghost use Rattle.std.specs.Prelude.{◌≡◌, ◌+◌, ◌*◌, ◌<◌, ◌≤◌, ◌++◌, OnOk, IfOk, codes};
ghost use Rattle.item_model.specs.Height.{height, highest};
ghost use Rattle.item_model.specs.View.{view, items_of};
ghost use Rattle.item_words.specs.Words.{words};
ghost use Rattle.item_words.specs.Layout.{laid, laid_items, more_laid, new_line};

use crate::line::{add_item, words};
use item_model::Item;
use std::alloc::{AllocError, Global};

/// The columns of a line.
pub const LINE_WIDTH: usize = 100;

/// The words of an item that stands behind so many columns: on one line where they fit 100 columns, and else each item of a list on lines
/// of its own, two columns further in (this tool's profile, items in words). Items that are read have at most 16 lists inside one
/// another. `AllocError` comes for want of memory alone.
pub fn laid_words(alloc: Global, margin: usize, item: &Item) -> Result<Vec<u8>, AllocError>
    requires margin { margin < 1000 }
    requires height { height (view item.now) ≤ 16 }
    ensures { IfOk result (λ text. text.items ≡ laid margin (view item.now)) }
{
    let mut out = Vec::new(alloc);
    add_laid(alloc, margin, item, &mut out)?;
    Ok(out)
}

// Adds a line feed and so many blanks.
fn add_new_line(margin: usize, out: &mut Vec<u8>) -> Result<(), AllocError>
    ensures { OnOk result (out.new.items ≡ out.old.items ++ new_line margin) }
{
    out.push(b'\n')?;
    for _blank in 0..margin {
        out.push(b' ')?;
    }
    Ok(())
}

// Adds an item.
#[cycle(laid)]
fn add_laid(alloc: Global, margin: usize, item: &Item, out: &mut Vec<u8>) -> Result<(), AllocError>
    requires { margin + 2 * height (view item.now) < 2000 }
    ensures { OnOk result (out.new.items ≡ out.old.items ++ laid margin (view item.now)) }
{
    let Item::List(items) = item else {
        return add_item(alloc, item, out);
    };
    let line = words(alloc, item)?;
    if margin + line.len() <= LINE_WIDTH {
        return out.extend_from_slice(line.as_slice());
    }
    add_broken(alloc, margin, items.as_slice(), out)
}

// Adds a list that is too long for a line.
#[cycle(laid)]
fn add_broken(
    alloc: Global,
    margin: usize,
    items: &[Item],
    out: &mut Vec<u8>,
) -> Result<(), AllocError>
    requires { margin + 2 + 2 * highest (items_of items.now) < 2000 }
    ensures { OnOk result (out.new.items ≡ out.old.items ++ (codes "L[" ++ (laid_items (margin + 2) (items_of items.now) ++ (new_line margin ++ codes "]")))) }
{
    out.extend_from_slice(b"L[")?;
    add_items(alloc, margin + 2, items, out)?;
    add_new_line(margin, out)?;
    out.extend_from_slice(b"]")
}

// Adds the items of a list.
#[cycle(laid)]
fn add_items(
    alloc: Global,
    margin: usize,
    items: &[Item],
    out: &mut Vec<u8>,
) -> Result<(), AllocError>
    requires { margin + 2 * highest (items_of items.now) < 2000 }
    ensures { OnOk result (out.new.items ≡ out.old.items ++ laid_items margin (items_of items.now)) }
{
    let [first, more @ ..] = items else {
        return Ok(());
    };
    add_new_line(margin, out)?;
    add_laid(alloc, margin, first, out)?;
    add_more(alloc, margin, more, out)
}

// Adds items of a list behind its first.
#[cycle(laid)]
fn add_more(
    alloc: Global,
    margin: usize,
    items: &[Item],
    out: &mut Vec<u8>,
) -> Result<(), AllocError>
    requires { margin + 2 * highest (items_of items.now) < 2000 }
    ensures { OnOk result (out.new.items ≡ out.old.items ++ more_laid margin (items_of items.now)) }
{
    for item in items {
        out.extend_from_slice(b",")?;
        add_new_line(margin, out)?;
        add_laid(alloc, margin, item, out)?;
    }
    Ok(())
}
