ghost use Rattle.std.specs.Prelude.{◌≡◌, ◌+◌, ◌*◌, ◌^◌, ◌<◌, ◌++◌, length, flat_map, OnOk, OnErr};
ghost use Rattle.item_model.specs.Format.{code};
ghost use Rattle.secs_items.specs.Grows.{Grows};
ghost use Rattle.item_model.specs.Plain.{plain_head, plain, plain_all, count_of};
ghost use Rattle.item_model.specs.Sendable.{IsLength, IsSendable, HasShortBodies, HaveShortBodies};
ghost use Rattle.item_model.specs.View.{view, items_of};

use crate::element::Element;
use item_model::{Format, Item, NoMemory};

/// Appends the one spelling of the item that the tool sends (SEMI E5, item formats): with the fewest length bytes, and
/// true as 1. After `NoMemory` `out` holds what it held before.
///
/// What is asked of the item: at most 16 lists stand inside one another, the characters of ASCII items are at most 127,
/// the body of each item that is no list is shorter than 16,777,216 bytes, and each list has fewer than 16,777,216
/// items.
pub fn encode(item: &Item, out: &mut Vec<u8>) -> Result<(), NoMemory>
    requires { IsSendable (view item.now) }
    ensures ok { OnOk result (out.new.items ≡ out.old.items ++ plain (view item.now)) }
    ensures no_memory { OnErr result (out.new.items ≡ out.old.items) }
{
    let start = out.len();
    match write_item(item, out) {
        Ok(()) => Ok(()),
        Err(no_memory) => {
            out.truncate(start);
            Err(no_memory)
        }
    }
}

// Writes an item. Where memory runs out, part of it may stand behind what was there.
#[cycle(write)]
fn write_item(item: &Item, out: &mut Vec<u8>) -> Result<(), NoMemory>
    requires { HasShortBodies (view item.now) }
    ensures ok { OnOk result (out.new.items ≡ out.old.items ++ plain (view item.now)) }
    ensures grows { Grows out.old.items out.new.items }
{
    match item {
        Item::List(items) => write_list(items.as_slice(), out),
        Item::Binary(bytes) => write_bytes(Format::Binary, bytes.as_slice(), out),
        Item::Bool(truths) => write_elements(Format::Bool, truths.as_slice(), out),
        Item::Ascii(bytes) => write_bytes(Format::Ascii, bytes.as_slice(), out),
        Item::I8(numbers) => write_elements(Format::I8, numbers.as_slice(), out),
        Item::I1(numbers) => write_elements(Format::I1, numbers.as_slice(), out),
        Item::I2(numbers) => write_elements(Format::I2, numbers.as_slice(), out),
        Item::I4(numbers) => write_elements(Format::I4, numbers.as_slice(), out),
        Item::U8(numbers) => write_elements(Format::U8, numbers.as_slice(), out),
        Item::U1(numbers) => write_bytes(Format::U1, numbers.as_slice(), out),
        Item::U2(numbers) => write_elements(Format::U2, numbers.as_slice(), out),
        Item::U4(numbers) => write_elements(Format::U4, numbers.as_slice(), out),
    }
}

// Writes the header and the items of a list.
#[cycle(write)]
fn write_list(items: &[Item], out: &mut Vec<u8>) -> Result<(), NoMemory>
    requires count { IsLength (count_of (items_of items.now)) }
    requires bodies { HaveShortBodies (items_of items.now) }
    ensures ok { OnOk result (out.new.items ≡ out.old.items ++ (plain_head 0 (count_of (items_of items.now)) ++ plain_all (items_of items.now))) }
    ensures grows { Grows out.old.items out.new.items }
{
    write_head(Format::List, items.len(), out)?;
    for item in items {
        write_item(item, out)?;
    }
    Ok(())
}

// Writes a header and the bytes of a body.
fn write_bytes(format: Format, bytes: &[u8], out: &mut Vec<u8>) -> Result<(), NoMemory>
    requires { IsLength (length bytes.now) }
    ensures ok { OnOk result (out.new.items ≡ out.old.items ++ (plain_head (code format) (length bytes.now) ++ bytes.now)) }
    ensures grows { Grows out.old.items out.new.items }
{
    write_head(format, bytes.len(), out)?;
    out.extend_from_slice(bytes)
}

// Writes a header and elements of so many bytes each.
fn write_elements<T: Element>(
    format: Format,
    elements: &[T],
    out: &mut Vec<u8>,
) -> Result<(), NoMemory>
    requires { IsLength (T.WIDTH * length elements.now) }
    ensures ok { OnOk result (out.new.items ≡ out.old.items ++ (plain_head (code format) (T.WIDTH * length elements.now) ++ flat_map T.spelled elements.now)) }
    ensures grows { Grows out.old.items out.new.items }
{
    write_head(format, T::WIDTH * elements.len(), out)?;
    for element in elements {
        element.write(out)?;
    }
    Ok(())
}

// Writes a format byte and the fewest length bytes.
fn write_head(format: Format, length: usize, out: &mut Vec<u8>) -> Result<(), NoMemory>
    requires { IsLength length }
    ensures ok { OnOk result (out.new.items ≡ out.old.items ++ plain_head (code format) length) }
    ensures err { OnErr result (out.new.items ≡ out.old.items) }
{
    let code = format.code();
    let [_, high, middle, low] = (length as u32).to_be_bytes();
    if length < 0x100 {
        out.extend_from_slice(&[4 * code + 1, low])
    } else if length < 0x1_0000 {
        out.extend_from_slice(&[4 * code + 2, middle, low])
    } else {
        out.extend_from_slice(&[4 * code + 3, high, middle, low])
    }
}
