ghost use Rattle.std.specs.Prelude.{◌≡◌, ◌≢◌, ◌/◌, ◌≤◌, ℕ, length, take, Ok, Err, IfOk, IfErr, nat_le};
ghost use Rattle.std.specs.List.{position};
ghost use Rattle.byteorder.specs.Endian.{big_number};
ghost use Rattle.item_model.specs.Data.{Data};
ghost use Rattle.secs_items.specs.Faults.{IsFirst};
ghost use Rattle.secs_items.specs.Given.{Gives};
ghost use Rattle.item_model.specs.Reading.{format_at, length_at, elements_at, leaf, no_character, body_at, leaf_at, list_at, item_at};
ghost use Rattle.item_model.specs.Sendable.{IsSendable};
ghost use Rattle.item_model.specs.Spelling.{Spells};
ghost use Rattle.item_model.specs.View.{view, seen};
ghost use Rattle.item_model.specs.declared.fault.ItemFault.{ItemFault};

use crate::element::Element;
use byteorder::{BigEndian, ByteOrder};
use item_model::{Bytes, Elements, Format, Item, ItemFault, Items, NoMemory};
use std::alloc::Global;

// The most lists that may stand inside one another (this tool's profile, items).
const MOST_LISTS: usize = 16;

// The most items for which a list takes room before they are read; for more it grows as they come.
const FIRST_ROOM: usize = 8;

/// Reads the item at the front of the bytes, whatever follows it, and tells how many bytes it takes (SEMI E5, item
/// formats). A length may have 1, 2 or 3 bytes, and any byte but 0 is true. What is read can be sent again.
///
/// Where no item stands there, the fault of the least place is told, and of those at one place the one that stands
/// first in `ItemFault`: `Truncated` where the bytes are a proper front of an item, and each other fault where its
/// variant says. Besides, `NoMemory` may come at any call. Lists stand inside one another at most 16 deep. A list takes
/// room at once for the items that it announces, but for at most eight, and for at most one in two bytes that are there; that no other
/// memory is taken for what is announced and not there is measured (`bench/items.sh`) and not proved.
pub fn decode(alloc: Global, bytes: &[u8]) -> Result<(Item, usize), ItemFault>
    ensures within { IfOk result (λ r. r.1 ≤ length bytes.now) }
    // What is read is spelled so.
    ensures found { IfOk result (λ r. Spells (view r.0) 0 (take r.1 bytes.now)) }
    // What is spelled so is read, unless memory ran out.
    ensures only { (d : Data) (n : ℕ) → n ≤ length bytes.now → Spells d 0 (take n bytes.now) → Gives seen result (Ok (d, n)) }
    // Which fault is told.
    ensures fault { IfErr result (λ e. e ≢ ItemFault.NoMemory → IsFirst bytes.now e) }
    // The first fault is told, unless memory ran out.
    ensures first { (e : ItemFault) → IsFirst bytes.now e → Gives seen result (Err e) }
    ensures sendable { IfOk result (λ r. IsSendable (view r.0)) }
{
    match read_item(alloc, MOST_LISTS, bytes.len(), bytes) {
        Ok((item, rest)) => Ok((item, bytes.len() - rest.len())),
        Err(fault) => Err(fault),
    }
}

// Reads a format byte: the format, how many length bytes come, and what is behind the byte.
#[tactic(auto, unfolding(item_model::specs::Reading::format_at))]
fn read_format(total: usize, bytes: &[u8]) -> Result<(Format, usize, &[u8]), ItemFault>
    requires { length bytes.now ≤ total }
    ensures exact { Gives (λ r. (r.0, r.1, r.2.now)) result (format_at total bytes.now) }
    ensures sizes { IfOk result (λ r. (1 ≤ r.1) × (r.1 ≤ 3)) }
    ensures rest { IfOk result (λ r. length r.2.now ≤ length bytes.now) }
{
    let place = total - bytes.len();
    let [first, rest @ ..] = bytes else {
        return Err(ItemFault::Truncated(total));
    };
    if *first % 4 == 0 {
        return Err(ItemFault::BadLengthBytes(place));
    }
    match Format::with_code(*first / 4) {
        Some(format) => Ok((format, (*first % 4) as usize, rest)),
        None => Err(ItemFault::BadCode(place, *first / 4)),
    }
}

// The number in so many bytes. Mostly it stands in one, which is read straight.
fn read_number(size: usize, bytes: &[u8]) -> u64
    requires low { 1 ≤ size }
    requires high { size ≤ 3 }
    requires there { size ≤ length bytes.now }
    ensures { result ≡ big_number size bytes.now }
{
    if size == 1 {
        return bytes[0] as u64;
    }
    BigEndian::read_uint(bytes, size)
}

// Reads length bytes.
#[tactic(auto, unfolding(item_model::specs::Reading::length_at))]
fn read_length(total: usize, size: usize, bytes: &[u8]) -> Result<(usize, &[u8]), ItemFault>
    requires low { 1 ≤ size }
    requires high { size ≤ 3 }
    ensures exact { Gives (λ r. (r.0, r.1.now)) result (length_at total size bytes.now) }
    ensures rest { IfOk result (λ r. length r.1.now ≤ length bytes.now) }
{
    if bytes.len() < size {
        return Err(ItemFault::Truncated(total));
    }
    let length = read_number(size, bytes);
    Ok((length as usize, &bytes[size..]))
}

// Reads the elements that stand in the bytes, one after another.
fn read_elements<T: Element>(alloc: Global, bytes: &[u8]) -> Result<Elements<T>, NoMemory>
    ensures { IfOk result (λ e. e ≡ elements_at T.read_from T.WIDTH (length bytes.now / T.WIDTH) bytes.now) }
{
    let count = bytes.len() / T::WIDTH;
    let mut elements = Vec::with_capacity(alloc, count)?;
    let mut rest = bytes;
    for _ in 0..count {
        elements.push(T::read(rest))?;
        rest = rest.split_at(T::WIDTH).1;
    }
    Ok(Elements::from_vec(elements))
}

// Reads the item that isn't a list, of this format and body.
#[tactic(auto, unfolding(item_model::specs::Reading::leaf))]
fn read_body(alloc: Global, format: Format, body: &[u8]) -> Result<Item, NoMemory>
    ensures { IfOk result (λ item. view item ≡ leaf format body.now) }
{
    Ok(match format {
        Format::List => Item::List(Items::new(alloc)),
        Format::Binary => Item::Binary(Bytes::from_vec(Vec::from_slice(alloc, body)?)),
        Format::Bool => Item::Bool(read_elements(alloc, body)?),
        Format::Ascii => Item::Ascii(Bytes::from_vec(Vec::from_slice(alloc, body)?)),
        Format::I1 => Item::I1(read_elements(alloc, body)?),
        Format::I2 => Item::I2(read_elements(alloc, body)?),
        Format::I4 => Item::I4(read_elements(alloc, body)?),
        Format::I8 => Item::I8(read_elements(alloc, body)?),
        Format::U1 => Item::U1(Bytes::from_vec(Vec::from_slice(alloc, body)?)),
        Format::U2 => Item::U2(read_elements(alloc, body)?),
        Format::U4 => Item::U4(read_elements(alloc, body)?),
        Format::U8 => Item::U8(read_elements(alloc, body)?),
    })
}

// The index of the first byte over 127.
fn first_over_127(bytes: &[u8]) -> Option<usize>
    ensures { result ≡ position (λ b. nat_le 128 b) bytes.now }
{
    bytes.iter().position(|byte| *byte >= 128)
}

// The index of the first byte in the body of a text that is no character.
fn first_no_character(format: Format, body: &[u8]) -> Option<usize>
    ensures { result ≡ no_character format body.now }
{
    match format {
        Format::Ascii => first_over_127(body),
        _ => None,
    }
}

// Reads the length bytes and the body of an item that isn't a list, whose format byte stands at this place.
#[tactic(auto, unfolding(item_model::specs::Reading::leaf_at, item_model::specs::Reading::body_at))]
fn read_leaf(
    alloc: Global,
    total: usize,
    place: usize,
    format: Format,
    size: usize,
    bytes: &[u8],
) -> Result<(Item, &[u8]), ItemFault>
    requires low { 1 ≤ size }
    requires high { size ≤ 3 }
    requires whole { length bytes.now ≤ total }
    ensures exact { Gives (λ r. (view r.0, r.1.now)) result (leaf_at total place format size bytes.now) }
    ensures rest { IfOk result (λ r. length r.1.now ≤ length bytes.now) }
{
    let (length, rest) = read_length(total, size, bytes)?;
    if length % format.width() != 0 {
        return Err(ItemFault::BadWidth(place));
    }
    let there = rest.len().min(length);
    let (body, behind) = rest.split_at(there);
    if let Some(index) = first_no_character(format, body) {
        return Err(ItemFault::BadAscii(total - rest.len() + index));
    }
    if there < length {
        return Err(ItemFault::Truncated(total));
    }
    let item = read_body(alloc, format, body)?;
    Ok((item, behind))
}

// Reads an item, in which lists may stand inside one another to so many levels.
#[cycle(read)]
fn read_item(
    alloc: Global,
    levels: usize,
    total: usize,
    bytes: &[u8],
) -> Result<(Item, &[u8]), ItemFault>
    requires { length bytes.now ≤ total }
    ensures exact { Gives (λ r. (view r.0, r.1.now)) result (item_at levels total bytes.now) }
    ensures rest { IfOk result (λ r. length r.1.now ≤ length bytes.now) }
{
    let (format, size, rest) = read_format(total, bytes)?;
    let place = total - bytes.len();
    match format {
        Format::List if levels == 0 => Err(ItemFault::TooDeep(place)),
        Format::List => read_list(alloc, levels - 1, total, size, rest),
        _ => read_leaf(alloc, total, place, format, size, rest),
    }
}

// Reads the length bytes and the items of a list.
#[cycle(read)]
fn read_list(
    alloc: Global,
    levels: usize,
    total: usize,
    size: usize,
    bytes: &[u8],
) -> Result<(Item, &[u8]), ItemFault>
    requires low { 1 ≤ size }
    requires high { size ≤ 3 }
    requires whole { length bytes.now ≤ total }
    ensures exact { Gives (λ r. (view r.0, r.1.now)) result (list_at (item_at levels total) total size bytes.now) }
    ensures rest { IfOk result (λ r. length r.1.now ≤ length bytes.now) }
{
    let (count, mut rest) = read_length(total, size, bytes)?;
    let room = Vec::with_capacity(alloc, count.min(FIRST_ROOM).min(rest.len() / 2))?;
    let mut items = Items::from_vec(room);
    for _ in 0..count {
        let (item, behind) = read_item(alloc, levels, total, rest)?;
        items.push(item)?;
        rest = behind;
    }
    Ok((Item::List(items), rest))
}
