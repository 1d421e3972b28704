//! Readers of the parts of a body, each of which is one item. A reader gives the value of an item that has the printed
//! form, and `IllegalData` exactly where it has not; no reader tells of an unknown stream or function. Besides, `NoMemory`
//! may come where a part is copied.

ghost use Rattle.std.specs.Prelude.{◌≡◌, ◌≤◌, length, IfOk, Option, option_map};
ghost use Rattle.item_model.specs.Data.{Data};
ghost use Rattle.item_model.specs.View.{view, items_of};
ghost use Rattle.message_model.specs.Bodies.{any, are_few, byte as byte_form, characters as characters_form, each, elements as elements_form, flag as flag_form, group, id as id_form, id_or_empty as id_or_empty_form, ids as ids_form, is_empty_number as is_empty_number_form, meeting, of_count, small_id as small_id_form, text as text_form, zero_or_one as zero_or_one_form};
ghost use Rattle.body_parts.specs.Given.{Gives};

use gem_ids::{Ids, Listed, Text80};
use item_model::{Bytes, Item};
use message_model::BodyFault;
use std::alloc::Global;

/// The item of a text. A text that is not one item has none, and is `IllegalData`. Takes no memory.
pub fn one(item: Option<&Item>) -> Result<&Item, BodyFault>
    ensures { Gives (λ i. view i.now) result (option_map (λ i. view i.now) item.entry) }
{
    match item {
        Some(item) => Ok(item),
        None => Err(BodyFault::IllegalData),
    }
}

/// The items of an L. `IllegalData` where the item is no list. Takes no memory.
pub fn elements(item: &Item) -> Result<&[Item], BodyFault>
    ensures { Gives (λ items. items_of items.now) result (elements_form (view item.now)) }
{
    match item {
        Item::List(items) => Ok(items.as_slice()),
        _ => Err(BodyFault::IllegalData),
    }
}

/// The items of an L of so many. `IllegalData` where the item is no list, or a list of fewer or more. Takes no memory.
pub fn parts<const N: usize>(item: &Item) -> Result<&[Item; N], BodyFault>
    ensures { Gives (λ items. items_of items.now) result (of_count N (view item.now)) }
{
    match <&[Item; N]>::try_from(elements(item)?) {
        Ok(items) => Ok(items),
        Err(_) => Err(BodyFault::IllegalData),
    }
}

/// A copy of an item, which may be of any kind. It is never `IllegalData`; `NoMemory` may come.
pub fn copied(item: &Item) -> Result<Item, BodyFault>
    ensures { Gives view result (any (view item.now)) }
{
    Ok(item.clone()?)
}

/// The characters of an A, of any number and each any byte. `IllegalData` where the item is no A; `NoMemory` may come.
pub fn characters(alloc: Global, item: &Item) -> Result<Bytes, BodyFault>
    ensures { Gives (λ text. text) result (characters_form (view item.now)) }
{
    match item {
        Item::Ascii(text) => Ok(Bytes::from_vec(Vec::from_slice(alloc, text.as_slice())?)),
        _ => Err(BodyFault::IllegalData),
    }
}

/// The text of an A of at most 80 bytes, each 32 to 126. `IllegalData` where the item is no such A. Takes no memory.
pub fn text(item: &Item) -> Result<Text80, BodyFault>
    ensures { Gives (λ text. text) result (text_form (view item.now)) }
{
    match item {
        Item::Ascii(bytes) => match Text80::read(bytes.as_slice()) {
            Ok(text) => Ok(text),
            Err(_) => Err(BodyFault::IllegalData),
        },
        _ => Err(BodyFault::IllegalData),
    }
}

/// The byte of a B of one byte. `IllegalData` where the item is no such B. Takes no memory.
pub fn byte(item: &Item) -> Result<u8, BodyFault>
    ensures { Gives (λ byte. byte) result (byte_form (view item.now)) }
{
    match item {
        Item::Binary(bytes) => match bytes.as_slice() {
            [byte] => Ok(*byte),
            _ => Err(BodyFault::IllegalData),
        },
        _ => Err(BodyFault::IllegalData),
    }
}

/// The truth of a BOOL of one element. `IllegalData` where the item is no such BOOL. Takes no memory.
pub fn flag(item: &Item) -> Result<bool, BodyFault>
    ensures { Gives (λ flag. flag) result (flag_form (view item.now)) }
{
    match item {
        Item::Bool(truths) => match truths.as_slice() {
            [truth] => Ok(*truth),
            _ => Err(BodyFault::IllegalData),
        },
        _ => Err(BodyFault::IllegalData),
    }
}

/// An id: the number of an integer item of one element, from 0 to 4,294,967,295. `IllegalData` where the item is none.
/// Takes no memory.
pub fn id(item: &Item) -> Result<u32, BodyFault>
    ensures { Gives (λ id. id) result (id_form (view item.now)) }
{
    item.as_id().ok_or(BodyFault::IllegalData)
}

/// An id of at most 255, which is printed as u1. `IllegalData` where the item is none. Takes no memory.
pub fn small_id(item: &Item) -> Result<u8, BodyFault>
    ensures { Gives (λ id. id) result (small_id_form (view item.now)) }
{
    let id = id(item)?;
    if id <= 255 {
        Ok(id as u8)
    } else {
        Err(BodyFault::IllegalData)
    }
}

/// Such an id that is 0 or 1. `IllegalData` where the item is none. Takes no memory.
pub fn zero_or_one(item: &Item) -> Result<u8, BodyFault>
    ensures { Gives (λ id. id) result (zero_or_one_form (view item.now)) }
{
    let id = small_id(item)?;
    if id <= 1 {
        Ok(id)
    } else {
        Err(BodyFault::IllegalData)
    }
}

/// An id, or none where the item is an integer item without elements. `IllegalData` where the item is neither. Takes no
/// memory.
pub fn id_or_empty(item: &Item) -> Result<Option<u32>, BodyFault>
    ensures { Gives (λ id. id) result (id_or_empty_form (view item.now)) }
{
    if is_empty_number(item) {
        return Ok(None);
    }
    Ok(Some(id(item)?))
}

fn is_empty_number(item: &Item) -> bool
    ensures { result ≡ is_empty_number_form (view item.now) }
{
    match item {
        Item::I1(numbers) => numbers.as_slice().is_empty(),
        Item::I2(numbers) => numbers.as_slice().is_empty(),
        Item::I4(numbers) => numbers.as_slice().is_empty(),
        Item::I8(numbers) => numbers.as_slice().is_empty(),
        Item::U1(numbers) => numbers.as_slice().is_empty(),
        Item::U2(numbers) => numbers.as_slice().is_empty(),
        Item::U4(numbers) => numbers.as_slice().is_empty(),
        Item::U8(numbers) => numbers.as_slice().is_empty(),
        _ => false,
    }
}

/// A part that is an element of a list.
pub trait Part: Drop + Sized {
    /// The form in which it is printed.
    ghost form: { Data → Option Self };

    /// Reads it. `IllegalData` where the item has not the form; `NoMemory` may come where it has parts to be copied.
    fn of_item(alloc: Global, item: &Item) -> Result<Self, BodyFault>
        ensures { Gives (λ part. part) result (form (view item.now)) };
}

impl Part for u32 {
    ghost form = { id_form };

    fn of_item(_alloc: Global, item: &Item) -> Result<u32, BodyFault> {
        id(item)
    }
}

impl Part for u8 {
    ghost form = { small_id_form };

    fn of_item(_alloc: Global, item: &Item) -> Result<u8, BodyFault> {
        small_id(item)
    }
}

impl Part for Text80 {
    ghost form = { text_form };

    fn of_item(_alloc: Global, item: &Item) -> Result<Text80, BodyFault> {
        text(item)
    }
}

impl Part for (u32, Ids) {
    ghost form = { group };

    fn of_item(alloc: Global, item: &Item) -> Result<(u32, Ids), BodyFault> {
        let [number, members] = parts::<2>(item)?;
        Ok((id(number)?, ids(alloc, members)?))
    }
}

/// The elements of a list of such parts, of any number. `IllegalData` where the item is no list, or an element has not the
/// form; `NoMemory` may come.
pub fn list_of<T: Part>(alloc: Global, item: &Item) -> Result<Listed<T>, BodyFault>
    ensures { Gives (λ parts. parts) result (each T.form (view item.now)) }
{
    let mut parts = Listed::new(alloc);
    for part in elements(item)? {
        parts.push(T::of_item(alloc, part)?)?;
    }
    Ok(parts)
}

/// A list of at most 1,024 ids. `IllegalData` where the item is no list, or one of more ids, or an element is no id;
/// `NoMemory` may come.
pub fn ids(alloc: Global, item: &Item) -> Result<Ids, BodyFault>
    ensures ids { Gives (λ ids. ids) result (ids_form (view item.now)) }
    ensures few { IfOk result (λ ids. length ids ≤ 1024) }
{
    few(list_of(alloc, item)?)
}

// These ids, unless they are more than 1,024.
pub(crate) fn few(ids: Ids) -> Result<Ids, BodyFault>
    ensures ids { Gives (λ ids. ids) result (meeting are_few ids) }
    ensures few { IfOk result (λ ids. length ids ≤ 1024) }
{
    if ids.len() <= 1024 {
        Ok(ids)
    } else {
        Err(BodyFault::IllegalData)
    }
}
