//! Items of messages that speak of constants.

ghost use Rattle.std.specs.Prelude.{◌≡◌, [], ◌∷◌, IfOk, map};
ghost use Rattle.item_model.specs.Sendable.{IsSendable};
ghost use Rattle.item_model.specs.View.{view};
ghost use Rattle.data_variables.specs.Bodies.{value_item, number_said, truth_said, val_in, items, name_item, namelist_of, known_name, unknown_name, A, U4};

use crate::constant::{Constant, constant_of, ids as all_ids};
use crate::val::Val;
use gem_ids::Text80;
use item_model::{Bools, Bytes, Item, Items, NoMemory, U32s};
use std::alloc::Global;

/// The item of a value (SEMI E5, ECV): U4 of one element for a number, BOOL of one for a truth value. `NoMemory` where
/// there is none.
pub fn item_of(alloc: Global, val: Val) -> Result<Item, NoMemory>
    ensures exact { IfOk result (λ item. view item ≡ value_item val) }
    ensures sendable { IfOk result (λ item. IsSendable (view item)) }
{
    match val {
        Val::Number(number) => u4(alloc, number),
        Val::Truth(truth) => Ok(Item::Bool(Bools::from_vec(vec![in alloc; truth]?))),
    }
}

/// The value that an item says for a constant, in range or not: an integer item of one element from 0 to 4,294,967,295
/// for a number, a BOOL of one element for a truth value (this tool's profile, S2F15). `None` exactly where the constant
/// is unknown, or the item is another. Takes no memory.
pub fn set_of(ecid: u32, item: &Item) -> Option<Val>
    ensures { result ≡ val_in ecid (view item.now) }
{
    match constant_of(ecid)?.default {
        Val::Number(_) => number_said(item),
        Val::Truth(_) => truth_said(item),
    }
}

// The number that an item says.
fn number_said(item: &Item) -> Option<Val>
    ensures { result ≡ number_said (view item.now) }
{
    match item.as_id() {
        Some(number) => Some(Val::Number(number)),
        None => None,
    }
}

// The truth value that an item says.
fn truth_said(item: &Item) -> Option<Val>
    ensures { result ≡ truth_said (view item.now) }
{
    match item {
        Item::Bool(truths) => match truths.as_slice() {
            [truth] => Some(Val::Truth(*truth)),
            _ => None,
        },
        _ => None,
    }
}

// The body of S2F30 for these ECIDs, for none of all.
pub(crate) fn namelist_item(alloc: Global, ids: &[u32]) -> Result<Item, NoMemory>
    ensures { IfOk result (λ item. view item ≡ namelist_of ids.now) }
{
    let told = if ids.is_empty() {
        name_items(alloc, &all_ids())?
    } else {
        name_items(alloc, ids)?
    };
    Ok(Item::List(told))
}

// What is told of each of these ECIDs.
fn name_items(alloc: Global, ids: &[u32]) -> Result<Items, NoMemory>
    ensures { IfOk result (λ told. told ≡ items (map name_item ids.now)) }
{
    let mut told = Items::new(alloc);
    for ecid in ids {
        told.push(name_item(alloc, *ecid)?)?;
    }
    Ok(told)
}

// What is told of an ECID.
fn name_item(alloc: Global, ecid: u32) -> Result<Item, NoMemory>
    ensures { IfOk result (λ item. view item ≡ name_item ecid) }
{
    match constant_of(ecid) {
        Some(constant) => known_item(alloc, ecid, &constant),
        None => unknown_item(alloc, ecid),
    }
}

// What is told of a constant.
fn known_item(alloc: Global, ecid: u32, constant: &Constant) -> Result<Item, NoMemory>
    ensures { IfOk result (λ item. view item ≡ known_name ecid constant.now) }
{
    let mut parts = Items::new(alloc);
    parts.push(u4(alloc, ecid)?)?;
    parts.push(ascii(alloc, constant.name)?)?;
    parts.push(item_of(alloc, constant.least)?)?;
    parts.push(item_of(alloc, constant.most)?)?;
    parts.push(item_of(alloc, constant.default)?)?;
    parts.push(ascii(alloc, constant.units)?)?;
    Ok(Item::List(parts))
}

// What is told of an ECID that no constant has.
fn unknown_item(alloc: Global, ecid: u32) -> Result<Item, NoMemory>
    ensures { IfOk result (λ item. view item ≡ unknown_name ecid) }
{
    let mut parts = Items::new(alloc);
    parts.push(u4(alloc, ecid)?)?;
    parts.push(ascii(alloc, Text80::empty())?)?;
    parts.push(ascii(alloc, Text80::empty())?)?;
    parts.push(ascii(alloc, Text80::empty())?)?;
    parts.push(ascii(alloc, Text80::empty())?)?;
    parts.push(ascii(alloc, Text80::empty())?)?;
    Ok(Item::List(parts))
}

// U4 of one element.
fn u4(alloc: Global, number: u32) -> Result<Item, NoMemory>
    ensures { IfOk result (λ item. view item ≡ U4 number) }
{
    Ok(Item::U4(U32s::from_vec(vec![in alloc; number]?)))
}

// A.
fn ascii(alloc: Global, text: Text80) -> Result<Item, NoMemory>
    ensures { IfOk result (λ item. view item ≡ A text) }
{
    Ok(Item::Ascii(Bytes::from_vec(Vec::from_slice(alloc, text.as_bytes())?)))
}
