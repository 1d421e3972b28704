//! Writers of the parts of a body: each gives the item that a part is printed as, or `NoMemory`.

ghost use Rattle.std.specs.Prelude.{◌≡◌, IfOk};
ghost use Rattle.gem_ids.specs.Texts.{IsText};
ghost use Rattle.item_model.specs.Data.{list as list_data};
ghost use Rattle.item_model.specs.View.{view, items_of};
ghost use Rattle.message_model.specs.Printed.{A, B, U1, U4, U8, code as code_data};

use gem_ids::Text80;
use item_model::{Bytes, Item, Items, NoMemory, U8s, U32s, U64s};
use std::alloc::Global;

/// A list of these items, which are copied.
pub fn elements(items: &Items) -> Result<Item, NoMemory>
    ensures { IfOk result (λ item. view item ≡ list_data items.now) }
{
    Ok(Item::List(items.clone()?))
}

/// A list of these items.
pub fn list<const N: usize>(alloc: Global, items: [Item; N]) -> Result<Item, NoMemory>
    ensures { IfOk result (λ item. view item ≡ list_data (items_of items.entry)) }
{
    Ok(Item::List(Items::from_vec(Vec::from_array(alloc, items)?)))
}

/// An A of these bytes, which are copied.
pub fn ascii(text: &Bytes) -> Result<Item, NoMemory>
    ensures { IfOk result (λ item. view item ≡ A text.now) }
{
    Ok(Item::Ascii(text.clone()?))
}

/// A code, which is a B of one byte.
pub fn code(alloc: Global, code: u8) -> Result<Item, NoMemory>
    ensures { IfOk result (λ item. view item ≡ code_data code) }
{
    Ok(Item::Binary(Bytes::from_vec(vec![in alloc; code]?)))
}

/// An A of the bytes of a text.
pub fn text(alloc: Global, text: &Text80) -> Result<Item, NoMemory>
    ensures exact { IfOk result (λ item. view item ≡ A text.now) }
    ensures text { IsText text.now }
{
    Ok(Item::Ascii(Bytes::from_vec(Vec::from_slice(alloc, text.as_bytes())?)))
}

/// A U1 of one element.
pub fn u1(alloc: Global, number: u8) -> Result<Item, NoMemory>
    ensures { IfOk result (λ item. view item ≡ U1 number) }
{
    Ok(Item::U1(U8s::from_vec(vec![in alloc; number]?)))
}

/// A U4 of one element.
pub fn u4(alloc: Global, number: u32) -> Result<Item, NoMemory>
    ensures { IfOk result (λ item. view item ≡ U4 number) }
{
    Ok(Item::U4(U32s::from_vec(vec![in alloc; number]?)))
}

/// A U8 of one element.
pub fn u8(alloc: Global, number: u64) -> Result<Item, NoMemory>
    ensures { IfOk result (λ item. view item ≡ U8 number) }
{
    Ok(Item::U8(U64s::from_vec(vec![in alloc; number]?)))
}
