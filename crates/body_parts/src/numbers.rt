//! The elements of an integer item, each an id.

ghost use Rattle.std.specs.Prelude.{◌≡◌, ◌≤◌, ℕ, length, IfOk, Option};
ghost use Rattle.item_model.specs.Ids.{signed_id, unsigned_id};
ghost use Rattle.item_model.specs.View.{view};
ghost use Rattle.message_model.specs.Bodies.{all_ids as all_ids_form, numbers as numbers_form, numbers_or_ids as numbers_or_ids_form};
ghost use Rattle.body_parts.specs.Given.{Gives};

use crate::reading::{few, ids};
use gem_ids::Ids;
use item_model::Item;
use message_model::BodyFault;
use std::alloc::Global;

// A number that may be an id.
pub(crate) trait Number: Copy {
    // The id that it is.
    ghost id_from: { Self → Option ℕ };

    fn id(self) -> Option<u32>
        ensures { result ≡ id_from self };
}

fn signed(number: i64) -> Option<u32>
    ensures { result ≡ signed_id number }
{
    u32::try_from(number).ok()
}

fn unsigned(number: u64) -> Option<u32>
    ensures { result ≡ unsigned_id number }
{
    u32::try_from(number).ok()
}

impl Number for i8 {
    ghost id_from = { signed_id };

    fn id(self) -> Option<u32> {
        signed(i64::from(self))
    }
}

impl Number for i16 {
    ghost id_from = { signed_id };

    fn id(self) -> Option<u32> {
        signed(i64::from(self))
    }
}

impl Number for i32 {
    ghost id_from = { signed_id };

    fn id(self) -> Option<u32> {
        signed(i64::from(self))
    }
}

impl Number for i64 {
    ghost id_from = { signed_id };

    fn id(self) -> Option<u32> {
        signed(self)
    }
}

impl Number for u8 {
    ghost id_from = { unsigned_id };

    fn id(self) -> Option<u32> {
        unsigned(u64::from(self))
    }
}

impl Number for u16 {
    ghost id_from = { unsigned_id };

    fn id(self) -> Option<u32> {
        unsigned(u64::from(self))
    }
}

impl Number for u32 {
    ghost id_from = { unsigned_id };

    fn id(self) -> Option<u32> {
        unsigned(u64::from(self))
    }
}

impl Number for u64 {
    ghost id_from = { unsigned_id };

    fn id(self) -> Option<u32> {
        unsigned(self)
    }
}

// The ids that some numbers are.
fn all_ids<N: Number>(alloc: Global, numbers: &[N]) -> Result<Ids, BodyFault>
    ensures { Gives (λ ids. ids) result (all_ids_form N.id_from numbers.now) }
{
    let mut ids = Ids::new(alloc);
    for number in numbers {
        match number.id() {
            Some(id) => ids.push(id)?,
            None => return Err(BodyFault::IllegalData),
        }
    }
    Ok(ids)
}

// The elements of an integer item.
fn numbers(alloc: Global, item: &Item) -> Result<Ids, BodyFault>
    ensures { Gives (λ ids. ids) result (numbers_form (view item.now)) }
{
    match item {
        Item::I1(numbers) => all_ids(alloc, numbers.as_slice()),
        Item::I2(numbers) => all_ids(alloc, numbers.as_slice()),
        Item::I4(numbers) => all_ids(alloc, numbers.as_slice()),
        Item::I8(numbers) => all_ids(alloc, numbers.as_slice()),
        Item::U1(numbers) => all_ids(alloc, numbers.as_slice()),
        Item::U2(numbers) => all_ids(alloc, numbers.as_slice()),
        Item::U4(numbers) => all_ids(alloc, numbers.as_slice()),
        Item::U8(numbers) => all_ids(alloc, numbers.as_slice()),
        _ => Err(BodyFault::IllegalData),
    }
}

/// The elements of one integer item, or a list of ids: at most 1,024, each an id. `IllegalData` where the item is neither;
/// `NoMemory` may come.
pub fn numbers_or_ids(alloc: Global, item: &Item) -> Result<Ids, BodyFault>
    ensures ids { Gives (λ ids. ids) result (numbers_or_ids_form (view item.now)) }
    ensures few { IfOk result (λ ids. length ids ≤ 1024) }
{
    match item {
        Item::List(_) => ids(alloc, item),
        _ => few(numbers(alloc, item)?),
    }
}
