//! Copies of items, written out since a derived one would say nothing of a type that leads back to itself.

ghost use Rattle.std.specs.Prelude.{◌≡◌, IfOk};
ghost use Rattle.item_model.specs.View.{view, items_of};

use crate::item::{Item, Items, NoMemory};
use std::alloc::{AllocError, Global};

impl Clone for Item {
    ghost is_clone = { λ x y. view y ≡ view x };

    fn clone(&self) -> Result<Item, AllocError> {
        copy(self)
    }
}

impl Clone for Items {
    ghost is_clone = { λ x y. y ≡ x };

    fn clone(&self) -> Result<Items, AllocError> {
        copy_all(self.allocator(), self.as_slice())
    }
}

#[cycle(copy)]
fn copy(item: &Item) -> Result<Item, NoMemory>
    ensures { IfOk result (λ x. view x ≡ view item.now) }
{
    Ok(match item {
        Item::List(items) => Item::List(copy_all(items.allocator(), items.as_slice())?),
        Item::Binary(bytes) => Item::Binary(bytes.clone()?),
        Item::Bool(truths) => Item::Bool(truths.clone()?),
        Item::Ascii(bytes) => Item::Ascii(bytes.clone()?),
        Item::I1(numbers) => Item::I1(numbers.clone()?),
        Item::I2(numbers) => Item::I2(numbers.clone()?),
        Item::I4(numbers) => Item::I4(numbers.clone()?),
        Item::I8(numbers) => Item::I8(numbers.clone()?),
        Item::U1(numbers) => Item::U1(numbers.clone()?),
        Item::U2(numbers) => Item::U2(numbers.clone()?),
        Item::U4(numbers) => Item::U4(numbers.clone()?),
        Item::U8(numbers) => Item::U8(numbers.clone()?),
    })
}

#[cycle(copy)]
fn copy_all(alloc: Global, items: &[Item]) -> Result<Items, NoMemory>
    ensures { IfOk result (λ copies. copies ≡ items_of items.now) }
{
    let mut copies = Items::new(alloc);
    for item in items {
        copies.push(copy(item)?)?;
    }
    Ok(copies)
}
