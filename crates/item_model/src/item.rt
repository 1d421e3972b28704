ghost use Rattle.std.specs.Prelude.{◌≡◌, OnOk, OnErr};
ghost use Rattle.item_model.specs.Data.{no_items, added, first_items};
ghost use Rattle.item_model.specs.Plain.{count_of};
ghost use Rattle.item_model.specs.View.{view, items_of};

use crate::elements::{Bools, Bytes, I8s, I16s, I32s, I64s, U8s, U16s, U32s, U64s};
use std::alloc::{AllocError, Global};
use std::marker::Model;

/// Memory ran out.
pub type NoMemory = AllocError;

/// One data item of a message (SEMI E5, data items): a list of items, or elements of one kind. Contracts speak of what it
/// says, without where it lies in memory.
#[cycle(item)]
pub enum Item {
    /// L, format code 00 in octal: items, which may be lists.
    List(Items),
    /// B, format code 10: bytes.
    Binary(Bytes),
    /// BOOLEAN, format code 11.
    Bool(Bools),
    /// A, format code 20: characters, which are 0 to 127 where the item is sent or was read.
    Ascii(Bytes),
    /// I1, format code 31: signed numbers of one byte.
    I1(I8s),
    /// I2, format code 32: signed numbers of two bytes.
    I2(I16s),
    /// I4, format code 34: signed numbers of four bytes.
    I4(I32s),
    /// I8, format code 30: signed numbers of eight bytes.
    I8(I64s),
    /// U1, format code 51: unsigned numbers of one byte.
    U1(U8s),
    /// U2, format code 52: unsigned numbers of two bytes.
    U2(U16s),
    /// U4, format code 54: unsigned numbers of four bytes.
    U4(U32s),
    /// U8, format code 50: unsigned numbers of eight bytes.
    U8(U64s),
}

// Written out, so that it is one call wherever an item is dropped.
impl Drop for Item {
    fn drop(self) {
        match self {
            Item::List(_items) => {}
            Item::Binary(_elements) | Item::Ascii(_elements) => {}
            Item::Bool(_elements) => {}
            Item::I1(_elements) => {}
            Item::I2(_elements) => {}
            Item::I4(_elements) => {}
            Item::I8(_elements) => {}
            Item::U1(_elements) => {}
            Item::U2(_elements) => {}
            Item::U4(_elements) => {}
            Item::U8(_elements) => {}
        }
    }
}

/// The items of a list. Contracts see what they say, one after another.
#[cycle(item)]
#[derive(Drop)]
pub struct Items {
    items: Vec<Item>,
}

impl Model for Items {
    ghost use Rattle.item_model.specs.Data.{DataList};
    ghost use Rattle.item_model.specs.Stored.{items_code};

    ghost Value = { DataList };

    ghost coded = { items_code };

    ghost use Rattle.item_model.specs.View.{items_of};

    ghost view = { λ i. items_of i.items.items };

    ghost use Rattle.item_model.specs.Height.{highest};

    ghost size = { highest };

    ghost use Rattle.item_model.specs.Falls.{most-highest};

    ghost size_decreases = { λ i h. most-highest i.items.items };
}

impl Items {
    /// No items. Takes no memory.
    pub fn new(alloc: Global) -> Items
        ensures { result ≡ no_items }
    {
        Items {
            items: Vec::new(alloc),
        }
    }

    /// Adds an item at the end. After `NoMemory` the list has the items that it had.
    pub fn push(&mut self, item: Item) -> Result<(), NoMemory>
        ensures ok { OnOk result (self.new ≡ added self.old (view item)) }
        ensures no_memory { OnErr result (self.new ≡ self.old) }
    {
        self.items.push(item)?;
        Ok(())
    }

    /// How many items the list has.
    pub fn len(&self) -> usize
        ensures { result ≡ count_of self.now }
    {
        self.items.len()
    }

    /// Keeps so many items from the first on and drops those behind them; all stay where there are no more. Takes no memory.
    pub fn truncate(&mut self, count: usize)
        ensures { self.new ≡ first_items count self.old }
    {
        self.items.truncate(count);
    }

    /// The items of a vector. Takes no memory.
    pub fn from_vec(items: Vec<Item>) -> Items
        ensures { result ≡ items_of items.items }
    {
        Items { items }
    }

    /// Gives the vector back. Takes no memory.
    pub fn into_vec(self) -> Vec<Item>
        ensures { items_of result.items ≡ self }
    {
        let Items { items } = self;
        items
    }

    // The allocator of the list.
    pub(crate) fn allocator(&self) -> Global {
        *self.items.allocator()
    }

    /// The items as a slice.
    pub fn as_slice(&self) -> &[Item]
        ensures { items_of result.now ≡ self.now }
    {
        self.items.as_slice()
    }
}
