//! What a single item says: a number or a text.

ghost use Rattle.std.specs.Prelude.{◌≡◌, ◌≢◌, ℕ, List, IfSome, IfNone};
ghost use Rattle.gem_ids.specs.Texts.{IsText};
ghost use Rattle.item_model.specs.Data.{ascii};
ghost use Rattle.item_model.specs.Ids.{id_of, only as only_of, signed_id as signed_id_of, unsigned_id as unsigned_id_of};
ghost use Rattle.item_model.specs.View.{view};

use crate::item::Item;
use gem_ids::Text80;

impl Item {
    /// The number of an id (this tool's profile, items): an integer item, signed or unsigned, of one element from 0 to
    /// 4,294,967,295. None exactly where it is no such item. Takes no memory.
    pub fn as_id(&self) -> Option<u32>
        ensures { result ≡ id_of (view self.now) }
    {
        match self {
            Item::I1(numbers) => signed_id(i64::from(only(numbers.as_slice())?)),
            Item::I2(numbers) => signed_id(i64::from(only(numbers.as_slice())?)),
            Item::I4(numbers) => signed_id(i64::from(only(numbers.as_slice())?)),
            Item::I8(numbers) => signed_id(only(numbers.as_slice())?),
            Item::U1(numbers) => unsigned_id(u64::from(only(numbers.as_slice())?)),
            Item::U2(numbers) => unsigned_id(u64::from(only(numbers.as_slice())?)),
            Item::U4(numbers) => unsigned_id(u64::from(only(numbers.as_slice())?)),
            Item::U8(numbers) => unsigned_id(only(numbers.as_slice())?),
            _ => None,
        }
    }

    /// The text of an ASCII item that `Text80::read` takes: at most 80 bytes, each 32 to 126. None exactly where it is no
    /// such item. Takes no memory.
    pub fn as_text(&self) -> Option<Text80>
        ensures text { IfSome result (λ t. view self.now ≡ ascii t) }
        ensures none { IfNone result ((t : List ℕ) → IsText t → view self.now ≢ ascii t) }
    {
        match self {
            Item::Ascii(bytes) => Text80::read(bytes.as_slice()).ok(),
            _ => None,
        }
    }
}

// The element of a slice of one.
fn only<T: Copy>(elements: &[T]) -> Option<T>
    ensures { result ≡ only_of elements.now }
{
    match elements {
        [element] => Some(*element),
        _ => None,
    }
}

fn signed_id(number: i64) -> Option<u32>
    ensures { result ≡ signed_id_of number }
{
    u32::try_from(number).ok()
}

fn unsigned_id(number: u64) -> Option<u32>
    ensures { result ≡ unsigned_id_of number }
{
    u32::try_from(number).ok()
}
