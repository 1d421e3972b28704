//! A text that is one item.

ghost use Rattle.std.specs.Prelude.{◌≡◌, IfOk, IfSome, option_map};
ghost use Rattle.item_model.specs.One.{one_item};
ghost use Rattle.item_model.specs.Sendable.{IsSendable};
ghost use Rattle.item_model.specs.View.{view};

use crate::reading::decode;
use item_model::{Item, ItemFault, NoMemory};
use std::alloc::{AllocError, Global};

/// The item that a text is from its first byte to its last (SEMI E5, message text). None exactly where the text is not
/// one item: it is empty, no item stands at its front, or bytes stand behind the item. What is read can be sent again.
pub fn read_one(alloc: Global, bytes: &[u8]) -> Result<Option<Item>, NoMemory>
    ensures exact { IfOk result (λ found. option_map view found ≡ one_item bytes.now) }
    ensures sendable { IfOk result (λ found. IfSome found (λ item. IsSendable (view item))) }
{
    match decode(alloc, bytes) {
        Ok((item, used)) => {
            if used == bytes.len() {
                Ok(Some(item))
            } else {
                Ok(None)
            }
        }
        Err(fault) => match fault {
            ItemFault::NoMemory => Err(AllocError),
            _ => Ok(None),
        },
    }
}
