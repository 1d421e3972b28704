ghost use Rattle.std.specs.Prelude.{◌≡◌};
ghost use Rattle.item_model.specs.declared.fault.ItemFault.TheVariants.{NoMemory};

use std::alloc::{AllocError, AllocFailed};
use thiserror::Error;

/// Why bytes give no item. A place is that of a byte, counted from 0. Of several faults the one of the least place is
/// told, and of those at one place the one that stands first here.
#[derive(Clone, Copy, Debug, Error)]
pub enum ItemFault {
    /// The bytes end at this place, and the item does not.
    #[error("the bytes end at {0}, within the item")]
    Truncated(usize),
    /// The format byte at this place announces no length bytes.
    #[error("no length bytes at {0}")]
    BadLengthBytes(usize),
    /// The format byte at this place has a format code that no format has.
    #[error("format code {1} at {0}")]
    BadCode(usize, u8),
    /// The length behind the format byte at this place is no multiple of the element's bytes.
    #[error("a length that does not fit the elements at {0}")]
    BadWidth(usize),
    /// The byte at this place, in an ASCII item, is over 127.
    #[error("a byte over 127 at {0}")]
    BadAscii(usize),
    /// The list at this place stands inside 16 lists.
    #[error("a list inside 16 lists at {0}")]
    TooDeep(usize),
    /// Memory ran out.
    #[error("out of memory")]
    NoMemory,
}

impl From<AllocError> for ItemFault {
    ghost from_gives = { λ _ e. e ≡ NoMemory };

    fn from(_e: AllocError) -> ItemFault {
        ItemFault::NoMemory
    }
}

impl<T: Drop> From<AllocFailed<T>> for ItemFault {
    ghost from_gives = { λ _ e. e ≡ NoMemory };

    fn from(_e: AllocFailed<T>) -> ItemFault {
        ItemFault::NoMemory
    }
}
