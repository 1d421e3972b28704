//! SECS-II data items after SEMI E5 (data items, item header, item formats), by definitions: the values that messages carry, what an
//! item says, how it is spelled, which item a text is read as, and what an item takes at most where it is sent. Floating numbers,
//! JIS-8 and two-byte characters are no formats here, and lists stand inside one another at most 16 deep. What an item means to a
//! message is left to the crates above.
//!
//! The code that reads and writes the bytes is `secs_items`, which meets these definitions; they stand apart from it, so that what is
//! said of the tool doesn't wait for it. Begin with `Item`.
#![tactic(auto)]

mod cloning;
mod elements;
mod fault;
mod format;
mod item;
mod values;

pub use elements::{Bools, Bytes, Elements, I8s, I16s, I32s, I64s, U8s, U16s, U32s, U64s};
pub use fault::ItemFault;
pub use format::Format;
pub use item::{Item, Items, NoMemory};
