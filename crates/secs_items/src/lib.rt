//! SECS-II data items after SEMI E5 (data items, item header, item formats), from bytes and to bytes, as `item_model` defines
//! them. Every spelling is read, with 1, 2 or 3 length bytes, and one is written, the shortest. Bytes that spell no item
//! are told by the fault of the least place. Floating numbers, JIS-8 and two-byte characters are no formats here, and lists
//! stand inside one another at most 16 deep. What an item means to a message is left to the crates above. Begin with
//! `decode`, which reads an item, `read_one`, which reads a text that is one item, and `encode`, which appends one.
#![tactic(auto)]

mod element;
mod laws;
mod one;
mod reading;
mod writing;

pub use item_model::{
    Bools, Bytes, Elements, I8s, I16s, I32s, I64s, Item, ItemFault, Items, NoMemory, U8s, U16s,
    U32s, U64s,
};
pub use laws::{
    a_fault_stands_behind_open_bytes, a_list_of_bounded_items_is_bounded,
    an_item_takes_at_most_what_it_weighs, bytes_spell_or_have_a_fault, no_spelling_begins_another,
    one_item_is_the_item_that_is_spelled, what_is_sent_spells_the_item,
    what_is_spelled_can_be_sent,
};
pub use one::read_one;
pub use reading::decode;
pub use writing::encode;
