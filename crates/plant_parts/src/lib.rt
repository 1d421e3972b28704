//! Parts of the plant that are made without it: the frames and texts that the tool sends, the states in which it begins, and
//! the rows that inputs list. What its variables show is in `plant_values`, beside it.
//!
//! Each call gives one thing of what it is handed, and changes nothing. Memory may run out in each call that is handed an allocator;
//! it answers `AllocError` then. Begin with `frames` for what is sent, and with `firsts` for how the tool begins.
#![tactic(auto)]

mod firsts;
mod frames;
mod listed;
mod notes;
mod settings;

pub use firsts::{first_comm, first_constants, first_control, first_kinds, first_switch};
pub use frames::{
    data_frame, data_header, header_frame, identity_text, part, reply_text, shop_text,
    stream9_text, text_of_reply,
};
pub use listed::{at_ports, by_comm, mode_row, note_fails, unload_row};
pub use notes::{alcd, message_of, text_of, text_of_alarm};
pub use settings::settings_of;
