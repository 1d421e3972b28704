//! Parts of bodies of messages (SEMI E5, item formats; this tool's profile, messages), for the crates that have the
//! bodies of some streams: a reader and a writer of each part, by the words of `message_model` that a body is printed with.
//! Which message has which body is left to those crates, and so is what it means. Begin with the readers of `reading`, as
//! `id` and `list_of`, and the writers of `writing`, as `code` and `list`.
#![tactic(auto)]

mod message_parts;
mod numbers;
pub mod reading;
pub mod writing;

pub use message_model::{BodyFault, NamedValue};
pub use numbers::numbers_or_ids;
