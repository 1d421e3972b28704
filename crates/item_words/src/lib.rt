//! Items in words, in the notation of docs/profile and of the conversations of tests: `L[U4 1, A CAR01, B 0D]` (this tool's profile,
//! items in words). `specs/Words.antt` says the words of an item, and `specs/Layout.antt` how they are laid out where they are longer
//! than a line.
//!
//! It reads no words: the tests have a reader, `conversation_files`, which follows the standard and not this crate. Begin with `words`
//! and `laid_words`.
#![tactic(auto)]

mod element;
mod layout;
mod line;
mod text;

pub use layout::{LINE_WIDTH, laid_words};
pub use line::words;
