//! Reading a line part by part: what is left of it, and what its next part is read as. Each call does one step of what `line_grammar` computes
//! of a line, and tells the place at which the line leaves the grammar, in bytes of the whole line.
//!
//! It knows no line: the readers of the tool's lines stand in `tool_texts`. Begin with `Cursor::new`; `says` reads words that are
//! always the same, and `either` joins two readings.
#![tactic(auto)]

mod choice;
mod cursor;
mod kind;

pub use choice::{either, either_copied, says};
pub use cursor::Cursor;
