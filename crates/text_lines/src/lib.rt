//! The lines of a text, each of which ends with a line feed: where the first line ends, and the bytes of a line that come in parts.
//!
//! It reads no source, counts no lines and knows nothing of what a line says. Begin with `first_line`, and with `join_line` where a line
//! may come in several pieces.
#![tactic(auto)]

mod ends;
mod joining;

pub use ends::{first_line, line_end};
pub use joining::{JoinFault, join_line};
