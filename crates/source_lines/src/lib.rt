//! The lines of a source, one after the other: bytes are read in pieces, and a line is given once its line feed has come, whatever the pieces.
//!
//! It knows nothing of what a line says. Begin with `SourceLines::new` and `next_line`.
#![tactic(auto)]

mod lines;
mod no_line;

pub use lines::SourceLines;
pub use no_line::NoLine;
