//! The input and output lines of the tool: what a line says, where a line that says nothing leaves the grammar, and how an
//! output line is printed (this tool's profile, input lines and output lines).
//!
//! It has the types and the definitions, and reads and prints nothing: the readers and the printer stand in `tool_texts`.
//! Begin with `specs/Lines.antt`, the lines as they are printed in the profile, and `specs/Grammar.antt`, what they mean.
//! `specs/Reading.antt` computes what a line says, and `laws` proves that this is exactly what the grammar says.
#![tactic(auto)]

mod kind;
pub mod laws;
mod line;
mod out_line;
pub mod worked;

pub use kind::WordKind;
pub use line::{Line, LineFault};
pub use out_line::OutLine;
