//! The lines of the command `notes`: what a line says to a durable spool, where a line that says nothing leaves the grammar, and how notes are
//! printed (this tool's profile, durable spool).
//!
//! It holds no spool and reads no source: `notes_top` does. Begin with `specs/Lines.antt`, the lines as the profile prints them,
//! and with `read_spool_line` and `print_note`.
#![tactic(auto)]

mod line;
mod print;
mod read;

pub use line::SpoolLine;
pub use line_grammar::LineFault;
pub use print::print_note;
pub use read::read_spool_line;
