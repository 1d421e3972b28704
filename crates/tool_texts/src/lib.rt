//! The readers of input lines and the printer of output lines (this tool's profile, input lines, operator words, refused
//! lines and output lines). What a line means is defined in `line_grammar`.
//!
//! It reads one line at a time, without its line feed, and knows nothing of the tool that the line is meant for: whether a
//! command is accepted, or a port exists, is settled above. Begin with `read_feed_line` for the input of `feed`, with
//! `read_script_line` for a script, with `read_line` for any line, and with `print_out_line` for what goes out.
#![tactic(auto)]

mod operator;
mod print;
mod read;
mod signal;

pub use line_grammar::{Line, LineFault, OutLine};
pub use print::print_out_line;
pub use read::{
    LINE_BYTES, read_feed_line, read_host_line, read_line, read_operator, read_script_line,
};
