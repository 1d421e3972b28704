//! The words of the program's command (this tool's profile, the program's words): which words are which command, and at which word
//! those fail that are none; and what `--help` and `--version` print.
//!
//! It opens no file and runs no command. Begin with `asked` and `command_of`. What another program has in common with it is here
//! too: the reading of words by their places, and the usage text, which is made of a table of commands (`told_text`).
#![tactic(auto)]

mod number;
mod reading;
mod told;
mod usage;
mod words;

pub use reading::{file_behind, is_file, split_word};
pub use told::{Program, Row, told_text};
pub use usage::{Question, asked, help_text, version_text};
pub use words::{Words, WordsFault, command_of};
