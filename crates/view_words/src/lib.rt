//! The words of the program `gem300_view` (this tool's profile, docs/profile/view.md): which words are which command, and at which word
//! those fail that are none; and what `--help` and `--version` print.
//!
//! It opens no file and runs no command. Begin with `asked` of `program_words`, `command_of` and the texts.
#![tactic(auto)]

mod usage;
mod words;

pub use usage::{help_text, version_text};
pub use words::{ViewWords, command_of};
