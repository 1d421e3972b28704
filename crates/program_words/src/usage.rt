//! What the program tells of itself.
ghost use Rattle.std.specs.Prelude.{◌≡◌};
ghost use Rattle.program_words.specs.Questions.{question_asked, question_of};

use crate::told::{Program, told_text};
use crate::words::COMMANDS;
use gem_ids::Text80;
use std::alloc::{AllocError, Global};

/// What words may ask for beside a command.
#[derive(Clone, Copy)]
pub enum Question {
    /// `--help`: how the program is called.
    Help,
    /// `--version`: its name and version.
    Version,
}

fn question_of(word: &Text80) -> Option<Question>
    ensures { result ≡ question_of word.now }
{
    if word.as_bytes() == b"--help".as_slice() {
        Some(Question::Help)
    } else if word.as_bytes() == b"--version".as_slice() {
        Some(Question::Version)
    } else {
        None
    }
}

/// What the words ask for: `--help` or `--version`, which stand alone. The text goes to standard output, with status 0. Such words
/// are no command.
pub fn asked(words: &[Text80]) -> Option<Question>
    ensures { result ≡ question_asked words.now }
{
    match words {
        [word] => question_of(word),
        _ => None,
    }
}

// What stands below the commands in the usage text.
const MORE: &str = "\
Words:
  CONFIG    a file: a configuration, a table of TOML of at most 65,536 bytes
  SEED      a number from 0 to 18446744073709551615
  CARRIERS  a number from 1 to 10000
  FILE      a file: a durable spool, or what is to be one

Standard error tells why the program ends. Its status is:
  0  the input was read to its end, or `quit` came, and all was written
  1  words at N              the word N, counted from 0, fits no command
  2  config rule N key K     the configuration breaks rule N at key K
  3  read fault              a file or the input could not be read
  4  write fault             standard output took no more
  5  full E B I              the history is full: entries, bytes, bytes of input
  6  line N at P             line N of the input is none from byte P on
  7  no memory
  8  door fault              the door failed, or closed before the run ended
  10 disk fault              the file of a durable spool could not be read, written or synced
  11 unread at P             that file is no durable spool from byte P on

docs/profile has all of it: words.md, configuration.md, lines.md, serve.md, batch.md, durable_spool.md.";

// The program with its commands.
const TOOL: Program = Program {
    name: "gem300_tool",
    about: "A GEM300 equipment controller, after SEMI E5, E30, E37, E87, E90, E40 and E94",
    commands: COMMANDS,
    more: MORE,
};

/// The text of `--help`: the commands, what each reads and writes, the statuses, and where the documentation is.
pub fn help_text(alloc: Global) -> Result<String, AllocError> {
    told_text(alloc, &TOOL, Question::Help)
}

/// The text of `--version`: the program's name and version.
pub fn version_text(alloc: Global) -> Result<String, AllocError> {
    told_text(alloc, &TOOL, Question::Version)
}
