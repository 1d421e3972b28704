//! What the program tells of itself.

use crate::words::COMMANDS;
use program_words::{Program, Question, told_text};
use std::alloc::{AllocError, Global};

// What stands below the commands in the usage text.
const MORE: &str = "\
Words:
  CONFIG  a file: the configuration of the tool; that of a transcript is the first one where it is left out
  TABLE   the name of a state model: communication, control, spool_load, spool_unload, notes, transfer, access,
          reservation, association, carrier_id, slot_map, accessing, location, transport, processing, process_job,
          control_job or module

A transcript is what `gem300_tool feed` was given and printed, line by line.

Standard error tells why the program ends. Its status is:
  0  the input was read to its end, and all was written
  1  words at N           the word N, counted from 0, fits no command
  2  config rule N key K  the configuration breaks rule N at key K
  3  read fault           a file or the input could not be read
  4  write fault          standard output took no more
  5  full E B I           the history of a run takes no more
  6  line N at P          line N of the input is none of a transcript, or of a run, from byte P on
  7  no memory

docs/profile/view.md has all of it.";

// The program with its commands.
const VIEW: Program = Program {
    name: "gem300_view",
    about: "Shows what a GEM300 equipment controller was told and said",
    commands: COMMANDS,
    more: MORE,
};

/// The text of `--help`: the commands, what each reads and writes, the statuses, and where the documentation is.
pub fn help_text(alloc: Global) -> Result<String, AllocError> {
    told_text(alloc, &VIEW, Question::Help)
}

/// The text of `--version`: the program's name and version.
pub fn version_text(alloc: Global) -> Result<String, AllocError> {
    told_text(alloc, &VIEW, Question::Version)
}
