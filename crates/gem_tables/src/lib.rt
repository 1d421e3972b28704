//! The words that all transition tables of the tool share, and rows and firings as code hands them about. No state of the tool
//! stands here, and of the tables their names alone: each stands with the record of its states. Begin with `specs/Table.antt`, rows
//! as tables print them, and `specs/Machine.antt`, tables at work.
//!
//! # Theory of operation
//!
//! A table numbers its states and its rows. A row starts in some of the states, and leads to one.
//!
//! Rows are of two kinds. A direct row is fired by an input: the input has a list of direct rows, which are fired in
//! the list's order, and one that doesn't start at the state then reached is left out. An automatic row fires by
//! itself, wherever its table's state and its condition hold; it is then called ready.
//!
//! After an input's direct rows the automatic rows fire, one at a time, until none is ready. Of several that are ready
//! the least fires first: the one of the table with the least number, in it that of the first object, and of that
//! object the row with the least number. Then all are looked at anew, since a firing can make others ready, or stop
//! them. That this ends is shown by a number that falls with each firing.
//!
//! A firing names a row and an object. A row may create objects: their rows fire straight behind it, whatever fired it.
//!
//! | tables | states of |
//! |---|---|
//! | 1, 2 | communication with the host, and control: `gem_states` |
//! | 3 | the line of notes and the spool, which moves notes and not a state alone: `note_line` and `spool` |
//! | 4 to 7 | load ports: `load_port` |
//! | 8 to 10 | carriers: `carrier` |
#![tactic(auto)]

mod firing;
mod table;

pub use firing::{Firing, RowId};
pub use table::Table;
