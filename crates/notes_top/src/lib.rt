//! The command `notes FILE`: lines change the notes of a durable spool, and print them (this tool's profile, durable spool). `notes` does it over
//! a disk, a source and a sink that are handed in, and `notes_top` does what the words say.
//!
//! What the lines are stands in `notes_lines`, and the spool in `nv_spool`. Begin with `notes_top`, and with `specs/Stages.antt`, which
//! says what each line does.
#![tactic(auto)]

mod command;
mod kept;
mod listing;
mod running;
mod stop;
mod taking;

pub use command::notes_top;
pub use run_causes::Cause;
pub use running::notes;
