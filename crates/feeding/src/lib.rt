//! The lines of the command `feed`, under a configuration that is at hand: lines of an input are read, and the lines of what happens
//! are written.
//!
//! It does no input or output of its own, and so can be called by any program (this tool's profile, docs/profile/lines.md). Begin with
//! `feed_over`, which returns how the run ended: `Ended`, with its status and cause, the history, and a note of each session.
//! `session_notes` makes these notes, a note for each session that came to a core, with the bytes that came in it and those that went out,
//! and why it ended (this tool's profile, sessions), where one caller drives the run. What keeps the history is any `Recorder`.
#![tactic(auto)]

mod feeder;
mod feeding;
mod input;
mod messages;
mod notes;
mod printer;
mod reader;

pub use feeding::feed_over;
pub use notes::session_notes;
