//! The top calls of the tool that need no thread: each does what one command of the program does, over sources and sinks that are
//! handed in.
//!
//! They do no input or output of their own, and so can be called by any program (this tool's profile, docs/profile). Begin
//! with `feed`: its contract is the promise of the commands `feed` and `batch`. `feed_config` and `batch_config` are the same for a
//! configuration that is at hand. They return how the run ended: `Ended`, with its status and cause, the history, and a note of
//! each session.
#![tactic(auto)]

mod commands;
mod configured;

pub use commands::feed;
pub use configured::{batch_config, feed_config};
pub use line_feeding::{Cause, Ended, Notes, Panels, SessionNote};
