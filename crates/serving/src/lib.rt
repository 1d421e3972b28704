//! `serve`: the tool over a real link. The host actor, the operator, the clock and the modules run over one core, each on a thread of its
//! own; at the end the log tells what is counted over the history.
//!
//! The crates below have what runs: `tool_crew` runs the actors. Begin with `serve`.
#![tactic(auto)]

mod cause;
mod log;
mod notes;
mod run;

pub use line_feeding::{Cause, Ended};
pub use run::{serve, serve_config};
