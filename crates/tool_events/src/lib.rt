//! What happens to the tool, what it answers, and how both are recorded.
//!
//! These are the types that the core and the lines share; nothing here decides anything. Begin with `Event`,
//! and with `Answer`, what it is answered. A `Desk` takes events one at a time. `Config` is what a configuration says. What
//! modules are told to do, and recipes, are in `tool_tasks`, below.
#![tactic(auto)]

mod answer;
mod config;
mod desk;
mod entry;
mod event;
mod worked;

pub use answer::{Answer, PostFault};
pub use config::{CommStart, Config, ControlStart, SpoolStreams};
pub use desk::Desk;
pub use entry::{Entry, Post};
pub use event::{Event, OperCmd, SessionCause, SessionEnd, Signal, TEXT_BYTES};
pub use worked::a_tool_can_use_a_recipe;
