//! Why a run of the program ended: each cause with its status, and with the text that standard error has of it (this tool's profile, statuses).
//!
//! It says nothing of what a run does: the definitions of each command say when it ends by which cause. Begin with `Cause`.
#![tactic(auto)]

mod cause;

pub use cause::Cause;
