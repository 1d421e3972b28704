//! The floor of the tool, by definitions and laws: its load ports and carriers (after SEMI E87; tables 4 to 10), its substrates with
//! their places (after SEMI E90; tables 11 to 13), its process jobs and control jobs (after SEMI E40 and SEMI E94; tables 14 and 15),
//! and its modules with their commands (table 16): which rows are ready by themselves, what each does, and what the host and the
//! equipment do to them.
//!
//! The code that keeps such a floor is `tool_floor`, which meets these definitions; they and their laws stand apart from it, so that
//! what is said of the tool doesn't wait for it. Begin with `Substrate` and `laws`.
#![tactic(auto)]

pub mod laws;
mod parts;
mod tracked;

pub use parts::FloorParts;
pub use tracked::Substrate;
