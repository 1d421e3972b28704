//! The floor of the tool: its load ports and carriers (after SEMI E87; tables 4 to 10), its substrates with their places (after SEMI
//! E90; tables 11 to 13), its process jobs and control jobs (after SEMI E40 and SEMI E94; tables 14 and 15), and its modules with
//! their commands (table 16): the rows that are ready by themselves, what each does, and what the host and the equipment do to them.
//!
//! It is kept as `floor_model` defines it. It makes no notes and sends nothing: its caller fires the rows that it tells, and tells of them. Begin with
//! `ToolFloor::new`, then `ToolFloor::least` and `ToolFloor::fire`.
#![tactic(auto)]

mod asking;
mod changing;
mod floor;
mod jobs;
mod members;
mod moving;
mod naming;
mod opening;
mod picking;
mod planning;
mod readiness;
mod registering;
mod resting;
mod rows;
mod telling;
mod tracking;
mod whereabouts;

pub use floor::ToolFloor;
pub use resting::RestingFloor;
