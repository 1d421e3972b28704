//! What the tool is at a moment, the rows that its tables fire, and the messages that it sends.
//!
//! It holds the link of the session with T6, T7 and the tool's linktest (SEMI E37), the states of communication and of
//! control with the tool's transactions and T3 (SEMI E30), the constants, the reports and the alarms (SEMI E5), the line of notes with
//! the spool (SEMI E30), the floor of the tool, which is load ports, carriers, substrates, modules, process jobs and control jobs
//! (SEMI E87, E90, E40, E94), and the frames that wait for the writer. It takes no events
//! and keeps no history, which is for `tool_core`: each call here is one change that an event may make. How the tool settles behind
//! such changes is for `core_settling`. It reads no clock, no file and no link. Contracts see a `Plant` as the `State` of the definitions in `gem_model`.
//!
//! What its variables show is told by `plant_values`, of what `Plant::seen` gives, and what the host asks of its data by `host_messages`.
//!
//! Memory may run out in each call that is handed an allocator; it answers `AllocError` then, and nothing is said of
//! the plant after that. Begin with `Plant::open`.
#![tactic(auto)]

mod direct;
mod firing;
mod floor;
mod host_data;
mod jobs;
mod link;
mod modules;
mod notes;
mod noting;
mod open_transactions;
mod opening;
mod plant;
mod rows;
mod sending;

pub use noting::RowFiring;
pub use plant::Plant;
