//! The Dones that are owed to a control job, as laws (after SEMI E40, E90 and E94; this tool's profile, moves and control jobs):
//! how many are still to come for the substrates that are counted, by the route that is planned for each; what leaves as many, and
//! what takes one off.
//!
//! It has no code, and stands on the floor by numbers of `floor_moves`, with what process jobs say as it is told there. Begin with
//! `specs/Owed.antt` and `specs/Undisturbed.antt`, then `laws`.
#![tactic(auto)]

pub mod laws;
