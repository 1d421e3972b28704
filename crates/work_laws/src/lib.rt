//! A command is always open while work is left on the floor of the tool (after SEMI E40 and SEMI E90; this tool's profile, table 14
//! and moves); and what the tool has for its process jobs, its modules and recipes, stays whatever happens.
//!
//! It has no code. What holds of the floor at every moment is in place_laws, `specs/Sound.antt`; the law by numbers is in
//! floor_moves.
#![tactic(auto)]

pub mod laws;
