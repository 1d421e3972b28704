//! What rows of the floor of the tool do to that floor by numbers (after SEMI E87 and E90; this tool's profile, carriers, substrates and
//! moves): what the laws of the moves have.
//!
//! It has no code. `place_laws` has the floor by numbers; `floor_laws` takes these laws.
#![tactic(auto)]

pub mod laws;
