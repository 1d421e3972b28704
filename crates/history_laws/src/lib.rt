//! What holds of each history that is recorded: the one record of its facts, `Recorded` (`specs/Recorded.antt`), which the public
//! calls have as a clause; and the laws of histories that speak of places, commands and jobs (after SEMI E90, E40 and E94; this
//! tool's profile, tables 4 to 16).
//!
//! It has no code but a trait, `Recorder`: what keeps a history of which all this holds, as the core does. What is written for any
//! needs no core. The definitions of state, step and run are in gem_model, on which the core stands without waiting for these
//! proofs; what holds of the floor at every moment is in place_laws, and that each row keeps it in floor_laws.
#![tactic(auto)]

pub mod laws;
mod recorder;

pub use recorder::Recorder;
