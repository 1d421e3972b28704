//! How the tool settles, behind each event (this tool's profile, settling).
//!
//! Contracts see a `Plant` as the `State` of the definitions in `gem_model`. Begin with `follow`.
#![tactic(auto)]

mod least;
mod line;
mod settling;

pub use settling::follow;
