//! The modules of the tool and their next commands: the robot, the aligner and the chambers, which command each has, and what
//! the tool has them do next (this tool's profile, table 16).
//!
//! It decides by what it is told of the substrates and of the modules alone, moves no substrate and gives no number to a
//! command: that is for the crates above. Begin with `Modules::new`, and with `Planner::next`, which gives the next move.
#![tactic(auto)]

mod laws;
mod listed;
mod module;
mod modules;
mod planner;
mod targets;
mod view;
mod whereabouts;
mod worked;

pub use laws::{a_command_ends_once, a_module_goes_by_its_table, the_pick_is_the_best};
pub use module::{Module, ModuleState};
pub use modules::Modules;
pub use planner::Planner;
pub use targets::{is_free, is_useful};
pub use view::{Move, PlaceView};
pub use whereabouts::{Picks, Whereabouts};
pub use worked::{
    a_module_begins_with_what_it_holds, a_substrate_goes_on_from_the_arm, a_substrate_is_picked,
    the_fullest_stage_goes_first,
};
