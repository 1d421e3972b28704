//! The simulated equipment: modules that answer their commands by a plan, and what a batch feeds the tool (this tool's profile,
//! batch).
//!
//! It knows nothing of the tool's records and of the core, and posts nothing: that is for the crates above. Begin with
//! `SimModule::new`, with `lot_line`, which writes the lines of a carrier, and with `draw`, by whose numbers it is chosen which
//! module is done next.
#![tactic(auto)]

mod asked;
mod drawing;
mod lot;
mod sim_module;
mod worked;

pub use drawing::draw;
pub use lot::lot_line;
pub use sim_module::SimModule;
pub use worked::{a_module_fails_at_the_acts_of_its_plan, numbers_are_drawn_from_the_seed};
