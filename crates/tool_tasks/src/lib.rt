//! What the modules of a tool are told to do, and by which recipes; and what the operator tells a process job.
//!
//! These are the types that the records of the floor and of the jobs share with the events of the tool; nothing here decides
//! anything. Begin with `Task`, and with `Recipes`, of which a configuration has a list.
#![tactic(auto)]

mod chambers;
mod recipes;
mod routes;
mod task;
mod words;
mod worked;

pub use chambers::{RecipeChambers, has_chamber};
pub use recipes::{Recipe, Recipes};
pub use routes::Route;
pub use task::{Command, Task};
pub use words::JobWord;
pub use worked::{a_route_rises, a_set_has_chambers, a_step_has_a_number};
