//! What the planner is told of a substrate, and what it answers.

use gem_ids::{LocId, ModuleId, SubstrateId, Text80};
use tool_tasks::Task;

/// What the planner is told of a substrate that has a place: its name and its number of registration; where it is, and its own
/// slot; whether it is aligned, finished, and IN PROCESS; whether it may leave its slot, which is so where its job is
/// PROCESSING; the chambers of the next step of its route, bit c - 1 for chamber c; and the recipe.
#[derive(Clone, Copy)]
pub struct PlaceView {
    pub sub: SubstrateId,
    pub number: u64,
    pub at: LocId,
    pub slot: LocId,
    pub aligned: bool,
    pub finished: bool,
    pub in_process: bool,
    pub may_start: bool,
    pub chambers: u8,
    pub recipe: Text80,
}

/// A move: the module, the row of table 16 that fires at it, 1 to 4, and the task that the module is given.
#[derive(Clone, Copy)]
pub struct Move {
    pub module: ModuleId,
    pub row: u8,
    pub task: Task,
}
