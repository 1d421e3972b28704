//! The control jobs of the tool (after SEMI E94, control job states; table 15): those that are kept, in the order in which
//! they were created, with the process jobs of each, and the order of the queue.
//!
//! It fires the rows that it is told, and knows of a process job no more than its name: what a row wants of process jobs and
//! material is for the crates above. Begin with `ControlJobs::new`, then `ControlJobs::create`.
#![tactic(auto)]

mod command;
mod fault;
mod job;
mod jobs;
mod laws;
mod names;
mod record;

pub use command::CtlAct;
pub use fault::CtlFault;
pub use job::ControlJob;
pub use jobs::{ControlJobs, MOST_JOBS};
pub use laws::{
    the_most_jobs_are_those_of_the_profile, the_names_are_apart, the_queue_has_each_job_once,
};
pub use names::JobNames;
pub use record::{ControlJobRecord, ControlState, Ending};
