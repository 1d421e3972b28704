//! The process jobs of the tool (after SEMI E40, process job states; table 14): what the states of a job are, which jobs there
//! are in the order in which they were created, and what a command to one of them fires.
//!
//! It fires the rows that it is told, and knows of no carrier, substrate or control job: what a row wants of these, and what it
//! does besides the state, is for the crates above. Begin with `ProcessJobs::new`, then `ProcessJobs::create`, which keeps a
//! job and gives it its number, and `ProcessJobs::command`.
#![tactic(auto)]

mod fault;
mod job;
mod jobs;
mod laws;
mod listing;
mod record;

pub use fault::JobFault;
pub use job::{JobSpec, Material, Materials, ProcessJob, Slots};
pub use jobs::{MOST_JOBS, ProcessJobs};
pub use laws::{each_job_has_its_name_and_number, numbers_rise_and_were_given};
pub use record::{JobState, ProcessJobRecord};
