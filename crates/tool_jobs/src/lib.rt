//! The jobs of the tool: its process jobs and its control jobs together (after SEMI E40 and SEMI E94; tables 14 and 15), what belongs
//! to what, which of their rows start or are ready by themselves, and what these do to the jobs.
//!
//! It knows of no carrier and no substrate: what the floor shows of them is told to it (`Sight`), and what rows do to them is for
//! the crates above. Begin with `Jobs::new`, then `Jobs::create_process` and `Jobs::create_control`.
#![tactic(auto)]

mod creating;
mod fault;
mod firing;
mod jobs;
mod laws;
mod readiness;
mod sight;

pub use fault::ControlFault;
pub use jobs::Jobs;
pub use laws::{a_ready_row_of_a_job_starts, the_jobs_come_to_rest};
pub use sight::Sight;
