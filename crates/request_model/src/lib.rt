//! What the host asks of process jobs and control jobs, why it isn't done, and which rows it fires (SEMI E40, S16F5, S16F11 and
//! S16F17; SEMI E94, S14F9 and S16F27; this tool's profile, messages), by definitions.
//!
//! The code that decides it is `job_requests`, which meets these definitions; they stand apart from it, so that what is said of the
//! tool doesn't wait for it. Begin with `JobError`.
#![tactic(auto)]

mod control;
mod error;
mod queue;

pub use control::ControlRequest;
pub use error::JobError;
pub use queue::QueueAct;
