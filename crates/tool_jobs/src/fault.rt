//! Why a control job isn't created.

use thiserror::Error;

/// Why a control job isn't created: one of its name is kept that isn't COMPLETED; it names no process job, or names one twice; one
/// that it names isn't there, or has a control job; so many are kept that aren't COMPLETED as can be; or there is no memory.
#[derive(Clone, Copy, Debug, Error)]
pub enum ControlFault {
    #[error("a control job of this name isn't COMPLETED")]
    NameTaken,
    #[error("no process job is named, or one is named twice")]
    NoJobs,
    #[error("a process job that is named isn't there")]
    NotThere,
    #[error("a process job that is named has a control job")]
    HasControlJob,
    #[error("{0} control jobs aren't COMPLETED, and no more can be")]
    NoSpace(u32),
    #[error("no memory")]
    NoMemory,
}
