//! Why a process job isn't created.

use thiserror::Error;

/// Why a process job isn't created: a job of its name is kept, the tool has no recipe of the name, its material is none, so many
/// jobs are kept as can be, or there is no memory.
#[derive(Clone, Copy, Debug, Error)]
pub enum JobFault {
    #[error("a process job of this name is kept")]
    NameTaken,
    #[error("there is no recipe of this name")]
    NoRecipe,
    #[error("no carrier is named, or a carrier's name or a slot is none")]
    NoMaterial,
    #[error("{0} process jobs are kept, and no more can be")]
    NoSpace(u32),
    #[error("no memory")]
    NoMemory,
}
