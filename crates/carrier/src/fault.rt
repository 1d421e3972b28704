//! Why a carrier isn't created.

use thiserror::Error;

/// Why a carrier isn't created: its name is known, so many are known as can be, or there is no memory.
#[derive(Clone, Copy, Debug, Error)]
pub enum CarrierFault {
    #[error("a carrier of this name is known")]
    NameTaken,
    #[error("{0} carriers are known, and no more can be")]
    NoSpace(u32),
    #[error("no memory")]
    NoMemory,
}
