//! Why a substrate isn't registered.

use gem_ids::SubstrateId;
use thiserror::Error;

/// Why a substrate isn't registered: another is at the place, its name is that of one that has a place, so many have a place
/// as can, or there is no memory.
#[derive(Clone, Copy, Debug, Error)]
pub enum PlaceFault {
    #[error("a substrate is there")]
    Taken(SubstrateId),
    #[error("a substrate of this name has a place")]
    NameTaken,
    #[error("{0} substrates have a place, and no more can")]
    NoSpace(u32),
    #[error("no memory")]
    NoMemory,
}
