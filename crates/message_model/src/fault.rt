ghost use Rattle.std.specs.Prelude.{◌≡◌};
ghost use Rattle.message_model.specs.declared.fault.BodyFault.TheVariants.{NoMemory};

use std::alloc::{AllocError, AllocFailed};
use thiserror::Error;

/// Why a message is not read. Of several faults the one that stands first here is told.
#[derive(Clone, Copy, Debug, Error)]
pub enum BodyFault {
    /// None of the messages that are read has the stream.
    #[error("unknown stream")]
    UnknownStream,
    /// None of those of the stream has the function.
    #[error("unknown function")]
    UnknownFunction,
    /// The text is not one item of the printed body.
    #[error("illegal data")]
    IllegalData,
    /// Memory ran out.
    #[error("out of memory")]
    NoMemory,
}

impl From<AllocError> for BodyFault {
    ghost from_gives = { λ _ e. e ≡ NoMemory };

    fn from(_e: AllocError) -> BodyFault {
        BodyFault::NoMemory
    }
}

impl<T: Drop> From<AllocFailed<T>> for BodyFault {
    ghost from_gives = { λ _ e. e ≡ NoMemory };

    fn from(_e: AllocFailed<T>) -> BodyFault {
        BodyFault::NoMemory
    }
}
