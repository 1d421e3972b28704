//! Why lines are taken no further.
ghost use Rattle.std.specs.Prelude.{◌≡◌};
ghost use Rattle.notes_top.specs.Stops.{stop_of, stopped, cause_of};

use nv_spool::NvFault;
use run_causes::Cause;

/// Why no more lines are taken.
#[derive(Clone, Copy)]
pub enum Stop {
    /// A write failed, or took nothing of a piece.
    Write,
    /// There was no memory.
    NoMemory,
    /// A line is refused at this byte, counted from 0.
    Line(u64),
    /// The disk failed.
    Disk,
    /// The bytes of the disk from this place on are no durable spool.
    Unread(u64),
}

/// Why a fault of the spool stops the lines. None of them follows a fault of the disk.
pub(crate) fn stop_of(fault: NvFault) -> Stop
    ensures { result ≡ stop_of fault }
{
    match fault {
        NvFault::Disk | NvFault::Closed => Stop::Disk,
        NvFault::Unread(place) => Stop::Unread(place),
        NvFault::NoMemory => Stop::NoMemory,
    }
}

/// Whether an answer of the spool stops the lines.
pub(crate) fn stopped<T: Drop>(answer: Result<T, NvFault>) -> Result<(), Stop>
    ensures { result ≡ stopped answer }
{
    match answer {
        Ok(_) => Ok(()),
        Err(fault) => Err(stop_of(fault)),
    }
}

/// Why a run ends that stops in the line of this number.
pub(crate) fn cause_of(stop: Stop, number: u64) -> Cause
    ensures { result ≡ cause_of stop number }
{
    match stop {
        Stop::Write => Cause::WriteFault,
        Stop::NoMemory => Cause::NoMemory,
        Stop::Line(place) => Cause::Line(number, place),
        Stop::Disk => Cause::Disk,
        Stop::Unread(place) => Cause::Unread(place),
    }
}
