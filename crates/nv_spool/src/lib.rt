//! A spool that outlives the power (this tool's profile, durable spool): the notes stand on a disk, and each change of them is on it when the
//! call is answered Ok. A crash at any moment, within a call or between two, leaves the notes from before the change in work or those
//! behind it.
//!
//! A change is a push, a put back of a note to its place by number, or a take of the oldest. It is appended as a record: all that stands
//! behind its gate is written and made sure of, then the gate. Where the half has no room, the notes are first written into the other half,
//! one push for each, and when they are on the disk, the selector names that half.
//!
//! What is on the disk says `spool_format`. After a fault of the disk a spool answers `Closed`; open the disk again. Begin with
//! `NvSpool::format` for a new disk, and with `NvSpool::open`.
#![tactic(auto)]

mod appending;
mod formatting;
mod halves;
mod nv_spool;
mod putting;
mod running;

pub use nv_spool::NvSpool;
pub use spool_format::{Change, NvFault};
