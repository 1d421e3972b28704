//! The states of communication and of control, after SEMI E30 (communication and control state models), by tables 1 and
//! 2 of this tool's profile.
//!
//! They are plain data and take no memory. They send nothing, ask no clock, and know neither the link nor the
//! transactions: a caller gives an input's trigger to `row_for`, which names the direct row, and fires it by `fire`. The
//! rows that fire by themselves are found by the caller, who knows their conditions, and fired in the same way.
#![tactic(auto)]

mod communication;
mod control;

pub use communication::{Comm, CommTrigger};
pub use control::{Control, ControlTrigger};
