//! What the host asks of process jobs and control jobs, why it isn't done, and which rows it fires (SEMI E40, S16F5, S16F11 and
//! S16F17; SEMI E94, S14F9 and S16F27; this tool's profile, messages). The operator's commands on jobs are the same, but for
//! ON-LINE LOCAL.
//!
//! It knows no state of the tool but the jobs, and whether it is ON-LINE LOCAL, and but for `make_head` changes nothing: a
//! caller asks for the error of a message, answers it, and where there is none lets the jobs create what is asked for or fires the
//! rows. Only what builds a list takes memory, and `control_error` of more than 64 names. Begin with `command_named` and `command_error`.
#![tactic(auto)]

mod attributes;
mod cancelling;
mod command;
mod control;
mod names;
mod once;
mod process;
mod queue;

pub use cancelling::{cancel_error, cancel_rows, cancelled};
pub use command::{command_error, command_named, command_row};
pub use control::{control_error, control_names, control_request, control_row};
pub use names::{control_id, job_name};
pub use process::{process_error, process_row, process_spec};
pub use queue::{control_command, control_command_error, make_head};
pub use request_model::{ControlRequest, JobError, QueueAct};
