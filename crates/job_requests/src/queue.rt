//! Commands on control jobs (SEMI E94, S16F27), which the host and the operator give.

ghost use Rattle.std.specs.Prelude.{◌≡◌, is_some};
ghost use Rattle.control_job.specs.Jobs.{job_named as control_named, waiting_named, headed};
ghost use Rattle.control_job.specs.Commands.{command_answer};
ghost use Rattle.request_model.specs.Acts.{act_after, act_rows, row_at};
ghost use Rattle.request_model.specs.Requests.{is_control_command, control_command_error, control_after, control_command_rows};

use crate::names::{control_id, control_named};
use control_job::{ControlJobs, CtlAct};
use gem_ids::Text80;
use gem_tables::{Firing, Table};
use request_model::{JobError, QueueAct};
use tool_jobs::Jobs;

/// Why a command on the control job of a name isn't done, the first of these that fits: `UnknownCommand` where it isn't 1 to 8;
/// `NotNow` in ON-LINE LOCAL, which is false for the operator; `UnknownObject` where no control job of the name is kept; `NotNow`
/// where it can't be done at the job's states (SEMI E94, S16F27; this tool's profile, messages). `None` where it is done. Takes no
/// memory.
pub fn control_command_error(local: bool, job: Text80, cmd: u8, jobs: &Jobs) -> Option<JobError>
    ensures { result ≡ control_command_error local job cmd jobs.now }
{
    if !is_control_command(cmd) {
        return Some(JobError::UnknownCommand);
    }
    if local {
        return Some(JobError::NotNow);
    }
    match control_answer(job, cmd, jobs.control()) {
        Ok(_) => None,
        Err(code) => Some(JobError::of_code(code)),
    }
}

// Whether a command is one of 1 to 8.
fn is_control_command(cmd: u8) -> bool
    ensures { result ≡ is_control_command cmd }
{
    1 <= cmd && cmd <= 8
}

// What is answered of a command to the control job of a name as it stands in a message.
fn control_answer(job: Text80, cmd: u8, control: &ControlJobs) -> Result<CtlAct, u8>
    ensures { result ≡ command_answer job cmd control.now.jobs }
{
    match control_id(control, job) {
        Some(id) => control.command(id, cmd),
        None => Err(if is_control_command(cmd) { 1 } else { 7 }),
    }
}

/// What a command on the control job of a name does, by the states before it; nothing where `control_command_error` has an error but
/// for ON-LINE LOCAL. Takes no memory.
pub fn control_command(job: Text80, cmd: u8, jobs: &Jobs) -> Option<QueueAct>
    ensures rows { act_rows result ≡ control_command_rows job (command_answer job cmd jobs.now.control.jobs) jobs.now }
    ensures after { act_after job result jobs.now ≡ control_after job (command_answer job cmd jobs.now.control.jobs) jobs.now }
{
    let control = jobs.control();
    match control_answer(job, cmd, control) {
        Ok(CtlAct::Row(row)) => row_at(job, row, control),
        Ok(CtlAct::Head) => Some(QueueAct::Heads),
        Err(_) => None,
    }
}

// A row at the control job of a name.
fn row_at(job: Text80, row: u8, control: &ControlJobs) -> Option<QueueAct>
    ensures { result ≡ row_at row (control_named job control.now.jobs) }
{
    match control_named(control, job) {
        Some(job) => Some(QueueAct::Fires(Firing::of(Table::ControlJob, job.number, row))),
        None => None,
    }
}

/// Makes the QUEUED control job of a name the head of the queue; the others keep their order. False exactly where no QUEUED control
/// job has the name, and then nothing changes (SEMI E94, S16F27). Takes no memory.
pub fn make_head(job: Text80, jobs: &mut Jobs) -> bool
    ensures queued { result ≡ is_some (waiting_named job jobs.old.control.jobs) }
    ensures process { jobs.new.process ≡ jobs.old.process }
    ensures control { jobs.new.control ≡ headed job jobs.old.control }
{
    match control_id(jobs.control(), job) {
        Some(id) => jobs.head_of_queue(id),
        None => false,
    }
}
