//! Commands on process jobs (SEMI E40, S16F5), which the host and the operator give.

ghost use Rattle.std.specs.Prelude.{◌≡◌, option_to_list};
ghost use Rattle.process_job.specs.Commands.{row_of, command_answer};
ghost use Rattle.request_model.specs.Requests.{command_named, command_error, command_rows};

use crate::names::{process_id, process_named};
use gem_ids::Text80;
use gem_tables::{Firing, Table};
use process_job::ProcessJobs;
use request_model::JobError;
use tool_jobs::Jobs;
use tool_tasks::JobWord;

/// The command of a name: START, which is also called STARTPROCESS, PAUSE, RESUME, STOP, ABORT or CANCEL. `None` for any other name
/// (SEMI E40, S16F5; this tool's profile, messages).
pub fn command_named(name: Text80) -> Option<JobWord>
    ensures { result ≡ command_named name }
{
    let name = name.as_bytes();
    if name == b"START".as_slice() || name == b"STARTPROCESS".as_slice() {
        Some(JobWord::Start)
    } else if name == b"PAUSE".as_slice() {
        Some(JobWord::Pause)
    } else if name == b"RESUME".as_slice() {
        Some(JobWord::Resume)
    } else if name == b"STOP".as_slice() {
        Some(JobWord::Stop)
    } else if name == b"ABORT".as_slice() {
        Some(JobWord::Abort)
    } else if name == b"CANCEL".as_slice() {
        Some(JobWord::Cancel)
    } else {
        None
    }
}

/// Why a command to the process job of a name isn't done, the first of these that fits: `UnknownCommand` where there is no word;
/// `NotNow` in ON-LINE LOCAL, which is false for the operator; `UnknownObject` where no process job of the name is kept; `NotNow`
/// where the command's row doesn't start at its state (SEMI E40, S16F5; this tool's profile, messages). `None` where it is done.
/// Takes no memory.
pub fn command_error(
    local: bool,
    job: Text80,
    word: Option<JobWord>,
    jobs: &Jobs,
) -> Option<JobError>
    ensures { result ≡ command_error local job word jobs.now }
{
    let Some(word) = word else {
        return Some(JobError::UnknownCommand);
    };
    if local {
        return Some(JobError::NotNow);
    }
    match process_answer(job, word, jobs.process()) {
        Ok(_) => None,
        Err(code) => Some(JobError::of_code(code)),
    }
}

// What is answered of a command to the process job of a name as it stands in a message.
pub(crate) fn process_answer(job: Text80, word: JobWord, process: &ProcessJobs) -> Result<u8, u8>
    ensures { result ≡ command_answer job word process.now }
{
    match process_id(process, job) {
        Some(id) => process.command(id, word),
        None => Err(1),
    }
}

/// The firing of a command to the process job of a name: its row of table 14 at this job. It is due where `command_error` has no
/// error; `None` exactly where no process job of the name is kept. Takes no memory.
pub fn command_row(job: Text80, word: JobWord, jobs: &Jobs) -> Option<Firing>
    ensures { option_to_list result ≡ command_rows job word jobs.now }
{
    match process_named(jobs.process(), job) {
        Some(job) => Some(Firing::of(Table::ProcessJob, job.number, row_of(word))),
        None => None,
    }
}

// The row of a command.
fn row_of(word: JobWord) -> u8
    ensures { result ≡ row_of word }
{
    match word {
        JobWord::Start => 5,
        JobWord::Pause => 8,
        JobWord::Resume => 10,
        JobWord::Stop => 11,
        JobWord::Abort => 12,
        JobWord::Cancel => 15,
    }
}
