//! What replies tell of jobs, and the rows of jobs (SEMI E40, S16F5, S16F17 and S16F19; SEMI E94, S14F9 and S16F27), by the jobs before
//! the message.
ghost use Rattle.std.specs.Prelude.{◌≡◌, ◌≤◌, None, map, length, option_to_list, IfOk};
ghost use Rattle.process_job.specs.Jobs.{most_jobs};
ghost use Rattle.request_model.specs.Requests.{command_rows, names_error, cancelled};
ghost use Rattle.gem_model.specs.JobMessages.{errors_of, acknowledged, object_acknowledged, listed_job, rows_of_command};

use crate::rows::Rows;
use gem_ids::{Listed, Text80};
use job_requests::{cancelled, command_row};
use message_model::{ErrorPart, JobAcknowledge, JobState, ObjectAcknowledge};
use process_job::{ProcessJob, ProcessJobs};
use request_model::JobError;
use std::alloc::{AllocError, Global};
use tool_jobs::Jobs;
use tool_tasks::JobWord;

// ---- rows

/// The rows of a command on a process job: none for a word that there isn't. Takes no memory.
pub fn command_rows(alloc: Global, job: Text80, word: Option<JobWord>, jobs: &Jobs) -> Rows
    ensures { result ≡ rows_of_command job word jobs.now }
{
    match word {
        Some(word) => job_rows(alloc, job, word, jobs),
        None => Rows::none(alloc),
    }
}

/// The row that a command on the process job of a name fires; none where no such job is kept (SEMI E40, S16F5). Takes no memory.
pub fn job_rows(alloc: Global, job: Text80, word: JobWord, jobs: &Jobs) -> Rows
    ensures { result ≡ command_rows job word jobs.now }
{
    Rows::one(alloc, command_row(job, word, jobs))
}

// ---- what replies tell

/// The names of the process jobs that are cancelled, of which there are at most as many as process jobs are kept.
pub fn few_cancelled(
    alloc: Global,
    names: &[Text80],
    jobs: &Jobs,
) -> Result<Listed<Text80>, AllocError>
    requires { names_error names.now jobs.now ≡ None }
    ensures names { IfOk result (λ jobs_cancelled. jobs_cancelled ≡ cancelled names.now jobs.now) }
    ensures few { IfOk result (λ jobs_cancelled. length jobs_cancelled ≤ most_jobs) }
{
    // The count says that few are kept.
    let _ = jobs.process().len();
    cancelled(alloc, names, jobs)
}

/// The process jobs, as S16F20 lists them.
pub fn listed_jobs(alloc: Global, process: &ProcessJobs) -> Result<Listed<JobState>, AllocError>
    ensures jobs { IfOk result (λ jobs. jobs ≡ map listed_job process.now.kept) }
    ensures few { length process.now.kept ≤ most_jobs }
{
    let mut jobs = Listed::new(alloc);
    for place in 0..process.len() {
        if let Some(job) = process.get(place) {
            jobs.push(listed_job(job))?;
        }
    }
    Ok(jobs)
}

// A process job, as S16F20 lists it.
fn listed_job(job: &ProcessJob) -> JobState
    ensures { result ≡ listed_job job.now }
{
    JobState {
        job: job.id.text(),
        state: job.states.state.number(),
    }
}

/// The errors of a reply: that one, where there is one.
pub fn errors_of(alloc: Global, error: Option<JobError>) -> Result<Listed<ErrorPart>, AllocError>
    ensures errors { IfOk result (λ errors. errors ≡ errors_of error) }
    ensures few { IfOk result (λ errors. length errors ≤ 1) }
{
    let mut errors = Listed::new(alloc);
    if let Some(error) = error {
        errors.push(ErrorPart {
            code: error.code(),
            text: error.text(),
        })?;
    }
    Ok(errors)
}

/// Whether it is done, and else why not.
pub fn acknowledged(alloc: Global, error: Option<JobError>) -> Result<JobAcknowledge, AllocError>
    ensures told { IfOk result (λ told. told ≡ acknowledged error) }
    ensures few { IfOk result (λ told. length told.errors ≤ 1) }
{
    Ok(JobAcknowledge {
        ok: error.is_none(),
        errors: errors_of(alloc, error)?,
    })
}

/// The same of an object that is to be created.
pub fn object_acknowledged(
    alloc: Global,
    error: Option<JobError>,
) -> Result<ObjectAcknowledge, AllocError>
    ensures told { IfOk result (λ told. told ≡ object_acknowledged error) }
    ensures few { IfOk result (λ told. length told.errors ≤ 1) }
{
    Ok(ObjectAcknowledge {
        objack: if error.is_some() { 1 } else { 0 },
        errors: errors_of(alloc, error)?,
    })
}
