//! Process jobs that are taken out of the queue (SEMI E40, S16F17).

ghost use Rattle.std.specs.Prelude.{◌≡◌, ◌++◌, ◌∷◌, [], if◌then◌else◌, IfOk, map, filter, option_to_list};
ghost use Rattle.std.specs.Str.{bytes_eq};
ghost use Rattle.control_job.specs.Names.{is_in};
ghost use Rattle.process_job.specs.Commands.{command_answer};
ghost use Rattle.tool_tasks.specs.declared.words.JobWord.TheVariants.{Cancel};
ghost use Rattle.request_model.specs.Errors.{of_answer};
ghost use Rattle.request_model.specs.Requests.{is_queued, names_error, cancel_error, each_once, cancelled, cancel_rows};

use crate::command::{command_row, process_answer};
use gem_ids::{Listed, Text80};
use gem_tables::Firing;
use process_job::{ProcessJob, ProcessJobs};
use request_model::JobError;
use std::alloc::{AllocError, Global};
use tool_jobs::Jobs;
use tool_tasks::JobWord;

/// Why the process jobs of these names aren't taken out of the queue: `NotNow` in ON-LINE LOCAL; else the first name decides of which
/// no process job is kept, `UnknownObject`, or whose job isn't QUEUED, `NotNow` (SEMI E40, S16F17; this tool's profile, messages).
/// `None` where they are. Takes no memory.
pub fn cancel_error(local: bool, names: &[Text80], jobs: &Jobs) -> Option<JobError>
    ensures { result ≡ cancel_error local names.now jobs.now }
{
    if local {
        return Some(JobError::NotNow);
    }
    names_error(names, jobs)
}

// The error of the first of these names that has one.
fn names_error(names: &[Text80], jobs: &Jobs) -> Option<JobError>
    ensures { result ≡ names_error names.now jobs.now }
{
    for name in names {
        if let Some(error) = name_error(*name, jobs) {
            return Some(error);
        }
    }
    None
}

// The error of a name.
fn name_error(name: Text80, jobs: &Jobs) -> Option<JobError>
    ensures { result ≡ of_answer (command_answer name Cancel jobs.now.process) }
{
    match process_answer(name, JobWord::Cancel, jobs.process()) {
        Ok(_) => None,
        Err(code) => Some(JobError::of_code(code)),
    }
}

/// The names of the process jobs that are taken out of the queue, where `cancel_error` has no error: those that are named, each once
/// and where it is first given, or where none is named those of all that are QUEUED, in the order of creation. `AllocError` where
/// there is no memory for them.
pub fn cancelled(alloc: Global, names: &[Text80], jobs: &Jobs) -> Result<Listed<Text80>, AllocError>
    ensures { IfOk result (λ cancelled_names. cancelled_names ≡ cancelled names.now jobs.now) }
{
    if names.is_empty() {
        queued(alloc, jobs.process())
    } else {
        each_once(alloc, names)
    }
}

// The names of the process jobs that are QUEUED.
fn queued(alloc: Global, process: &ProcessJobs) -> Result<Listed<Text80>, AllocError>
    ensures { IfOk result (λ names. names ≡ map (λ j. j.id) (filter is_queued process.now.kept)) }
{
    let mut names = Listed::new(alloc);
    for place in 0..process.len() {
        if let Some(job) = process.get(place) {
            push_queued(&mut names, job)?;
        }
    }
    Ok(names)
}

// The name of a process job comes behind these, where the job is QUEUED.
fn push_queued(names: &mut Listed<Text80>, job: &ProcessJob) -> Result<(), AllocError>
    ensures { IfOk result (λ _. names.new ≡ (if is_queued job.now then names.old ++ job.now.id ∷ [] else names.old)) }
{
    if is_queued(job) {
        names.push(job.id.text())
    } else {
        Ok(())
    }
}

// Whether CANCEL can be done at a process job.
fn is_queued(job: &ProcessJob) -> bool
    ensures { result ≡ is_queued job.now }
{
    job.states.starts(15)
}

// These names, each where it is first given.
fn each_once(alloc: Global, names: &[Text80]) -> Result<Listed<Text80>, AllocError>
    ensures { IfOk result (λ once. once ≡ each_once names.now) }
{
    let mut once = Listed::new(alloc);
    for name in names {
        push_new(&mut once, *name)?;
    }
    Ok(once)
}

// A name comes behind these, where it isn't among them.
fn push_new(names: &mut Listed<Text80>, name: Text80) -> Result<(), AllocError>
    ensures { IfOk result (λ _. names.new ≡ (if is_in name names.old then names.old else names.old ++ name ∷ [])) }
{
    if is_in(names.as_slice(), name) {
        Ok(())
    } else {
        names.push(name)
    }
}

// Whether a name is among these.
pub(crate) fn is_in(names: &[Text80], name: Text80) -> bool
    ensures { result ≡ is_in name names.now }
{
    names.iter().any(|one| one.as_bytes() == name.as_bytes())
}

/// The firings of the process jobs of these names, of which `cancelled` tells them: row 15 of table 14 at each, in this order.
/// `AllocError` where there is no memory for them.
pub fn cancel_rows(
    alloc: Global,
    names: &[Text80],
    jobs: &Jobs,
) -> Result<Listed<Firing>, AllocError>
    ensures { IfOk result (λ rows. rows ≡ cancel_rows names.now jobs.now) }
{
    let mut rows = Listed::new(alloc);
    for name in names {
        push_some(&mut rows, command_row(*name, JobWord::Cancel, jobs))?;
    }
    Ok(rows)
}

// A firing, where there is one, comes behind these.
fn push_some(rows: &mut Listed<Firing>, row: Option<Firing>) -> Result<(), AllocError>
    ensures { IfOk result (λ _. rows.new ≡ rows.old ++ option_to_list row) }
{
    match row {
        Some(row) => rows.push(row),
        None => Ok(()),
    }
}
