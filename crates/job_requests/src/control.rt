//! Control jobs that are created (SEMI E94, S14F9).

ghost use Rattle.std.specs.Prelude.{◌≡◌, ◌≤◌, List, ℕ, true, false, not, None, IfOk, IsOk, length, codes, is_some, if◌then◌else◌, Some, Bool, option_to_list};
ghost use Rattle.std.specs.Str.{bytes_eq};
ghost use Rattle.control_job.specs.Names.{are_named, is_each_once};
ghost use Rattle.control_job.specs.Jobs.{most_jobs};
ghost use Rattle.process_job.specs.Jobs.{is_known};
ghost use Rattle.tool_jobs.specs.Jobs.{Jobs, owner};
ghost use Rattle.tool_jobs.specs.Creating.{with_control, control_fault, is_any_missing, is_any_owned};
ghost use Rattle.tool_jobs.specs.declared.fault.ControlFault.TheVariants.{NoJobs, NotThere, HasControlJob, NoSpace};
ghost use Rattle.request_model.specs.Errors.{of_control_fault};
ghost use Rattle.request_model.specs.Attributes.{Attribute};
ghost use Rattle.request_model.specs.Requests.{is_job_name, asked_control, request_error, control_error, control_rows};

use crate::attributes::{are_taken, jobs_named, object_named, starts_itself};
use crate::names::{is_job_name, is_there, job_name, process_id};
use crate::once::is_each_once;
use control_job::CtlFault;
use gem_ids::{JobId, Listed, Text80};
use gem_tables::{Firing, Table};
use message_model::NamedValue;
use request_model::{ControlRequest, JobError};
use std::alloc::{AllocError, Global};
use tool_jobs::Jobs;

/// What the attributes ask for. They are taken where each is one that there is, is given once, and has a value of its form where it
/// is read: ObjID, a text; ProcessingCtrlSpec, a list of texts, or of lists of a text and two more items; StartMethod, a BOOL of one
/// element. The name is that of ObjID, empty where it isn't given once or is no text; without StartMethod the job starts by itself.
/// `AllocError` where there is no memory for the names of the process jobs.
pub fn control_request(
    alloc: Global,
    attributes: &[NamedValue],
) -> Result<ControlRequest, AllocError>
    ensures { IfOk result (λ request. request ≡ asked_control attributes.now) }
{
    let jobs = jobs_named(alloc, attributes)?;
    Ok(ControlRequest {
        is_taken: are_taken(attributes),
        name: object_named(attributes),
        jobs,
        auto: starts_itself(attributes),
    })
}

/// Why a control job isn't created of an S14F9 of this type and request, the first of these that fits: `NotNow` in ON-LINE LOCAL;
/// `NotOffered` where the type isn't ControlJob, or the attributes aren't taken; `UnknownObject` where its name hasn't 1 to 64 bytes;
/// `NameTaken` where one of its name is kept that isn't COMPLETED; `NoMaterial` where it names no process job, or one twice;
/// `UnknownObject` where one that it names isn't there; `NotNow` where one has a control job; `NoSpace` where 32 are kept that aren't
/// COMPLETED (SEMI E94, S14F9; this tool's profile, messages). `None` where it is created. `AllocError` comes only of more than 64
/// names, where there is no memory for a copy of them; fewer take none.
pub fn control_error(
    alloc: Global,
    local: bool,
    kind: Text80,
    request: &ControlRequest,
    jobs: &Jobs,
) -> Result<Option<JobError>, AllocError>
    ensures error { IfOk result (λ error. error ≡ request_error local kind request.now jobs.now) }
    ensures message { (attributes : List Attribute) → request.now ≡ asked_control attributes → IfOk result (λ error. error ≡ control_error local kind attributes jobs.now) }
    ensures named { IfOk result (λ error. error ≡ None → is_job_name request.now.name ≡ true) }
    ensures there { IfOk result (λ error. error ≡ None → is_any_missing request.now.jobs jobs.now ≡ false) }
    ensures few { length request.now.jobs ≤ 64 → IsOk result }
{
    if local {
        return Ok(Some(JobError::NotNow));
    }
    if !is_control_job(kind) || !request.is_taken {
        return Ok(Some(JobError::NotOffered));
    }
    if !is_job_name(request.name) {
        return Ok(Some(JobError::UnknownObject));
    }
    let names = request.jobs.as_slice();
    let once = is_each_once(alloc, names)?;
    Ok(creation_error(job_name(request.name), names, once, jobs))
}

// Whether the type of an object is that of a control job.
fn is_control_job(kind: Text80) -> bool
    ensures { result ≡ bytes_eq kind (codes "ControlJob") }
{
    kind.as_bytes() == b"ControlJob".as_slice()
}

// Why one isn't created of a name that is one, where it is known whether each process job is named once.
fn creation_error(id: JobId, names: &[Text80], once: bool, jobs: &Jobs) -> Option<JobError>
    requires { once ≡ is_each_once names.now }
    ensures error { result ≡ of_control_fault (control_fault id names.now jobs.now) }
    ensures there { result ≡ None → is_any_missing names.now jobs.now ≡ false }
{
    // With one process job only the control job's own name and the room decide.
    match jobs.control().create_fault(id, &[id]) {
        Some(CtlFault::NameTaken) => Some(JobError::NameTaken),
        fault => named_error(names, once, jobs, fault.is_some()),
    }
}

// Why one isn't created whose name is free.
fn named_error(names: &[Text80], once: bool, jobs: &Jobs, full: bool) -> Option<JobError>
    requires { once ≡ is_each_once names.now }
    ensures error { result ≡ of_control_fault (if not (are_named names.now) then Some NoJobs else (if is_any_missing names.now jobs.now then Some NotThere else (if is_any_owned names.now jobs.now then Some HasControlJob else (if full then Some (NoSpace most_jobs) else None)))) }
    ensures there { result ≡ None → is_any_missing names.now jobs.now ≡ false }
{
    if names.is_empty() || !once {
        Some(JobError::NoMaterial)
    } else if is_any_missing(names, jobs) {
        Some(JobError::UnknownObject)
    } else if is_any_owned(names, jobs) {
        Some(JobError::NotNow)
    } else if full {
        Some(JobError::NoSpace)
    } else {
        None
    }
}

// Whether one of these process jobs isn't kept.
fn is_any_missing(names: &[Text80], jobs: &Jobs) -> bool
    ensures { result ≡ is_any_missing names.now jobs.now }
{
    for name in names {
        if !is_there(jobs.process(), *name) {
            return true;
        }
    }
    false
}

// Whether one of these process jobs, which are kept, has a control job.
fn is_any_owned(names: &[Text80], jobs: &Jobs) -> bool
    requires { is_any_missing names.now jobs.now ≡ false }
    ensures { result ≡ is_any_owned names.now jobs.now }
{
    for name in names {
        if is_owned(*name, jobs) {
            return true;
        }
    }
    false
}

// Whether a process job that is kept has a control job.
fn is_owned(name: Text80, jobs: &Jobs) -> bool
    ensures { is_known name jobs.now.process.kept ≡ true → result ≡ is_some (owner name jobs.now) }
{
    match process_id(jobs.process(), name) {
        Some(id) => jobs.owner(id).is_some(),
        None => false,
    }
}

/// The names of the process jobs of a request, to create it with where `control_error` has no error; the name of the control job
/// itself is told by `job_name`. `AllocError` where there is no memory for them.
pub fn control_names(
    alloc: Global,
    names: &[Text80],
    jobs: &Jobs,
) -> Result<Listed<JobId>, AllocError>
    requires { is_any_missing names.now jobs.now ≡ false }
    ensures { IfOk result (λ ids. ids ≡ names.now) }
{
    let mut ids = Listed::new(alloc);
    for name in names {
        if let Some(id) = process_id(jobs.process(), *name) {
            ids.push(id)?;
        }
    }
    Ok(ids)
}

/// The firing of the control job that was created last: row 1 of table 15. `None` where none is kept, which is never so behind a
/// creation. Takes no memory.
pub fn control_row(jobs: &Jobs) -> Option<Firing>
    ensures { (w : Jobs) (name : List ℕ) (named : List (List ℕ)) (auto : Bool) → jobs.now ≡ with_control name named auto w → option_to_list result ≡ control_rows w }
{
    let control = jobs.control();
    match control.at(control.len().saturating_sub(1)) {
        Some(job) => Some(Firing::of(Table::ControlJob, job.number, 1)),
        None => None,
    }
}
