//! Names of jobs as they stand in messages, and the jobs that have them.

ghost use Rattle.std.specs.Prelude.{◌≡◌, true, option_map};
ghost use Rattle.std.specs.Option.{option_copied};
ghost use Rattle.std.specs.Str.{bytes_eq};
ghost use Rattle.process_job.specs.Jobs.{job_named as process_named, is_known};
ghost use Rattle.control_job.specs.Jobs.{job_named as control_named};
ghost use Rattle.request_model.specs.Requests.{is_job_name};

use control_job::{ControlJob, ControlJobs};
use gem_ids::{JobId, Text80};
use process_job::{ProcessJob, ProcessJobs};

// Whether a text is the name of a job.
pub(crate) fn is_job_name(name: Text80) -> bool
    ensures { result ≡ is_job_name name }
{
    1 <= name.len() && name.len() <= 64
}

/// The name of a job that is asked for, which has 1 to 64 bytes where there is no error.
pub fn job_name(name: Text80) -> JobId
    requires { is_job_name name ≡ true }
    ensures { result ≡ name }
{
    JobId::read(name).unwrap()
}

// Whether the name of a job is of these bytes.
fn is_same(id: JobId, name: Text80) -> bool
    ensures { result ≡ bytes_eq id name }
{
    id.as_bytes() == name.as_bytes()
}

// The process job of a name, by its own name. `None` exactly where none of the name is kept.
pub(crate) fn process_id(process: &ProcessJobs, name: Text80) -> Option<JobId>
    ensures { result ≡ option_map (λ j. j.id) (process_named name process.now.kept) }
{
    for place in 0..process.len() {
        if let Some(job) = process.get(place) {
            if is_same(job.id, name) {
                return Some(job.id);
            }
        }
    }
    None
}

// Whether a process job of a name is kept.
pub(crate) fn is_there(process: &ProcessJobs, name: Text80) -> bool
    ensures { result ≡ is_known name process.now.kept }
{
    process_id(process, name).is_some()
}

// The process job of a name. `None` exactly where none of the name is kept.
pub(crate) fn process_named(process: &ProcessJobs, name: Text80) -> Option<&ProcessJob>
    ensures { option_copied result ≡ process_named name process.now.kept }
{
    match process_id(process, name) {
        Some(id) => process.find(id),
        None => None,
    }
}

/// The control job of a name as it stands in a message, by its own name. `None` exactly where none of the name is kept.
pub fn control_id(control: &ControlJobs, name: Text80) -> Option<JobId>
    ensures { result ≡ option_map (λ j. j.name) (control_named name control.now.jobs) }
{
    for place in 0..control.len() {
        if let Some(job) = control.at(place) {
            if is_same(job.name, name) {
                return Some(job.name);
            }
        }
    }
    None
}

// The control job of a name. `None` exactly where none of the name is kept.
pub(crate) fn control_named(control: &ControlJobs, name: Text80) -> Option<&ControlJob>
    ensures { option_copied result ≡ control_named name control.now.jobs }
{
    match control_id(control, name) {
        Some(id) => control.find(id),
        None => None,
    }
}
