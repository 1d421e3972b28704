//! The process jobs and the control jobs.

ghost use Rattle.std.specs.Prelude.{◌≡◌, IfOk};
ghost use Rattle.std.specs.Option.{option_copied};
ghost use Rattle.process_job.specs.Jobs.{job_numbered as process_numbered};
ghost use Rattle.control_job.specs.Jobs.{job_numbered as control_numbered};
ghost use Rattle.tool_jobs.specs.Jobs.{no_jobs, owner, first_left_in, process_name, control_name};
ghost use Rattle.tool_jobs.specs.Together.{AreTogether};

use control_job::{ControlJob, ControlJobs};
use gem_ids::{JobId, Text80};
use process_job::{ProcessJob, ProcessJobs};
use std::alloc::{AllocError, Global};
use std::marker::Model;
use tool_tasks::Recipe;

/// The process jobs and the control jobs of the tool, which contracts see as both. A process job that is left in a control job is
/// kept, and belongs to no other; one control job is active at most. Only `new` and the calls that create take memory.
pub struct Jobs {
    pub(crate) process: ProcessJobs,
    pub(crate) control: ControlJobs,
}

// Written out, so that it is one call wherever all of them is dropped.
impl Drop for Jobs {
    fn drop(self) {
        let Jobs {
            process: _process,
            control: _control,
        } = self;
    }
}

impl Model for Jobs {
    ghost use Rattle.tool_jobs.specs.Jobs.{Jobs};
    ghost use Rattle.tool_jobs.specs.Together.{AreTogether};

    ghost Value = { Jobs };

    ghost view = { λ k. record { process = k.process; control = k.control } };

    ghost invariant = { λ k. AreTogether (record { process = k.process; control = k.control }) };
}

impl Jobs {
    /// No job, of a tool with these recipes. Takes room for 64 process jobs and 32 control jobs. `AllocError` where there is
    /// none.
    pub fn new(alloc: Global, recipes: &[Recipe]) -> Result<Jobs, AllocError>
        ensures { IfOk result (λ jobs. jobs ≡ no_jobs recipes.now) }
    {
        let Ok(process) = ProcessJobs::new(alloc, recipes) else {
            return Err(AllocError);
        };
        let control = ControlJobs::new(alloc)?;
        Ok(Jobs { process, control })
    }

    // ---- what they say

    /// The process jobs.
    pub fn process(&self) -> &ProcessJobs
        ensures jobs { result.now ≡ self.now.process }
        ensures together { AreTogether self.now }
    {
        &self.process
    }

    /// The control jobs.
    pub fn control(&self) -> &ControlJobs
        ensures { result.now ≡ self.now.control }
    {
        &self.control
    }

    /// The control job, not COMPLETED, that a process job belongs to. `None` exactly where it belongs to none.
    pub fn owner(&self, job: JobId) -> Option<&ControlJob>
        ensures { option_copied result ≡ owner job self.now }
    {
        match self.control.owner(job) {
            Some(number) => self.control.get(number),
            None => None,
        }
    }

    /// The first process job that is left in the control job of a number, by the order in which it named them. `None` exactly where
    /// there is no such control job, or none is left in it.
    pub fn first_left(&self, control: u64) -> Option<&ProcessJob>
        ensures { option_copied result ≡ first_left_in control self.now }
    {
        let Some(job) = self.control.get(control) else {
            return None;
        };
        match job.left.as_slice().first() {
            Some(name) => self.process.find(*name),
            None => None,
        }
    }

    /// The name of the process job of a number, empty where there is none (this tool's profile, object names).
    pub fn process_name(&self, number: u64) -> Text80
        ensures { result ≡ process_name (process_numbered number self.now.process.kept) }
    {
        match self.process.numbered(number) {
            Some(job) => job.id.text(),
            None => Text80::empty(),
        }
    }

    /// The name of the control job of a number, empty where there is none (this tool's profile, object names).
    pub fn control_name(&self, number: u64) -> Text80
        ensures { result ≡ control_name (control_numbered number self.now.control.jobs) }
    {
        match self.control.get(number) {
            Some(job) => job.name.text(),
            None => Text80::empty(),
        }
    }
}
