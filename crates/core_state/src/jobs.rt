//! The process jobs and the control jobs, as the host and the operator see them and create them (SEMI E40 and SEMI E94; tables 14 and
//! 15).
ghost use Rattle.std.specs.Prelude.{◌≡◌, is_some, None, OnOk};
ghost use Rattle.process_job.specs.Creating.{create_fault};
ghost use Rattle.control_job.specs.Jobs.{waiting_named, headed};
ghost use Rattle.tool_jobs.specs.Creating.{with_process, with_control, control_fault};
ghost use Rattle.gem_model.specs.JobMessages.{jobs_of, with_jobs_now};

use crate::plant::Plant;
use gem_ids::JobId;
use process_job::JobSpec;
use std::alloc::{AllocError, Global};
use tool_jobs::Jobs;

impl Plant {
    /// The process jobs and the control jobs.
    pub fn jobs(&self) -> &Jobs
        ensures { result.now ≡ jobs_of self.now }
    {
        self.floor.floor().jobs()
    }

    /// Creates a process job that can be created (SEMI E40, S16F11). Its row of creation is for the caller.
    pub fn create_process(&mut self, job: JobSpec) -> Result<(), AllocError>
        requires { create_fault job (jobs_of self.old).process ≡ None }
        ensures { OnOk result (self.new ≡ with_jobs_now (with_process job (jobs_of self.old)) self.old) }
    {
        match self.floor.create_process(job) {
            Ok(()) => Ok(()),
            Err(_) => Err(AllocError),
        }
    }

    /// Creates a control job that can be created, of these process jobs (SEMI E94, S14F9). Its row of creation is for the caller.
    pub fn create_control(
        &mut self,
        alloc: Global,
        id: JobId,
        jobs: &[JobId],
        auto: bool,
    ) -> Result<(), AllocError>
        requires { control_fault id jobs.now (jobs_of self.old) ≡ None }
        ensures { OnOk result (self.new ≡ with_jobs_now (with_control id jobs.now auto (jobs_of self.old)) self.old) }
    {
        match self.floor.create_control(alloc, id, jobs, auto) {
            Ok(()) => Ok(()),
            Err(_) => Err(AllocError),
        }
    }

    /// The QUEUED control job of a name goes first in the queue (SEMI E94, S16F27). False exactly where there is none, and nothing changes.
    pub fn head_of_queue(&mut self, id: JobId) -> bool
        ensures queued { result ≡ is_some (waiting_named id (jobs_of self.old).control.jobs) }
        ensures headed { self.new ≡ with_jobs_now (record (jobs_of self.old) { control = headed id (jobs_of self.old).control }) self.old }
    {
        self.floor.head_of_queue(id)
    }
}
