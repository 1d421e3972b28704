//! How jobs are created (this tool's profile, S14F9 and S16F11).

ghost use Rattle.std.specs.Prelude.{◌≡◌, if◌then◌else◌, is_some, Some, None, Err, IfOk, IfErr};
ghost use Rattle.process_job.specs.Jobs.{is_known};
ghost use Rattle.process_job.specs.Creating.{create_fault as process_fault};
ghost use Rattle.process_job.specs.declared.fault.JobFault.{JobFault};
ghost use Rattle.process_job.specs.declared.fault.JobFault.TheVariants as process_faults;
ghost use Rattle.control_job.specs.Jobs.{most_jobs};
ghost use Rattle.tool_jobs.specs.Creating.{with_process, with_control, is_any_missing, is_any_owned, control_fault};
ghost use Rattle.tool_jobs.specs.declared.fault.ControlFault.{ControlFault};
ghost use Rattle.tool_jobs.specs.declared.fault.ControlFault.TheVariants.{NotThere, HasControlJob, NoSpace, NoMemory};

use crate::fault::ControlFault;
use crate::jobs::Jobs;
use control_job::{CtlFault, MOST_JOBS};
use gem_ids::JobId;
use process_job::{JobFault, JobSpec};
use std::alloc::Global;

impl Jobs {
    /// Creates a process job (SEMI E40, S16F11): it is QUEUED, behind the others, with the next number of creation, and in no control
    /// job. `NameTaken` comes exactly where one of its name is kept; else `NoRecipe` exactly where its recipe is none of the tool's;
    /// else `NoMaterial` exactly where it names no carrier, or a carrier by a name of no or over 64 bytes, or a slot outside 1 to 25;
    /// else `NoSpace(64)` exactly where 64 are kept. `NoMemory` comes for want of memory, and where the last number of a `u64` was
    /// given. Any fault changes nothing.
    pub fn create_process(&mut self, job: JobSpec) -> Result<(), JobFault>
        ensures created { IfOk result (λ _. self.new ≡ with_process job self.old) }
        ensures unchanged { IfErr result (λ _. self.new ≡ self.old) }
        ensures refused { (fault : JobFault) → process_fault job self.old.process ≡ Some fault → result ≡ Err fault }
        ensures memory { process_fault job self.old.process ≡ None → IfErr result (λ fault. fault ≡ process_faults.NoMemory) }
    {
        self.process.create(job)
    }

    /// Creates a control job (SEMI E94, S14F9) of these process jobs, which are left in it in this order; it starts by itself or by
    /// hand. It is QUEUED, the last in the queue's order, with the next number of creation. A COMPLETED one of its name, else where 32
    /// are kept the oldest that is COMPLETED, is kept no more. `NameTaken` comes exactly where one of the name is kept that isn't
    /// COMPLETED; else `NoJobs` exactly where no process job is named, or one is named twice; else `NotThere` exactly where one of
    /// them isn't kept; else `HasControlJob` exactly where one of them belongs to a control job; else `NoSpace(32)` exactly where 32
    /// are kept that aren't COMPLETED. `NoMemory` comes for want of memory, and where the last number of a `u64` was given. Any
    /// fault changes nothing.
    pub fn create_control(
        &mut self,
        alloc: Global,
        id: JobId,
        jobs: &[JobId],
        auto: bool,
    ) -> Result<(), ControlFault>
        ensures created { IfOk result (λ _. self.new ≡ with_control id jobs.now auto self.old) }
        ensures unchanged { IfErr result (λ _. self.new ≡ self.old) }
        ensures refused { (fault : ControlFault) → control_fault id jobs.now self.old ≡ Some fault → result ≡ Err fault }
        ensures memory { control_fault id jobs.now self.old ≡ None → IfErr result (λ fault. fault ≡ NoMemory) }
    {
        match self.control_fault(id, jobs) {
            Some(fault) => Err(fault),
            None => self.add_control(alloc, id, jobs, auto),
        }
    }

    /// Why a control job can't be created, whatever memory there is; `create_control` tells more. `None` exactly where it can be.
    /// Nothing changes.
    pub fn control_fault(&self, id: JobId, jobs: &[JobId]) -> Option<ControlFault>
        ensures { result ≡ control_fault id jobs.now self.now }
    {
        match self.control.create_fault(id, jobs) {
            Some(CtlFault::NameTaken) => Some(ControlFault::NameTaken),
            Some(CtlFault::NoJobs) => Some(ControlFault::NoJobs),
            fault => self.fault_of_named(jobs, fault),
        }
    }

    // Why one can't be whose name is free, and which names process jobs, each once.
    fn fault_of_named(&self, jobs: &[JobId], fault: Option<CtlFault>) -> Option<ControlFault>
        ensures { result ≡ (if is_any_missing jobs.now self.now then Some NotThere else (if is_any_owned jobs.now self.now then Some HasControlJob else (if is_some fault then Some (NoSpace most_jobs) else None))) }
    {
        if self.is_any_missing(jobs) {
            Some(ControlFault::NotThere)
        } else if self.is_any_owned(jobs) {
            Some(ControlFault::HasControlJob)
        } else if fault.is_some() {
            Some(ControlFault::NoSpace(MOST_JOBS as u32))
        } else {
            None
        }
    }

    // Whether one of these process jobs isn't kept.
    fn is_any_missing(&self, jobs: &[JobId]) -> bool
        ensures { result ≡ is_any_missing jobs.now self.now }
    {
        for job in jobs {
            if !self.is_there(*job) {
                return true;
            }
        }
        false
    }

    // Whether a process job is kept.
    fn is_there(&self, job: JobId) -> bool
        ensures { result ≡ is_known job self.now.process.kept }
    {
        self.process.find(job).is_some()
    }

    // Whether one of these process jobs has a control job.
    fn is_any_owned(&self, jobs: &[JobId]) -> bool
        ensures { result ≡ is_any_owned jobs.now self.now }
    {
        for job in jobs {
            if self.control.owner(*job).is_some() {
                return true;
            }
        }
        false
    }

    // Creates a control job that can be created.
    fn add_control(
        &mut self,
        alloc: Global,
        id: JobId,
        jobs: &[JobId],
        auto: bool,
    ) -> Result<(), ControlFault>
        requires { control_fault id jobs.now self.old ≡ None }
        ensures created { IfOk result (λ _. self.new ≡ with_control id jobs.now auto self.old) }
        ensures unchanged { IfErr result (λ _. self.new ≡ self.old) }
        ensures memory { IfErr result (λ fault. fault ≡ NoMemory) }
    {
        match self.control.create(alloc, id, jobs, auto) {
            Ok(()) => Ok(()),
            Err(_) => Err(ControlFault::NoMemory),
        }
    }
}
