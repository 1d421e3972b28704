//! The jobs on the floor of the tool: what it shows of a process job, which of their rows start and are ready, and what these do (this
//! tool's profile, tables 14 and 15 and settling).

ghost use Rattle.std.specs.Prelude.{◌≡◌, ◌∷◌, [], true, false, length, map, option_map, is_some, slice_get, ◌||◌, Some, None, Err, IfOk, IfErr};
ghost use Rattle.std.specs.List.{list_any};
ghost use Rattle.gem_tables.specs.Table.{is_one_of};
ghost use Rattle.gem_tables.specs.Machine.{first_ready, ready_in};
ghost use Rattle.process_job.specs.Jobs.{job_numbered as process_numbered, AreJobs as AreProcessJobs};
ghost use Rattle.process_job.specs.Creating.{create_fault as process_fault};
ghost use Rattle.process_job.specs.declared.fault.JobFault.{JobFault};
ghost use Rattle.process_job.specs.declared.fault.JobFault.TheVariants as process_faults;
ghost use Rattle.control_job.specs.Jobs.{job_numbered as control_numbered, numbers_of as control_numbers, AreJobs as AreControlJobs, waiting_named, headed};
ghost use Rattle.tool_jobs.specs.Creating.{with_process, with_control, control_fault};
ghost use Rattle.tool_jobs.specs.declared.fault.ControlFault.{ControlFault};
ghost use Rattle.tool_jobs.specs.declared.fault.ControlFault.TheVariants as control_faults;
ghost use Rattle.tool_jobs.specs.Rows.{process_ready, control_ready};
ghost use Rattle.floor_model.specs.Floor.{with_jobs};
ghost use Rattle.floor_model.specs.Jobs.{is_done_with, is_settled, is_at_rest, is_still, sight, found_sight, is_first_here, gets_members, frees, stops_carriers, process_behind, is_any_of_carrier, is_job_so, is_processing, is_stopping, is_aborting, is_ending, job_of};
ghost use Rattle.floor_model.specs.Machines.{process_numbers, floor_machines, floor_starts, floor_fired};

use crate::floor::ToolFloor;
use crate::members::{is_here, mark, names_carrier};
use control_job::ControlJob;
use floor_model::Substrate;
use gem_ids::{JobId, Text80};
use gem_tables::{Firing, Table};
use process_job::{JobFault, JobSpec, JobState, ProcessJob};
use std::alloc::Global;
use tool_jobs::{ControlFault, Sight};

impl ToolFloor {
    // ---- what the floor shows of a process job

    // Whether a substrate is finished, and in its slot or removed, where it is a member of the process job of a number.
    fn is_done_with(&self, number: u64, s: &Substrate) -> bool
        ensures { result ≡ is_done_with number self.now.places s.now }
    {
        s.job != number
            || (s.states.processing.is_finished() && (self.is_in_slot(s) || self.is_removed(s)))
    }

    // Whether each member of the process job of a number is.
    fn is_settled(&self, number: u64) -> bool
        ensures { result ≡ is_settled number self.now }
    {
        for place in 0..self.substrate_count() {
            if let Some(s) = self.substrate_at(place) {
                if !self.is_done_with(number, s) {
                    return false;
                }
            }
        }
        true
    }

    // Whether a substrate isn't outside, and no open command names it, where it is a member of the process job of a number.
    fn is_at_rest(&self, number: u64, s: &Substrate) -> bool
        ensures { result ≡ is_at_rest number self.now.places self.now.modules s.now }
    {
        s.job != number || (!self.is_outside(s) && !self.is_named(s.sub))
    }

    // Whether each member of the process job of a number is so.
    fn is_still(&self, number: u64) -> bool
        ensures { result ≡ is_still number self.now }
    {
        for place in 0..self.substrate_count() {
            if let Some(s) = self.substrate_at(place) {
                if !self.is_at_rest(number, s) {
                    return false;
                }
            }
        }
        true
    }

    // Whether the material of the first process job that is left in the control job of a number is here.
    fn is_first_here(&self, number: u64) -> bool
        ensures { result ≡ is_first_here number self.now }
    {
        match self.jobs.first_left(number) {
            Some(job) => is_here(job, &self.shop),
            None => false,
        }
    }

    // ---- process jobs

    // What the floor shows of a process job, as far as its state asks for it: nothing else is looked for.
    fn glance(&self, job: &ProcessJob) -> Sight
        ensures { process_ready (Some job.now) result self.now.jobs ≡ process_ready (Some job.now) (sight job.now self.now) self.now.jobs }
    {
        match job.states.state {
            JobState::Queued => Sight {
                here: self.jobs.is_first_left(job.id) && is_here(job, &self.shop),
                settled: false,
                still: false,
            },
            JobState::Processing | JobState::Stopping | JobState::Aborting => Sight {
                here: false,
                settled: self.is_settled(job.number),
                still: false,
            },
            JobState::Pausing => Sight {
                here: false,
                settled: false,
                still: self.is_still(job.number),
            },
            _ => Sight {
                here: false,
                settled: false,
                still: false,
            },
        }
    }

    // What the floor shows of a process job.
    fn sight(&self, job: &ProcessJob) -> Sight
        ensures { result ≡ sight job.now self.now }
    {
        Sight {
            here: is_here(job, &self.shop),
            settled: self.is_settled(job.number),
            still: self.is_still(job.number),
        }
    }

    // The row of table 14 that is ready at a process job.
    #[inline(never)]
    fn process_row(&self, job: &ProcessJob) -> Option<u8>
        ensures { process_numbered job.now.number self.now.jobs.process.kept ≡ Some job.now → result ≡ ready_in floor_machines 14 job.now.number self.now }
    {
        self.jobs.ready_process(job, self.glance(job))
    }

    // How many process jobs are kept.
    fn process_count(&self) -> usize
        ensures count { result ≡ length self.now.jobs.process.kept }
        ensures jobs { AreProcessJobs self.now.jobs.process }
    {
        self.jobs.process().len()
    }

    // The process job of a place, counted from 0.
    fn process_at(&self, place: usize) -> Option<&ProcessJob>
        ensures { option_map (λ j. j.now) result ≡ slice_get self.now.jobs.process.kept place }
    {
        self.jobs.process().get(place)
    }

    // The row of table 14 that is ready at the first process job at which one is.
    pub(crate) fn ready_process(&self) -> Option<Firing>
        ensures { result ≡ first_ready 14 (λ n. ready_in floor_machines 14 n self.now) (process_numbers self.now.jobs.process.kept) }
    {
        for place in 0..self.process_count() {
            if let Some(job) = self.process_at(place) {
                if let Some(row) = self.process_row(job) {
                    return Some(Firing::of(Table::ProcessJob, job.number, row));
                }
            }
        }
        None
    }

    // Whether a row of table 14 starts.
    #[inline(never)]
    pub(crate) fn starts_at_process(&self, x: Firing) -> bool
        requires { x.row.table ≡ 14 }
        ensures { result ≡ floor_starts x self.now }
    {
        match self.jobs.process().numbered(x.object) {
            Some(job) => self
                .jobs
                .starts_process(x.object, x.row.row, self.sight(job)),
            None => false,
        }
    }

    // ---- control jobs

    // The row of table 15 that is ready at a control job.
    #[inline(never)]
    fn control_row(&self, job: &ControlJob) -> Option<u8>
        ensures { control_numbered job.now.number self.now.jobs.control.jobs ≡ Some job.now → result ≡ ready_in floor_machines 15 job.now.number self.now }
    {
        self.jobs.ready_control(job, self.is_first_here(job.number))
    }

    // How many control jobs are kept.
    fn control_count(&self) -> usize
        ensures count { result ≡ length self.now.jobs.control.jobs }
        ensures jobs { AreControlJobs self.now.jobs.control }
    {
        self.jobs.control().len()
    }

    // The control job of a place, counted from 0.
    fn control_at(&self, place: usize) -> Option<&ControlJob>
        ensures { option_map (λ j. j.now) result ≡ slice_get self.now.jobs.control.jobs place }
    {
        self.jobs.control().at(place)
    }

    // The row of table 15 that is ready at the first control job at which one is.
    pub(crate) fn ready_control(&self) -> Option<Firing>
        ensures { result ≡ first_ready 15 (λ n. ready_in floor_machines 15 n self.now) (control_numbers self.now.jobs.control.jobs) }
    {
        for place in 0..self.control_count() {
            if let Some(job) = self.control_at(place) {
                if let Some(row) = self.control_row(job) {
                    return Some(Firing::of(Table::ControlJob, job.number, row));
                }
            }
        }
        None
    }

    // Whether a row of table 15 starts.
    #[inline(never)]
    pub(crate) fn starts_at_control(&self, x: Firing) -> bool
        requires { x.row.table ≡ 15 }
        ensures { result ≡ floor_starts x self.now }
    {
        self.jobs
            .starts_control(x.object, x.row.row, self.is_first_here(x.object))
    }

    // ---- what rows do

    // A row of table 14 fires.
    #[inline(never)]
    pub(crate) fn fire_process(&mut self, number: u64, row: u8)
        ensures { self.new ≡ process_behind row number self.old }
    {
        match row {
            2 => self.make_members(number),
            7 | 15 | 16 => self.free_members(number),
            13 | 14 => {
                self.free_members(number);
                self.mark_carriers(number);
            }
            _ => {}
        }
        self.jobs.fire_process(number, row);
    }

    // The process job of a number gets its members, where there is one.
    fn make_members(&mut self, number: u64)
        ensures { self.new ≡ gets_members (process_numbered number self.old.jobs.process.kept) self.old }
    {
        if let Some(job) = self.jobs.process().numbered(number) {
            self.substrates.join(job, &self.shop);
        }
    }

    // The members of the process job of a number are in no job, where there is one.
    fn free_members(&mut self, number: u64)
        ensures { self.new ≡ frees (process_numbered number self.old.jobs.process.kept) self.old }
    {
        if let Some(job) = self.jobs.process().numbered(number) {
            self.substrates.free(job.number);
        }
    }

    // The carriers of the process job of a number are marked stopped, where there is one.
    fn mark_carriers(&mut self, number: u64)
        ensures { self.new ≡ stops_carriers (process_numbered number self.old.jobs.process.kept) self.old }
    {
        if let Some(job) = self.jobs.process().numbered(number) {
            mark(job.material.as_slice(), &mut self.shop);
        }
    }

    // A row of table 15 fires that starts.
    #[inline(never)]
    pub(crate) fn fire_control(&mut self, x: Firing)
        requires table { x.row.table ≡ 15 }
        requires starts { floor_starts x self.old ≡ true }
        ensures { self.new ≡ floor_fired x self.old }
    {
        self.jobs.fire_control(x.object, x.row.row);
    }

    // ---- how jobs are created, and their queue

    /// Creates a process job (SEMI E40, S16F11) that was asked for, as `Jobs::create_process` says; all else stays.
    pub fn create_process(&mut self, job: JobSpec) -> Result<(), JobFault>
        ensures created { IfOk result (λ _. self.new ≡ with_jobs (with_process job self.old.jobs) self.old) }
        ensures unchanged { IfErr result (λ _. self.new ≡ self.old) }
        ensures refused { (fault : JobFault) → process_fault job self.old.jobs.process ≡ Some fault → result ≡ Err fault }
        ensures memory { process_fault job self.old.jobs.process ≡ None → IfErr result (λ fault. fault ≡ process_faults.NoMemory) }
    {
        self.jobs.create_process(job)
    }

    /// Creates a control job (SEMI E94, S14F9) of these process jobs, as `Jobs::create_control` says; all else stays.
    pub fn create_control(
        &mut self,
        alloc: Global,
        id: JobId,
        jobs: &[JobId],
        auto: bool,
    ) -> Result<(), ControlFault>
        ensures created { IfOk result (λ _. self.new ≡ with_jobs (with_control id jobs.now auto self.old.jobs) self.old) }
        ensures unchanged { IfErr result (λ _. self.new ≡ self.old) }
        ensures refused { (fault : ControlFault) → control_fault id jobs.now self.old.jobs ≡ Some fault → result ≡ Err fault }
        ensures memory { control_fault id jobs.now self.old.jobs ≡ None → IfErr result (λ fault. fault ≡ control_faults.NoMemory) }
    {
        self.jobs.create_control(alloc, id, jobs, auto)
    }

    /// The QUEUED control job of a name goes first in the queue (SEMI E94, S16F27), as `Jobs::head_of_queue` says; all else stays.
    pub fn head_of_queue(&mut self, id: JobId) -> bool
        ensures queued { result ≡ is_some (waiting_named id self.old.jobs.control.jobs) }
        ensures headed { self.new ≡ with_jobs (record self.old.jobs { control = headed id self.old.jobs.control }) self.old }
    {
        self.jobs.head_of_queue(id)
    }

    // ---- what rows of carriers and substrates want of jobs

    // Whether a process job that is kept names the carrier of a name.
    pub(crate) fn is_any_of_carrier(&self, name: Text80) -> bool
        ensures { result ≡ is_any_of_carrier name self.now.jobs }
    {
        for place in 0..self.process_count() {
            if let Some(job) = self.process_at(place) {
                if names_carrier(name, job) {
                    return true;
                }
            }
        }
        false
    }

    // The state of the process job that a substrate is a member of, where it is in one.
    pub(crate) fn job_state(&self, s: &Substrate) -> Option<JobState>
        ensures { result ≡ option_map (λ j. j.states.state) (job_of s.now self.now.jobs) }
    {
        match self.jobs.process().numbered(s.job) {
            Some(job) => Some(job.states.state),
            None => None,
        }
    }

    // Whether the process job of a substrate is STOPPING.
    pub(crate) fn is_of_stopping(&self, s: &Substrate) -> bool
        ensures { result ≡ is_job_so is_stopping (job_of s.now self.now.jobs) }
    {
        matches!(self.job_state(s), Some(JobState::Stopping))
    }

    // Whether it is ABORTING.
    pub(crate) fn is_of_aborting(&self, s: &Substrate) -> bool
        ensures { result ≡ is_job_so is_aborting (job_of s.now self.now.jobs) }
    {
        matches!(self.job_state(s), Some(JobState::Aborting))
    }

    // Whether a process job is STOPPING or ABORTING.
    pub(crate) fn is_any_ending(&self) -> bool
        ensures { result ≡ list_any is_ending self.now.jobs.process.kept }
    {
        for place in 0..self.process_count() {
            if let Some(job) = self.process_at(place) {
                if is_ending(job) {
                    return true;
                }
            }
        }
        false
    }

    // Whether a process job is PROCESSING.
    pub(crate) fn is_any_processing(&self) -> bool
        ensures { result ≡ list_any (λ j. is_processing j.states.state) self.now.jobs.process.kept }
    {
        for place in 0..self.process_count() {
            if let Some(job) = self.process_at(place) {
                if is_processing(job) {
                    return true;
                }
            }
        }
        false
    }
}

// Whether a process job is STOPPING or ABORTING.
fn is_ending(job: &ProcessJob) -> bool
    ensures { result ≡ is_ending job.now }
{
    matches!(job.states.state, JobState::Stopping | JobState::Aborting)
}

// Whether a process job is PROCESSING.
fn is_processing(job: &ProcessJob) -> bool
    ensures { result ≡ is_processing job.now.states.state }
{
    matches!(job.states.state, JobState::Processing)
}
