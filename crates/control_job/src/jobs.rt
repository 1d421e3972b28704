//! The control jobs that are kept, and the order of the queue.

ghost use Rattle.std.specs.Prelude.{◌≡◌, ◌≤◌, ◌<◌, ◌+◌, true, false, length, slice_get, option_copied, is_some, map, find, Some, None, Err, IfOk, IfErr};
ghost use Rattle.std.specs.Vec.{vec_capacity};
ghost use Rattle.gem_tables.specs.Table.{is_one_of};
ghost use Rattle.control_job.specs.Jobs.{JobStore, AreJobs, no_jobs, job_named, job_numbered, waiting_named, is_any_active, is_waiting_numbered, first_waiting, owner_of, is_kept, is_kept_open, open_count, most_jobs, new_job, added, forgotten, jobs_without, order_without, put_first, put_last, numbers_of, starts_row, fires_at, fired_at, leaves, left_by, headed};
ghost use Rattle.control_job.specs.Creating.{create_fault, first_completed, number_named, replaced_by, kept_without, created};
ghost use Rattle.control_job.specs.Commands.{command_answer};
ghost use Rattle.control_job.specs.declared.fault.CtlFault.{CtlFault};
ghost use Rattle.control_job.specs.declared.fault.CtlFault.TheVariants.{NoMemory};

use crate::command::CtlAct;
use crate::fault::CtlFault;
use crate::job::{ControlJob, Fires, Leaves};
use crate::names::are_named;
use gem_ids::JobId;
use records::Book;
use std::alloc::{AllocError, Global};
use std::marker::Model;

/// The most control jobs that are kept (this tool's profile, limits).
pub const MOST_JOBS: usize = 32;

/// The control jobs that are kept, which contracts see as the list of them in the order in which they were created, the order of
/// the queue as their numbers of creation, and the last number that was given. Each name is that of one job, and there are at most
/// 32. Only `new` and `create` take memory.
pub struct ControlJobs {
    jobs: Book<ControlJob>,
    order: Vec<u64>,
    given: u64,
}

// Written out, so that it is one call wherever all of them is dropped.
impl Drop for ControlJobs {
    fn drop(self) {
        let ControlJobs {
            jobs: _jobs,
            order: _order,
            given: _given,
        } = self;
    }
}

impl Model for ControlJobs {
    ghost use Rattle.std.specs.Vec.{vec_capacity};
    ghost use Rattle.control_job.specs.Jobs.{JobStore};
    ghost use Rattle.control_job.specs.Kept.{store_of, AreKept};

    ghost Value = { JobStore };

    ghost view = { λ c. store_of c.jobs.kept c.order.items c.given };

    ghost invariant = { λ c. AreKept c.jobs c.order.items c.given (vec_capacity c.order) };
}

impl ControlJobs {
    /// No job is kept. Takes room for 32. `AllocError` where there is none.
    pub fn new(alloc: Global) -> Result<ControlJobs, AllocError>
        ensures { IfOk result (λ jobs. jobs ≡ no_jobs) }
    {
        let jobs = Book::new(alloc, MOST_JOBS)?;
        let order = Vec::with_capacity(alloc, MOST_JOBS)?;
        Ok(ControlJobs {
            jobs,
            order,
            given: 0,
        })
    }

    // ---- what they say

    /// How many jobs are kept, 0 to 32.
    pub fn len(&self) -> usize
        ensures len { result ≡ length self.now.jobs }
        ensures jobs { AreJobs self.now }
    {
        self.jobs.len()
    }

    /// The job at a place of their list, counted from 0, which goes by their numbers. `None` exactly where there is none.
    pub fn at(&self, place: usize) -> Option<&ControlJob>
        ensures { option_copied result ≡ slice_get self.now.jobs place }
    {
        self.jobs.get(place)
    }

    /// The job of a number of creation. `None` exactly where none of that number is kept.
    pub fn get(&self, number: u64) -> Option<&ControlJob>
        ensures { option_copied result ≡ job_numbered number self.now.jobs }
    {
        match records::place_numbered(self.jobs.as_slice(), number) {
            Some(place) => self.jobs.get(place),
            None => None,
        }
    }

    /// The job of a name. `None` exactly where none of that name is kept.
    pub fn find(&self, id: JobId) -> Option<&ControlJob>
        ensures { option_copied result ≡ job_named id self.now.jobs }
    {
        self.jobs.named(id.as_bytes())
    }

    /// Whether a job is active: SELECTED, WAITING FOR START, EXECUTING or PAUSED.
    pub fn is_any_active(&self) -> bool
        ensures { result ≡ is_any_active self.now.jobs }
    {
        self.jobs
            .as_slice()
            .iter()
            .any(|job| job.states.state.is_active())
    }

    /// The number of the first QUEUED job in the queue's order. `None` exactly where no job is QUEUED.
    pub fn first_queued(&self) -> Option<u64>
        ensures { result ≡ first_waiting self.now }
    {
        first_waiting(self.jobs.as_slice(), &self.order)
    }

    /// The number of the control job, not COMPLETED, that a process job belongs to. `None` exactly where it belongs to none.
    pub fn owner(&self, job: JobId) -> Option<u64>
        ensures { result ≡ owner_of job self.now.jobs }
    {
        match self.jobs.as_slice().iter().find(|one| one.owns(job)) {
            Some(owner) => Some(owner.number),
            None => None,
        }
    }

    // ---- what is asked of them

    /// What a command on the job of a name does, by the states before it: 1 start, 2 pause, 3 resume, 4 cancel, 5 deselect, 6
    /// stop and 7 abort fire a row of table 15, and 8 makes the job the head of the queue. The error is 7 for another command,
    /// else 1 where no job of the name is kept, else 2 where the row doesn't start at the job's states, or for 8 where the job
    /// isn't QUEUED (SEMI E94, S16F27; this tool's profile). Nothing changes.
    pub fn command(&self, id: JobId, cmd: u8) -> Result<CtlAct, u8>
        ensures { result ≡ command_answer id cmd self.now.jobs }
    {
        let Some(act) = CtlAct::of(cmd) else {
            return Err(7);
        };
        match self.find(id) {
            None => Err(1),
            Some(job) => { if job.can_act(act) { Ok(act) } else { Err(2) } }
        }
    }

    /// Why a job of a name can't be created with these process jobs, whatever memory there is; `create` tells more. `None` exactly
    /// where it can be. Nothing changes.
    pub fn create_fault(&self, id: JobId, jobs: &[JobId]) -> Option<CtlFault>
        ensures { result ≡ create_fault id jobs.now self.now.jobs }
    {
        if is_kept_open(self.jobs.as_slice(), id) {
            Some(CtlFault::NameTaken)
        } else if !are_named(jobs) {
            Some(CtlFault::NoJobs)
        } else if open_count(self.jobs.as_slice()) < MOST_JOBS {
            None
        } else {
            Some(CtlFault::NoSpace(MOST_JOBS as u32))
        }
    }

    // The number of the job that a new one of this name replaces.
    fn replaced_by(&self, id: JobId) -> Option<u64>
        ensures { result ≡ replaced_by id self.now.jobs }
    {
        if self.jobs.is_named(id.as_bytes()) {
            self.number_named(id)
        } else if self.jobs.len() < MOST_JOBS {
            None
        } else {
            first_completed(self.jobs.as_slice())
        }
    }

    // The number of the job of a name.
    fn number_named(&self, id: JobId) -> Option<u64>
        ensures { result ≡ number_named id self.now.jobs }
    {
        match self.find(id) {
            Some(job) => Some(job.number),
            None => None,
        }
    }

    // ---- what happens to them

    /// Creates a job that names these process jobs, in their order, and starts by itself or by hand. It is QUEUED, the last in
    /// the queue's order, and has the next number of creation, from 1; no number is given twice. A COMPLETED job of the name is
    /// replaced, else where 32 jobs are kept the oldest that is COMPLETED: it isn't kept any more, and the new one is behind all
    /// others. `NameTaken` comes exactly where a job of the name is kept that isn't COMPLETED; else `NoJobs` exactly where no
    /// process job is named, or one is named twice; else `NoSpace(32)` exactly where 32 jobs are kept that aren't COMPLETED.
    /// `NoMemory` comes for want of memory, and where the last number of a `u64` was given. Any fault changes nothing. That the
    /// process jobs are there and belong to none is for the caller.
    pub fn create(
        &mut self,
        alloc: Global,
        id: JobId,
        jobs: &[JobId],
        auto: bool,
    ) -> Result<(), CtlFault>
        ensures created { IfOk result (λ _. self.new ≡ created id jobs.now auto self.old) }
        ensures unchanged { IfErr result (λ _. self.new ≡ self.old) }
        ensures refused { (fault : CtlFault) → create_fault id jobs.now self.old.jobs ≡ Some fault → result ≡ Err fault }
        ensures memory { create_fault id jobs.now self.old.jobs ≡ None → IfErr result (λ fault. fault ≡ NoMemory) }
    {
        match self.create_fault(id, jobs) {
            Some(fault) => Err(fault),
            None => self.admit(alloc, id, jobs, auto),
        }
    }

    // Creates a job that can be created.
    fn admit(
        &mut self,
        alloc: Global,
        id: JobId,
        jobs: &[JobId],
        auto: bool,
    ) -> Result<(), CtlFault>
        requires { create_fault id jobs.now self.old.jobs ≡ None }
        ensures created { IfOk result (λ _. self.new ≡ created id jobs.now auto self.old) }
        ensures unchanged { IfErr result (λ _. self.new ≡ self.old) }
        ensures memory { IfErr result (λ fault. fault ≡ NoMemory) }
    {
        let job = self.next_job(alloc, id, jobs, auto)?;
        self.replace(id);
        self.add(job);
        Ok(())
    }

    // The job that is created next, as it begins.
    fn next_job(
        &self,
        alloc: Global,
        id: JobId,
        jobs: &[JobId],
        auto: bool,
    ) -> Result<ControlJob, CtlFault>
        ensures job { IfOk result (λ job. job ≡ new_job (self.now.given + 1) id jobs.now auto) }
        ensures memory { IfErr result (λ fault. fault ≡ NoMemory) }
        ensures jobs { AreJobs self.now }
    {
        let Some(number) = self.given.checked_add(1) else {
            return Err(CtlFault::NoMemory);
        };
        match ControlJob::new(alloc, number, id, jobs, auto) {
            Ok(job) => Ok(job),
            Err(_) => Err(CtlFault::NoMemory),
        }
    }

    // The job that a new one of this name replaces isn't kept any more.
    fn replace(&mut self, id: JobId)
        ensures { self.new ≡ kept_without (replaced_by id self.old.jobs) self.old }
    {
        if let Some(number) = self.replaced_by(id) {
            self.forget(number);
        }
    }

    // The job of a number isn't kept any more; the others keep their order.
    fn forget(&mut self, number: u64)
        requires { is_one_of (numbers_of self.old.jobs) number ≡ true }
        ensures { self.new ≡ forgotten number self.old }
    {
        self.jobs.forget_numbered(number);
        keep_other_numbers(&mut self.order, number);
    }

    // A job comes behind the others, which are fewer than 32: there is room for it.
    fn add(&mut self, job: ControlJob)
        requires next { self.old.given < job.number }
        requires unknown { is_kept job.name self.old.jobs ≡ false }
        requires few { length self.old.jobs < most_jobs }
        ensures { self.new ≡ added job self.old }
    {
        self.given = job.number;
        self.order.push_reserved(job.number);
        self.jobs.push(job);
    }

    /// Makes the QUEUED job of a name the first in the queue's order; the others keep theirs. False exactly where no QUEUED job has
    /// the name, and then nothing changes.
    pub fn head_of_queue(&mut self, id: JobId) -> bool
        ensures queued { result ≡ is_some (waiting_named id self.old.jobs) }
        ensures after { self.new ≡ headed id self.old }
    {
        match waiting_named(self.jobs.as_slice(), id) {
            Some(number) => {
                put_first(&mut self.order, number);
                true
            }
            None => false,
        }
    }

    /// Fires a row of table 15 at the job of a number of creation: true exactly where there is a job of that number at whose
    /// states the row starts. These are then the row's end; row 10 makes the job the last in the queue's order, and row 9 leaves no
    /// process job in it. All else stays; false changes nothing. What a row wants besides the states is for the caller.
    pub fn fire(&mut self, number: u64, row: u8) -> bool
        ensures fires { result ≡ starts_row row (job_numbered number self.old.jobs) }
        ensures after { self.new ≡ fired_at number row self.old }
    {
        let starts = self.starts_row(number, row);
        self.jobs.change_each(&Fires { number, row });
        if row == 10 && starts {
            put_last(&mut self.order, number);
        }
        starts
    }

    // Whether a row starts at the job of a number.
    fn starts_row(&self, number: u64, row: u8) -> bool
        ensures { result ≡ starts_row row (job_numbered number self.now.jobs) }
    {
        match self.get(number) {
            Some(job) => job.can_act(CtlAct::Row(row)),
            None => false,
        }
    }

    /// A process job that ended leaves its control job. False exactly where it belongs to none, and then nothing changes.
    pub fn leaves(&mut self, job: JobId) -> bool
        ensures owned { result ≡ is_some (owner_of job self.old.jobs) }
        ensures after { self.new ≡ left_by job self.old }
    {
        let owned = self.owner(job).is_some();
        self.jobs.change_each(&Leaves { job });
        owned
    }
}

// Whether the job of a number is QUEUED.
fn is_waiting_numbered(jobs: &[ControlJob], number: u64) -> bool
    ensures { result ≡ is_waiting_numbered jobs.now number }
{
    jobs.iter()
        .any(|job| job.number == number && job.is_waiting())
}

// The first number of these whose job is QUEUED.
fn first_waiting(jobs: &[ControlJob], order: &[u64]) -> Option<u64>
    ensures { result ≡ find (is_waiting_numbered jobs.now) order.now }
{
    match order.split_first() {
        Some((first, rest)) => {
            if is_waiting_numbered(jobs, *first) {
                Some(*first)
            } else {
                first_waiting(jobs, rest)
            }
        }
        None => None,
    }
}

// Whether a job of this name is there that isn't COMPLETED.
fn is_kept_open(jobs: &[ControlJob], id: JobId) -> bool
    ensures { result ≡ is_kept_open id jobs.now }
{
    jobs.iter().any(|job| job.has_name(id) && job.is_open())
}

// How many aren't COMPLETED.
fn open_count(jobs: &[ControlJob]) -> usize
    ensures { result ≡ open_count jobs.now }
{
    jobs.iter().filter(|job| job.is_open()).count()
}

// The number of the first that is COMPLETED.
fn first_completed(jobs: &[ControlJob]) -> Option<u64>
    ensures { result ≡ first_completed jobs.now }
{
    match jobs.iter().find(|job| !job.is_open()) {
        Some(job) => Some(job.number),
        None => None,
    }
}

// The number of the QUEUED job of a name.
fn waiting_named(jobs: &[ControlJob], id: JobId) -> Option<u64>
    ensures { result ≡ waiting_named id jobs.now }
{
    match jobs.iter().find(|job| job.has_name(id) && job.is_waiting()) {
        Some(job) => Some(job.number),
        None => None,
    }
}

// Takes a number out of these.
fn keep_other_numbers(order: &mut Vec<u64>, number: u64)
    ensures order { order.new.items ≡ order_without number order.old.items }
    ensures room { vec_capacity order.new ≡ vec_capacity order.old }
{
    order.retain(|one| *one != number);
}

// A number that is among these goes first.
fn put_first(order: &mut Vec<u64>, number: u64)
    requires { is_one_of order.old.items number ≡ true }
    ensures order { order.new.items ≡ put_first number order.old.items }
    ensures room { vec_capacity order.old ≤ vec_capacity order.new }
{
    keep_other_numbers(order, number);
    match order.insert(0, number) {
        Ok(_) => {}
        Err(_) => unreachable!(),
    }
}

// A number that is among these goes last.
fn put_last(order: &mut Vec<u64>, number: u64)
    requires { is_one_of order.old.items number ≡ true }
    ensures order { order.new.items ≡ put_last number order.old.items }
    ensures room { vec_capacity order.new ≡ vec_capacity order.old }
{
    keep_other_numbers(order, number);
    order.push_reserved(number);
}
