//! Which rows of jobs start, and which are ready by themselves (this tool's profile, tables 14 and 15).

ghost use Rattle.std.specs.Prelude.{◌≡◌, ◌==◌, ◌&&◌, if◌then◌else◌, not, Some, None};
ghost use Rattle.gem_tables.specs.Table.{row_of, wants_found};
ghost use Rattle.process_job.specs.Tables.{job_table};
ghost use Rattle.process_job.specs.Jobs.{job_numbered as process_numbered};
ghost use Rattle.control_job.specs.Tables.{control_table, state_number};
ghost use Rattle.control_job.specs.Jobs.{job_numbered as control_numbered, first_waiting, is_any_active};
ghost use Rattle.tool_jobs.specs.Jobs.{owner};
ghost use Rattle.tool_jobs.specs.Wants.{is_ending, is_by_stop, is_by_abort, ends_so, is_first, is_first_left, process_wants, is_none_left, is_that, is_ready, control_wants};
ghost use Rattle.tool_jobs.specs.Rows.{process_starts, process_ready, control_starts, control_ready};

use crate::jobs::Jobs;
use crate::sight::Sight;
use control_job::{ControlJob, ControlState, Ending};
use gem_ids::JobId;
use process_job::{JobState, ProcessJob};

// The row of table 15 that creates a control job, and that of table 14 that creates a process job.
const CREATED: u8 = 1;

impl Jobs {
    // ---- process jobs: their control jobs

    /// Whether a process job is the first left in its control job, and that is EXECUTING and isn't ending.
    pub fn is_first_left(&self, job: JobId) -> bool
        ensures { result ≡ is_first_left job (owner job self.now) }
    {
        match self.owner(job) {
            Some(owner) => is_executing(owner) && is_first_in(job, owner),
            None => false,
        }
    }

    // How the control job of a process job ends; not, where it belongs to none.
    fn ending_of(&self, job: JobId) -> Ending
        ensures ending { ends_so is_ending (owner job self.now) ≡ is_ending result }
        ensures stop { ends_so is_by_stop (owner job self.now) ≡ is_by_stop result }
        ensures abort { ends_so is_by_abort (owner job self.now) ≡ is_by_abort result }
    {
        match self.owner(job) {
            Some(owner) => owner.states.ending,
            None => Ending::No,
        }
    }

    // ---- process jobs: rows

    // Whether what a row of table 14 wants is so of a process job, where the floor shows this of it.
    fn process_wants(&self, row: u8, job: &ProcessJob, sight: Sight) -> bool
        ensures { result ≡ wants_found (λ want. process_wants want job.now sight self.now) (row_of job_table row) }
    {
        match row {
            2 => self.is_first_left(job.id) && sight.here,
            3 => !job.auto,
            4 => job.auto,
            6 | 13 | 14 => sight.settled,
            9 => sight.still,
            16 => !matches!(self.ending_of(job.id), Ending::No),
            17 => matches!(self.ending_of(job.id), Ending::ByStop),
            18 => matches!(self.ending_of(job.id), Ending::ByAbort),
            _ => true,
        }
    }

    /// Whether a row of table 14 starts at the process job of a number: it is there, in a state in which the row starts, and what the
    /// row wants besides is so, where the floor shows this of it. Row 1, of a job that was just created, starts for any job that is
    /// there.
    pub fn starts_process(&self, number: u64, row: u8, sight: Sight) -> bool
        ensures { result ≡ process_starts row (process_numbered number self.now.process.kept) sight self.now }
    {
        match self.process.numbered(number) {
            Some(job) => {
                (row == CREATED || job.states.starts(row)) && self.process_wants(row, job, sight)
            }
            None => false,
        }
    }

    /// The least row of table 14 that is ready by itself at a process job that is there, where the floor shows this of it. `None`
    /// exactly where no row is.
    pub fn ready_process(&self, job: &ProcessJob, sight: Sight) -> Option<u8>
        ensures { result ≡ process_ready (Some job.now) sight self.now }
    {
        match job.states.state {
            JobState::Queued => self.ready_queued(job, sight.here),
            JobState::SettingUp => Some(if job.auto { 4 } else { 3 }),
            JobState::WaitingForStart | JobState::Paused => ending_row(self.ending_of(job.id)),
            JobState::Processing => ready_or(sight.settled, 6, self.ending_of(job.id)),
            JobState::Complete => Some(7),
            JobState::Pausing => ready_or(sight.still, 9, self.ending_of(job.id)),
            JobState::Stopping => ready_or_aborted(sight.settled, self.ending_of(job.id)),
            JobState::Aborting => ready_where(sight.settled, 14),
        }
    }

    // The row of a process job that is QUEUED: 2 where it is the first left and its material is here, 16 where its control job ends.
    fn ready_queued(&self, job: &ProcessJob, here: bool) -> Option<u8>
        ensures { result ≡ (if is_first_left job.now.id (owner job.now.id self.now) && here then Some 2 else (if ends_so is_ending (owner job.now.id self.now) then Some 16 else None)) }
    {
        if self.is_first_left(job.id) && here {
            return Some(2);
        }
        match self.ending_of(job.id) {
            Ending::No => None,
            _ => Some(16),
        }
    }

    // ---- control jobs

    // Whether a control job is the first QUEUED, and none is active.
    fn is_next(&self, job: &ControlJob) -> bool
        ensures { result ≡ (is_that job.now.number (first_waiting self.now.control) && not (is_any_active self.now.control.jobs)) }
    {
        match self.control.first_queued() {
            Some(number) => number == job.number && !self.control.is_any_active(),
            None => false,
        }
    }

    // Whether what a row of table 15 wants is so of a control job, where the material of its first process job is here, or isn't.
    fn control_wants(&self, row: u8, job: &ControlJob, here: bool) -> bool
        ensures { result ≡ wants_found (λ want. control_wants want job.now here self.now.control) (row_of control_table row) }
    {
        match row {
            2 => self.is_next(job),
            3 => !job.auto && is_ready(job, here),
            4 => job.auto && is_ready(job, here),
            8 => is_none_left(job),
            _ => true,
        }
    }

    /// Whether a row of table 15 starts at the control job of a number: it is there, in states in which the row starts, and what the
    /// row wants besides is so, where the material of its first process job is here, or isn't. Row 1, of a job that was just created,
    /// starts for any job that is there.
    pub fn starts_control(&self, number: u64, row: u8, here: bool) -> bool
        ensures { result ≡ control_starts row (control_numbered number self.now.control.jobs) here self.now }
    {
        match self.control.get(number) {
            Some(job) => {
                (row == CREATED || job.states.starts(row)) && self.control_wants(row, job, here)
            }
            None => false,
        }
    }

    /// The least row of table 15 that is ready by itself at a control job that is there, where the material of its first process job
    /// is here, or isn't. `None` exactly where no row is.
    pub fn ready_control(&self, job: &ControlJob, here: bool) -> Option<u8>
        ensures { result ≡ control_ready (Some job.now) here self.now }
    {
        match (job.states.state, job.states.ending) {
            (ControlState::Queued, Ending::No) => ready_where(self.is_next(job), 2),
            (ControlState::Selected, Ending::No) => {
                ready_where(is_ready(job, here), if job.auto { 4 } else { 3 })
            }
            (ControlState::Executing, _) => ready_where(is_none_left(job), 8),
            _ => None,
        }
    }
}

// ---- of one control job

// Whether a control job is EXECUTING, and isn't ending.
fn is_executing(job: &ControlJob) -> bool
    ensures { result ≡ ((state_number job.now.states.state == 3) && not (is_ending job.now.states.ending)) }
{
    matches!(job.states.state, ControlState::Executing) && matches!(job.states.ending, Ending::No)
}

// Whether a process job is the first that is left in a control job.
fn is_first_in(name: JobId, job: &ControlJob) -> bool
    ensures { result ≡ is_first name job.now.left }
{
    match job.left.as_slice().first() {
        Some(first) => first.as_bytes() == name.as_bytes(),
        None => false,
    }
}

// Whether no process job is left in a control job.
fn is_none_left(job: &ControlJob) -> bool
    ensures { result ≡ is_none_left job.now.left }
{
    job.left.len() == 0
}

// Whether the material of its first process job is here, or none is left.
fn is_ready(job: &ControlJob, here: bool) -> bool
    ensures { result ≡ is_ready job.now here }
{
    is_none_left(job) || here
}

// ---- which row of some

// A row, where a test holds.
fn ready_where(holds: bool, row: u8) -> Option<u8>
    ensures { result ≡ (if holds then Some row else None) }
{
    if holds { Some(row) } else { None }
}

// The row by which a process job ends with its control job: 17 by stop, 18 by abort.
fn ending_row(ending: Ending) -> Option<u8>
    ensures { result ≡ (if is_by_stop ending then Some 17 else (if is_by_abort ending then Some 18 else None)) }
{
    match ending {
        Ending::No => None,
        Ending::ByStop => Some(17),
        Ending::ByAbort => Some(18),
    }
}

// A row where a test holds, else that by which a process job ends with its control job.
fn ready_or(holds: bool, row: u8, ending: Ending) -> Option<u8>
    ensures { result ≡ (if holds then Some row else (if is_by_stop ending then Some 17 else (if is_by_abort ending then Some 18 else None))) }
{
    if holds { Some(row) } else { ending_row(ending) }
}

// The row of a process job that is STOPPING: 13 where it is settled, 18 where its control job ends by abort.
fn ready_or_aborted(settled: bool, ending: Ending) -> Option<u8>
    ensures { result ≡ (if settled then Some 13 else (if is_by_abort ending then Some 18 else None)) }
{
    if settled {
        return Some(13);
    }
    match ending {
        Ending::ByAbort => Some(18),
        _ => None,
    }
}
