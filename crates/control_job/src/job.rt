//! A control job.

ghost use Rattle.std.specs.Prelude.{◌≡◌, IfOk};
ghost use Rattle.control_job.specs.Jobs.{name_of, number_of, has_name, is_open, is_waiting, owns, new_job, fires_at, leaves};
ghost use Rattle.control_job.specs.Commands.{can_act};

use crate::command::CtlAct;
use crate::names::{JobNames, is_same};
use crate::record::ControlJobRecord;
use gem_ids::{JobId, Text80};
use records::{Change, Named, Numbered};
use std::alloc::{AllocError, Global};

/// A control job: its number of creation, which is its own for good; its name and states; whether it starts by itself; the process
/// jobs that it named, and those of them that are left in it, both in the order in which they were named.
#[derive(Drop)]
pub struct ControlJob {
    pub number: u64,
    pub name: JobId,
    pub states: ControlJobRecord,
    pub auto: bool,
    pub named: JobNames,
    pub left: JobNames,
}

impl ControlJob {
    // A job as it is created with this number: it is QUEUED, and each process job that it names is left in it.
    pub(crate) fn new(
        alloc: Global,
        number: u64,
        name: JobId,
        jobs: &[JobId],
        auto: bool,
    ) -> Result<ControlJob, AllocError>
        ensures { IfOk result (λ job. job ≡ new_job number name jobs.now auto) }
    {
        let named = JobNames::copied(alloc, jobs)?;
        let left = JobNames::copied(alloc, jobs)?;
        Ok(ControlJob {
            number,
            name,
            states: ControlJobRecord::new(),
            auto,
            named,
            left,
        })
    }

    // Whether the job has this name.
    pub(crate) fn has_name(&self, name: JobId) -> bool
        ensures { result ≡ has_name name self.now }
    {
        is_same(self.name, name)
    }

    /// Whether it isn't COMPLETED.
    pub fn is_open(&self) -> bool
        ensures { result ≡ is_open self.now }
    {
        !self.states.state.is_completed()
    }

    /// Whether it is QUEUED.
    pub fn is_waiting(&self) -> bool
        ensures { result ≡ is_waiting self.now }
    {
        self.states.state.is_queued()
    }

    /// Whether a process job belongs to it: it isn't COMPLETED, and the process job is left in it.
    pub fn owns(&self, job: JobId) -> bool
        ensures { result ≡ owns job self.now }
    {
        self.is_open() && self.left.has(job)
    }

    // Whether a command can be done: its row starts, or the job is QUEUED.
    pub(crate) fn can_act(&self, act: CtlAct) -> bool
        ensures { result ≡ can_act act self.now }
    {
        match act {
            CtlAct::Row(row) => {
                let mut states = self.states;
                states.fire(row)
            }
            CtlAct::Head => self.is_waiting(),
        }
    }

    // Fires a row of table 15, where the job has this number. Row 9 frees the process jobs that are left.
    fn fire_numbered(&mut self, number: u64, row: u8)
        ensures { self.new ≡ fires_at number row self.old }
    {
        if self.number == number && self.states.fire(row) && row == 9 {
            self.left.clear();
        }
    }

    // A process job leaves it, where it belongs to it.
    fn lose(&mut self, job: JobId)
        ensures { self.new ≡ leaves job self.old }
    {
        if self.owns(job) {
            self.left.remove(job);
        }
    }
}

impl Named for ControlJob {
    ghost name = { name_of };

    fn text(&self) -> Text80 {
        self.name.text()
    }

    fn name_bytes(&self) -> &[u8] {
        self.name.as_bytes()
    }
}

impl Numbered for ControlJob {
    ghost number = { number_of };

    fn number(&self) -> u64 {
        self.number
    }
}

// A row of table 15 that fires at the job of a number.
#[derive(Drop)]
pub(crate) struct Fires {
    pub(crate) number: u64,
    pub(crate) row: u8,
}

impl Change<ControlJob> for Fires {
    ghost does = { λ f j. fires_at f.number f.row j };

    fn apply(&self, job: &mut ControlJob) {
        job.fire_numbered(self.number, self.row);
    }
}

// A process job that leaves the control job that it belongs to.
#[derive(Drop)]
pub(crate) struct Leaves {
    pub(crate) job: JobId,
}

impl Change<ControlJob> for Leaves {
    ghost does = { λ l j. leaves l.job j };

    fn apply(&self, job: &mut ControlJob) {
        job.lose(self.job);
    }
}
