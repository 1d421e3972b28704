//! A simulated module.

ghost use Rattle.std.specs.Prelude.{◌≡◌, [], IfOk};
ghost use Rattle.sim_modules.specs.Acting.{begun, fails_next, answered, one_more};

use gem_ids::ModuleId;
use hsms_frame::NoMemory;
use std::alloc::Global;
use std::marker::Model;
use tool_events::Signal;
use tool_tasks::Command;

/// A simulated robot, aligner or chamber. It does what it is told, but fails at the acts of its plan.
#[derive(Drop)]
pub struct SimModule {
    number: ModuleId,
    fails: Vec<u64>,
    acts: u64,
}

impl Model for SimModule {
    ghost use Rattle.sim_modules.specs.Acting.{Acting};

    ghost Value = { Acting };

    ghost view = { λ m. record { number = m.number; fails = m.fails.items; acts = m.acts } };
}

impl SimModule {
    /// A module of this number that did nothing yet. Its plan has the counts of the acts that fail, the first act being 1, in
    /// any order; a count of 0 comes never. `NoMemory` where there is no memory for the plan.
    pub fn new(alloc: Global, m: ModuleId, fails: &[u64]) -> Result<SimModule, NoMemory>
        ensures { IfOk result (λ made. made ≡ begun m fails.now) }
    {
        let fails = Vec::from_slice(alloc, fails)?;
        Ok(SimModule {
            number: m,
            fails,
            acts: 0,
        })
    }

    /// A module of this number that did nothing yet and fails at no act. Takes no memory.
    pub fn without_failures(alloc: Global, m: ModuleId) -> SimModule
        ensures { result ≡ begun m [] }
    {
        SimModule {
            number: m,
            fails: Vec::new(alloc),
            acts: 0,
        }
    }

    /// Its number.
    pub fn number(&self) -> ModuleId
        ensures { result ≡ self.now.number }
    {
        self.number
    }

    /// Acts on a command, whatever its task: the answer has the module's number and the command's, and is Failed exactly where
    /// the plan has the count of this act, else Done. A module acts once more each time that it is told, of the same command
    /// too. Takes no memory.
    pub fn act(&mut self, c: &Command) -> Signal
        ensures answer { result ≡ answered self.old c.now }
        ensures after { self.new ≡ one_more self.old }
    {
        if self.counts() {
            Signal::Failed(self.number, c.number)
        } else {
            Signal::Done(self.number, c.number)
        }
    }

    // Counts an act, and tells whether the plan has its count.
    fn counts(&mut self) -> bool
        ensures fails { result ≡ fails_next self.old }
        ensures after { self.new ≡ one_more self.old }
    {
        match self.acts.checked_add(1) {
            Some(count) => {
                self.acts = count;
                self.fails.contains(&count)
            }
            None => false,
        }
    }
}
