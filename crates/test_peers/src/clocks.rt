//! A clock of equal steps, whose readings may be late and slow.

use crate::signs::{sleep_a_turn, sleep_turns};
use gem_ids::Moment;
use outside::Clock;
use std::time;

/// Its readings rise by equal steps. Each takes so many turns of a millisecond, and each wait is one.
#[derive(Drop)]
pub struct StepClock<'a, R> {
    rt: &'a R,
    next: u64,
    step: u64,
    turns: u64,
}

impl<'a, R: time::Clock> StepClock<'a, R> {
    /// A clock that rises from 0 by these steps, and is read at once. With steps of 0 it stays at 0.
    pub fn new(rt: &'a R, step: u64) -> StepClock<'a, R> {
        StepClock {
            rt,
            next: 0,
            step,
            turns: 0,
        }
    }

    /// A clock that stays at this moment, and of which each reading takes so many turns.
    pub fn late(rt: &'a R, moment: u64, turns: u64) -> StepClock<'a, R> {
        StepClock {
            rt,
            next: moment,
            step: 0,
            turns,
        }
    }
}

impl<R: time::Clock> Clock for StepClock<'_, R> {
    ghost use Rattle.std.specs.Prelude.{None};

    ghost given = { λ _. None };

    fn now(&mut self) -> Moment {
        sleep_turns(self.rt, self.turns);
        let moment = Moment(self.next);
        self.next = self.next.saturating_add(self.step);
        moment
    }

    fn wait(&mut self, _hundredths: u32) {
        sleep_a_turn(self.rt);
    }
}
