//! Clocks and gates (`outside`). `to the system's clock at .. after 7000` is at a date in milliseconds since 1970, so many behind some
//! beginning, and `set 8509` is so many behind it. `now` reads it, `wait 25` waits hundredths, and `slept` tells how many milliseconds
//! were slept.
//!
//! `to a gate that sleeps`, `to a gate that is open` and `to a gate that holds 3 until line` are gates over such a clock: `pass idle` passes
//! a point.

use crate::set_clock::SetClock;
use crate::words::{point, told};
use anyhow::Result;
use outside::{Clock, Gate, SystemClock};
use std::alloc::Global;
use test_lines::Subject;

// Reads a clock, or waits by it.
fn say(clock: &mut impl Clock, said: &str, answer: &mut String) -> Option<()> {
    match said {
        "now" => write!(answer, "{}", clock.now().0).ok(),
        _ => {
            clock.wait(said.strip_prefix("wait ")?.parse::<u32>().ok()?);
            Some(())
        }
    }
}

/// The system's clock, where the system's time is set by hand.
#[derive(Drop)]
pub struct Dated<'a> {
    system: &'a SetClock,
    clock: SystemClock<'a, SetClock>,
}

impl<'a> Dated<'a> {
    /// The clock of this system.
    pub fn new(system: &'a SetClock) -> Dated<'a> {
        Dated {
            system,
            clock: SystemClock::new(system),
        }
    }
}

impl Subject for Dated<'_> {
    fn answer(&mut self, alloc: Global, said: &str) -> Result<String> {
        let mut answer = String::new(alloc);
        let said = match say_system(self.system, said, &mut answer) {
            Some(()) => Some(()),
            None => say(&mut self.clock, said, &mut answer),
        };
        told(answer, said)
    }
}

// Sets what passed, or tells what was slept.
fn say_system(system: &SetClock, said: &str, answer: &mut String) -> Option<()> {
    match said {
        "slept" => write!(answer, "{}", system.slept()).ok(),
        _ => {
            system.set(said.strip_prefix("set ")?.parse::<u64>().ok()?);
            Some(())
        }
    }
}

/// A gate over such a clock.
#[derive(Drop)]
pub struct Gated<'a, G> {
    pub system: &'a SetClock,
    pub gate: G,
}

impl<G: Gate> Subject for Gated<'_, G> {
    fn answer(&mut self, alloc: Global, said: &str) -> Result<String> {
        let mut answer = String::new(alloc);
        let said = match said.strip_prefix("pass ") {
            Some(word) => pass(&self.gate, word),
            None => say_system(self.system, said, &mut answer),
        };
        told(answer, said)
    }
}

fn pass<G: Gate>(gate: &G, word: &str) -> Option<()> {
    gate.pass(point(word)?);
    Some(())
}
