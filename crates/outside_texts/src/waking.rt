//! A gate that wakes (`outside`), whose long rests are of two seconds.
//!
//! `pass no-frame` passes a point, and `time no-frame` tells whether that took a second or more, so that it rested, or not. `signs` tells
//! whether the session is over, and whether the run is. That a reader is held behind its messages is tried by `tools/hosts`, since who
//! is held needs another thread that lets him go.

use crate::words::{millis_since, point, told};
use anyhow::Result;
use outside::{Gate, Point, RunSigns, WakeGate};
use std::alloc::Global;
use std::sync::Wait;
use std::time;
use test_lines::Subject;

// So many milliseconds a long rest is, and half as many tell it from none.
const LONG_REST: u64 = 2000;

/// A gate that wakes, and what it tells.
#[derive(Drop)]
pub struct Waking<'a, R> {
    rt: &'a R,
    signs: &'a RunSigns,
    gate: WakeGate<'a, R>,
}

impl<'a, R: Wait> Waking<'a, R> {
    /// A gate that tells what it learns to these signs.
    pub fn new(rt: &'a R, signs: &'a RunSigns) -> Waking<'a, R> {
        Waking {
            rt,
            signs,
            gate: WakeGate::with_rest(rt, signs, LONG_REST),
        }
    }
}

impl<R: Wait + time::Clock> Subject for Waking<'_, R> {
    fn answer(&mut self, alloc: Global, said: &str) -> Result<String> {
        let mut answer = String::new(alloc);
        let said = say(self.rt, self.signs, &self.gate, said, &mut answer);
        told(answer, said)
    }
}

fn say<R: Wait + time::Clock>(
    rt: &R,
    signs: &RunSigns,
    gate: &WakeGate<'_, R>,
    said: &str,
    answer: &mut String,
) -> Option<()> {
    let (word, rest) = said.split_once(' ').unwrap_or((said, ""));
    match word {
        "pass" => {
            gate.pass(point(rest)?);
            Some(())
        }
        "time" => answer.push_str(timed(rt, gate, point(rest)?)?).ok(),
        _ => write!(
            answer,
            "{} {}",
            signs.is_session_over(),
            signs.is_run_over()
        )
        .ok(),
    }
}

// Whether who passes the point rests there.
fn timed<'a, R: Wait + time::Clock, G: Gate>(rt: &R, gate: &G, point: Point) -> Option<&'a str> {
    let before = rt.monotonic().ok()?;
    gate.pass(point);
    let is_rest = millis_since(rt, before)? >= LONG_REST / 2;
    Some(if is_rest { "rested" } else { "went on" })
}
