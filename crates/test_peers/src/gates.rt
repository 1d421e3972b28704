//! A gate that holds one actor and lets the others rest.

use outside::{Gate, HoldGate, Point, SleepGate};
use std::time;

/// A `HoldGate` that sleeps at `Idle` as a `SleepGate` does.
#[derive(Drop)]
pub struct RestingHold<'a, R> {
    hold: HoldGate<'a, R>,
    rest: SleepGate<'a, R>,
}

impl<'a, R: time::Clock> RestingHold<'a, R> {
    /// A gate that holds `held` until `until` was passed.
    pub fn new(rt: &'a R, held: Point, until: Point) -> RestingHold<'a, R> {
        RestingHold {
            hold: HoldGate::new(rt, held, until),
            rest: SleepGate::new(rt),
        }
    }
}

impl<R: time::Clock> Gate for RestingHold<'_, R> {
    fn pass(&self, point: Point) {
        self.hold.pass(point);
        self.rest.pass(point);
    }
}
