use crate::gate::{Gate, Point};
use std::sync::atomic::{AtomicBool, Ordering};
use std::thread;
use std::time::{self, Duration};

/// A gate that holds nobody.
#[derive(Clone, Copy)]
pub struct OpenGate;

impl Gate for OpenGate {
    fn pass(&self, _point: Point) {}
}

/// A gate that sleeps one millisecond at `Idle`, `NoFrame` and `NoCommand`, and holds nobody.
#[derive(Drop)]
pub struct SleepGate<'a, R> {
    rt: &'a R,
}

impl<'a, R: time::Clock> SleepGate<'a, R> {
    /// A gate that sleeps by the runtime's clock.
    pub fn new(rt: &'a R) -> SleepGate<'a, R> {
        SleepGate { rt }
    }
}

impl<R: time::Clock> Gate for SleepGate<'_, R> {
    fn pass(&self, point: Point) {
        if matches!(point, Point::Idle | Point::NoFrame | Point::NoCommand(_)) {
            sleep_a_turn(self.rt);
        }
    }
}

// How many turns a point is held at most.
const TURNS: u32 = 10_000;

/// A gate that holds one point until another was passed, for at most 10,000 turns with a sleep of one millisecond each.
/// Once the other was passed it holds nobody.
#[derive(Drop)]
pub struct HoldGate<'a, R> {
    rt: &'a R,
    held: Point,
    until: Point,
    is_passed: AtomicBool,
}

impl<'a, R: time::Clock> HoldGate<'a, R> {
    /// A gate that sleeps by the runtime's clock, holds `held`, and lets it go once `until` was passed.
    pub fn new(rt: &'a R, held: Point, until: Point) -> HoldGate<'a, R> {
        HoldGate {
            rt,
            held,
            until,
            is_passed: AtomicBool::new(false),
        }
    }

    // Waits until the other point was passed, or the turns are over.
    fn hold(&self) {
        for _ in 0..TURNS {
            if self.is_passed.load(Ordering::SeqCst) {
                return;
            }
            sleep_a_turn(self.rt);
        }
    }
}

impl<R: time::Clock> Gate for HoldGate<'_, R> {
    fn pass(&self, point: Point) {
        if point == self.until {
            self.is_passed.store(true, Ordering::SeqCst);
        }
        if point == self.held {
            self.hold();
        }
    }
}

// Sleeps one millisecond.
fn sleep_a_turn<R: time::Clock>(rt: &R) {
    thread::sleep(rt, Duration::from_millis(1));
}
