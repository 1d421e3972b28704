ghost use Rattle.std.specs.Prelude.{None};

use crate::clock::Clock;
use gem_ids::Moment;
use std::thread;
use std::time::{self, Duration};

// The hundredths of a second from 1970 to 2000.
const TO_2000: u64 = 94_668_480_000;

/// The system's clock. It begins at the system's date and time, in UTC, and goes on by the system's clock that nobody sets,
/// so a change of the date doesn't move it. It tells no moments.
#[derive(Drop)]
pub struct SystemClock<'a, R> {
    rt: &'a R,
    start: u64,
    began: Duration,
    last: u64,
}

impl<'a, R: time::Clock> SystemClock<'a, R> {
    /// The clock of the runtime. Where the system tells no date, or one before 2000, it begins at moment 0.
    pub fn new(rt: &'a R) -> SystemClock<'a, R> {
        let start = match rt.since_1970() {
            Ok(time) => hundredths_of(time).saturating_sub(TO_2000),
            Err(_) => 0,
        };
        let began = match rt.monotonic() {
            Ok(time) => time,
            Err(_) => Duration::ZERO,
        };
        SystemClock {
            rt,
            start,
            began,
            last: start,
        }
    }
}

impl<R: time::Clock> Clock for SystemClock<'_, R> {
    ghost given = { λ _. None };

    /// Where the system tells nothing, it is the moment of the call before. It is at most the last moment.
    fn now(&mut self) -> Moment {
        if let Ok(time) = self.rt.monotonic() {
            let passed = hundredths_of(time.saturating_sub(self.began));
            self.last = self.last.max(self.start.saturating_add(passed));
        }
        Moment(self.last.min(Moment::LAST.0))
    }

    fn wait(&mut self, hundredths: u32) {
        thread::sleep(self.rt, Duration::from_millis(u64::from(hundredths) * 10));
    }
}

// The whole hundredths of a second of a duration, at most the greatest u64.
fn hundredths_of(time: Duration) -> u64 {
    time.as_secs()
        .saturating_mul(100)
        .saturating_add(u64::from(time.subsec_millis() / 10))
}
