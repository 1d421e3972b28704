//! A runtime's clock that a test sets.

use std::io;
use std::sync::atomic::{AtomicU64, Ordering};
use std::time::{self, Duration};

/// Its date stays, and its other clock is set in milliseconds. It counts how many milliseconds were slept, and sleeps none.
#[derive(Drop)]
pub struct SetClock {
    date: Duration,
    passed: AtomicU64,
    slept: AtomicU64,
}

impl SetClock {
    /// A clock of this date, in milliseconds since 1970.
    pub fn at(date: u64) -> SetClock {
        SetClock {
            date: Duration::from_millis(date),
            passed: AtomicU64::new(0),
            slept: AtomicU64::new(0),
        }
    }

    /// Sets the other clock, in milliseconds.
    pub fn set(&self, passed: u64) {
        self.passed.store(passed, Ordering::SeqCst);
    }

    /// How many milliseconds were slept.
    pub fn slept(&self) -> u64 {
        self.slept.load(Ordering::SeqCst)
    }
}

impl time::Clock for SetClock {
    fn monotonic(&self) -> io::Result<Duration> {
        Ok(Duration::from_millis(self.passed.load(Ordering::SeqCst)))
    }

    fn since_1970(&self) -> io::Result<Duration> {
        Ok(self.date)
    }

    fn sleep(&self, duration: Duration) {
        let millis = duration
            .as_secs()
            .saturating_mul(1000)
            .saturating_add(u64::from(duration.subsec_millis()));
        self.slept.fetch_add(millis, Ordering::SeqCst);
    }
}
