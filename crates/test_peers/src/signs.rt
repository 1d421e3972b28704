//! Signs, which one thread raises and others wait for.

use std::sync::atomic::{AtomicBool, Ordering};
use std::thread;
use std::time::{self, Duration};

/// How many turns a thread waits at most.
pub const TURNS: u32 = 60_000;

/// A sign that is raised once, and stays so.
#[derive(Drop)]
pub struct Sign {
    raised: AtomicBool,
}

impl Sign {
    /// A sign that isn't raised.
    pub fn new() -> Sign {
        Sign {
            raised: AtomicBool::new(false),
        }
    }

    /// Raises it.
    pub fn raise(&self) {
        self.raised.store(true, Ordering::SeqCst);
    }

    /// Whether it is raised.
    pub fn is_raised(&self) -> bool {
        self.raised.load(Ordering::SeqCst)
    }

    /// Waits until it is raised, for 60,000 turns at most, and tells whether it is.
    pub fn is_raised_in_time<R: time::Clock>(&self, rt: &R) -> bool {
        for _ in 0..TURNS {
            if self.is_raised() {
                return true;
            }
            sleep_a_turn(rt);
        }
        self.is_raised()
    }
}

/// What a link tells those who wait for it.
#[derive(Drop)]
pub struct LinkSigns {
    /// It took bytes that go out to the peer.
    pub wrote: Sign,
    /// It was shut.
    pub was_shut: Sign,
}

impl LinkSigns {
    /// Of a link of which nothing is told yet.
    pub fn new() -> LinkSigns {
        LinkSigns {
            wrote: Sign::new(),
            was_shut: Sign::new(),
        }
    }
}

/// Sleeps so many turns.
pub fn sleep_turns<R: time::Clock>(rt: &R, turns: u64) {
    for _ in 0..turns {
        sleep_a_turn(rt);
    }
}

/// Sleeps one millisecond.
pub fn sleep_a_turn<R: time::Clock>(rt: &R) {
    thread::sleep(rt, Duration::from_millis(1));
}
