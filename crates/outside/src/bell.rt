use std::sync::Wait;
use std::sync::atomic::{AtomicU64, Ordering};
use std::time::Duration;

// What threads wait at until it is rung. Who waits names how often it had been rung when there was last nothing to do, so that
// no ring is lost in between.
#[derive(Drop)]
pub(crate) struct Bell {
    rings: AtomicU64,
    waiting: AtomicU64,
}

impl Bell {
    // A bell that was not rung yet.
    pub(crate) fn new() -> Bell {
        Bell {
            rings: AtomicU64::new(0),
            waiting: AtomicU64::new(0),
        }
    }

    // How often it was rung, which wraps.
    pub(crate) fn rings(&self) -> u64 {
        self.rings.load(Ordering::SeqCst)
    }

    // Rings, which wakes all that wait. The system is asked only where somebody does.
    pub(crate) fn ring(&self) {
        self.rings.fetch_add(1, Ordering::SeqCst);
        if self.waiting.load(Ordering::SeqCst) != 0 {
            self.rings.wake_all();
        }
    }

    // Waits until it was rung more often than this, for so long at most. It may return early.
    pub(crate) fn wait<R: Wait>(&self, rt: &R, heard: u64, most: Duration) {
        if self.rings() != heard {
            return;
        }
        self.waiting.fetch_add(1, Ordering::SeqCst);
        self.rings
            .park_timeout(rt, (heard & 0xffff_ffff) as u32, most);
        self.waiting.fetch_sub(1, Ordering::SeqCst);
    }
}
