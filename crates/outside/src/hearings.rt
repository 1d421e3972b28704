use std::array;
use std::sync::atomic::{AtomicU64, Ordering};

// What one module heard.
#[derive(Drop)]
struct Heard {
    news: AtomicU64,
    said: AtomicU64,
}

// What each module heard: how often there had been news when it last fetched, and how many messages of the host and lines of the
// operator when it last had nothing to do. Each module looks at its own place alone.
#[derive(Drop)]
pub(crate) struct Hearings {
    modules: [Heard; 256],
}

impl Hearings {
    // Of modules that heard nothing.
    pub(crate) fn none() -> Hearings {
        Hearings {
            modules: array::from_fn(|_| Heard {
                news: AtomicU64::new(0),
                said: AtomicU64::new(0),
            }),
        }
    }

    // The module is about to fetch: what comes behind so much news is new to it.
    pub(crate) fn listen(&self, module: u8, news: u64) {
        self.modules[usize::from(module)]
            .news
            .store(news, Ordering::SeqCst);
    }

    // How much news there had been when the module last fetched.
    pub(crate) fn news_heard(&self, module: u8) -> u64 {
        self.modules[usize::from(module)]
            .news
            .load(Ordering::SeqCst)
    }

    // The module hears how much was said; whether it had heard of another number.
    pub(crate) fn hears_said(&self, module: u8, said: u64) -> bool {
        self.modules[usize::from(module)]
            .said
            .swap(said, Ordering::SeqCst)
            != said
    }
}
