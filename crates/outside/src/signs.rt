use std::sync::atomic::{AtomicBool, Ordering};

/// What a gate learns of a run, and adapters look at while they wait: whether the session is over, and whether the run is.
#[derive(Drop)]
pub struct RunSigns {
    session: AtomicBool,
    run: AtomicBool,
}

impl RunSigns {
    /// Of a run that has begun, and in which no session is up.
    pub fn new() -> RunSigns {
        RunSigns {
            session: AtomicBool::new(false),
            run: AtomicBool::new(false),
        }
    }

    /// Notes that a session may begin.
    pub fn begin_session(&self) {
        self.session.store(false, Ordering::SeqCst);
    }

    /// Notes that the session is over.
    pub fn end_session(&self) {
        self.session.store(true, Ordering::SeqCst);
    }

    /// Whether the session is over: it ended, or the run did.
    pub fn is_session_over(&self) -> bool {
        self.session.load(Ordering::SeqCst) || self.is_run_over()
    }

    /// Notes that the run is over, and every session with it.
    pub fn end_run(&self) {
        self.run.store(true, Ordering::SeqCst);
    }

    /// Whether the run is over.
    pub fn is_run_over(&self) -> bool {
        self.run.load(Ordering::SeqCst)
    }
}
