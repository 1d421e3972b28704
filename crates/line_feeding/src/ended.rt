//! How a run ended.
use gem_ids::Listed;
use history_parts::Entries;
use run_causes::Cause;
use std::alloc::Global;
use tool_events::SessionCause;

/// A session: its number, the bytes that the lines gave to it, the bytes of its frames that went out, and why it ended;
/// `Stopped` where it was up at the end of the run. A count stands still at the greatest number of 64 bits.
#[derive(Clone, Copy)]
pub struct SessionNote {
    pub session: u64,
    pub read: u64,
    pub written: u64,
    pub cause: SessionCause,
}

/// A list of session notes.
pub type Notes = Listed<SessionNote>;

/// A list of panels, seven numbers each.
pub type Panels = Listed<[u64; 7]>;

/// How a run ended: its status and cause, the history, a note for each session, and, once they are built, the panels that
/// were read. Until then that list is empty.
#[derive(Drop)]
pub struct Ended {
    pub status: u8,
    pub cause: Cause,
    pub history: Entries,
    pub sessions: Notes,
    pub panels: Panels,
}

impl Ended {
    ghost use Rattle.std.specs.Prelude.{◌≡◌, []};
    ghost use Rattle.run_causes.specs.Status.{status_of};

    /// How a run with this history and these sessions ended.
    pub fn with_history(alloc: Global, cause: Cause, history: Entries, sessions: Notes) -> Ended
        ensures { result ≡ record { status = status_of cause; cause = cause; history = history; sessions = sessions; panels = [] } }
    {
        Ended {
            status: cause.status(),
            cause,
            history,
            sessions,
            panels: Panels::none(alloc),
        }
    }

    /// How a run without a history ended.
    pub fn without_history(alloc: Global, cause: Cause) -> Ended
        ensures { result ≡ record { status = status_of cause; cause = cause; history = []; sessions = []; panels = [] } }
    {
        let history = Entries::from_vec(Vec::new(alloc));
        Ended::with_history(alloc, cause, history, Notes::none(alloc))
    }
}
