//! The notes of the sessions of a run.
ghost use Rattle.std.specs.Prelude.{◌≡◌, IfOk};
ghost use Rattle.serving.specs.Ending.{note_of, notes_of};

use history_laws::Recorder;
use host_actor::SessionBytes;
use line_feeding::{Notes, SessionNote};
use std::alloc::{AllocError, Global};
use tool_events::SessionCause;

// The note of a session of this core.
fn session_note<C: Recorder>(core: &C, session: &SessionBytes) -> SessionNote
    ensures { result ≡ note_of (C.view core.now).config (C.view core.now).history session.now }
{
    SessionNote {
        session: session.session,
        read: session.read,
        written: session.written,
        cause: core
            .session_end(session.session)
            .unwrap_or(SessionCause::Stopped),
    }
}

/// A note for each of these sessions of this core, in order.
pub fn session_notes<C: Recorder>(
    alloc: Global,
    core: &C,
    sessions: &[SessionBytes],
) -> Result<Notes, AllocError>
    ensures { IfOk result (λ notes. notes ≡ notes_of (C.view core.now).config (C.view core.now).history sessions.now) }
{
    let mut notes = Vec::new(alloc);
    for session in sessions {
        notes.push(session_note(core, session))?;
    }
    Ok(Notes::from_vec(notes))
}
