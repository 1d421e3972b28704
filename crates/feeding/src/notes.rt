//! The notes of the sessions of a run.
ghost use Rattle.std.specs.Prelude.{◌≡◌, ℕ, IfOk};
ghost use Rattle.line_feeding.specs.Reads.{AreCounts};
ghost use Rattle.line_feeding.specs.Notes.{note_of, AreNotes};

use history_laws::Recorder;
use history_parts::SessionCounts;
use line_feeding::{Notes, SessionNote};
use std::alloc::{AllocError, Global};
use tool_events::SessionCause;

/// The note of a session of this core, in which so many bytes came.
fn session_note<C: Recorder>(core: &C, reads: &SessionCounts, session: u64) -> SessionNote
    ensures { (read : ℕ → ℕ) → AreCounts reads.now read
        → result ≡ note_of (C.view core.now).config (C.view core.now).history read session }
{
    SessionNote {
        session,
        read: reads.of(session),
        written: core.session_bytes(session),
        cause: core.session_end(session).unwrap_or(SessionCause::Stopped),
    }
}

/// A note for each session that came to this core, in order, with the bytes that came in it.
pub fn session_notes<C: Recorder>(
    alloc: Global,
    core: &C,
    reads: &SessionCounts,
) -> Result<Notes, AllocError>
    ensures { IfOk result (λ notes. (read : ℕ → ℕ) → AreCounts reads.now read
        → AreNotes (C.view core.now).config (C.view core.now).history read notes) }
{
    let mut notes = Vec::new(alloc);
    for session in 0..core.session_count() {
        notes.push(session_note(core, reads, session + 1))?;
    }
    Ok(Notes::from_vec(notes))
}
