//! The bytes that the host told in each session.
ghost use Rattle.std.specs.Prelude.{◌≡◌, ◌+◌, ℕ, IfOk, OnOk};
ghost use Rattle.gem_model.specs.Sizes.{counted};
ghost use Rattle.history_parts.specs.Counts.{count_of};
ghost use Rattle.line_feeding.specs.Reads.{AreCounts};
ghost use Rattle.line_feeding.specs.Notes.{AreNotes};
ghost use Rattle.batch_model.specs.Told.{arrival_bytes, bytes_told};
ghost use Rattle.batching.specs.Counted.{numbered_bytes_in, numbered_bytes};

use feeding::session_notes;
use history_laws::Recorder;
use history_parts::SessionCounts;
use hsms_frame::Arrival;
use line_feeding::Notes;
use std::alloc::{AllocError, Global};
use tool_events::{Entry, Event};

// The bytes of a message of the host.
fn arrival_bytes(arrival: &Arrival) -> u64
    ensures { result ≡ arrival_bytes arrival.now }
{
    match arrival {
        Arrival::Frame(frame) => 14 + frame.text.as_slice().len() as u64,
        Arrival::TooLong(_, field) => 4 + *field as u64,
    }
}

// Counts the bytes that an event brings to its session. Sessions are numbered from 1.
fn count_event(event: &Event, counts: &mut SessionCounts) -> Result<(), AllocError>
    ensures { OnOk result ((k n : ℕ) → count_of counts.old k ≡ counted n → count_of counts.new k ≡ counted (n + numbered_bytes_in event.now k)) }
{
    let Event::Host { session, arrival } = event else {
        return Ok(());
    };
    if *session == 0 {
        return Ok(());
    }
    counts.make_room(*session)?;
    counts.add(*session, arrival_bytes(arrival));
    Ok(())
}

// The bytes that the messages of a history bring to each session.
fn counts_of(alloc: Global, history: &[Entry]) -> Result<SessionCounts, AllocError>
    ensures { IfOk result (λ counts. AreCounts counts (numbered_bytes history.now)) }
{
    let mut counts = SessionCounts::none(alloc);
    for entry in history {
        count_event(&entry.event, &mut counts)?;
    }
    Ok(counts)
}

/// A note for each session of this core, with the bytes of the messages that the history has of it.
pub fn notes_of<C: Recorder>(alloc: Global, core: &C) -> Result<Notes, AllocError>
    ensures { IfOk result (λ notes. AreNotes (C.view core.now).config (C.view core.now).history (bytes_told (C.view core.now).history) notes) }
{
    let counts = counts_of(alloc, core.history())?;
    session_notes(alloc, core, &counts)
}
