//! The text that events hold, the ends of sessions, and the bytes that went out in each.
ghost use Rattle.std.specs.Prelude.{ℕ, ◌≡◌, ◌≤◌, ◌+◌, ◌^◌, ◌<◌, ◌++◌, length, OnOk, IfSome, vec_len, vec_capacity, slice_get, option_map};
ghost use Rattle.std.specs.Option.{option_to_list};
ghost use Rattle.tool_events.specs.declared.event.SessionEnd.{SessionEnd};
ghost use Rattle.tool_events.specs.Sizes.{event_bytes};
ghost use Rattle.gem_model.specs.Sessions.{frame_taken};
ghost use Rattle.gem_model.specs.Sizes.{counted};
ghost use Rattle.history_parts.specs.Counts.{count_of, taker};

use crate::counts::SessionCounts;
use hsms_frame::Arrival;
use std::alloc::AllocError;
use tool_events::{Answer, Event, SessionCause, SessionEnd};

/// How much text an event holds, in bytes: that of a frame of the host. One that is too long holds none.
pub fn event_bytes(event: &Event) -> u64
    ensures value { result ≡ event_bytes event.now }
    ensures short { result < 2 ^ 63 }
{
    match event {
        Event::Host {
            arrival: Arrival::Frame(frame),
            ..
        } => frame.text.as_slice().len() as u64,
        _ => 0,
    }
}

/// Adds the session that ended, where one did.
pub fn add_end(ends: &mut Vec<SessionEnd>, ended: Option<SessionEnd>)
    requires { vec_len ends.old < vec_capacity ends.old }
    ensures { ends.new.items ≡ ends.old.items ++ option_to_list ended }
{
    if let Some(end) = ended {
        ends.push_reserved(end);
    }
}

/// The cause of the end at this place, where there is one.
pub fn cause_at(ends: &[SessionEnd], place: usize) -> Option<SessionCause>
    ensures { result ≡ option_map (λ (e : SessionEnd). e.cause) (slice_get ends.now place) }
{
    let end = ends.get(place)?;
    Some(end.cause)
}

/// Makes room for the count of this session, where there is one.
pub fn make_room(counts: &mut SessionCounts, session: Option<u64>) -> Result<(), AllocError>
    ensures counts { (k : ℕ) → count_of counts.new k ≡ count_of counts.old k }
    ensures room { OnOk result (IfSome session (λ k. k ≤ length counts.new)) }
{
    match session {
        Some(session) => counts.make_room(session),
        None => Ok(()),
    }
}

/// Adds the bytes of a frame to the count of the session whose writer took it.
pub fn add_taken(counts: &mut SessionCounts, event: &Event, answer: &Answer)
    requires { IfSome (taker event.now answer.now) (λ session. (0 < session) × (session ≤ length counts.old)) }
    ensures { (k n : ℕ) → count_of counts.old k ≡ counted n → count_of counts.new k ≡ counted (n + length (frame_taken event.now answer.now k)) }
{
    match (event, answer) {
        (Event::Take { session }, Answer::Frame(frame)) => {
            counts.add(*session, frame.as_slice().len() as u64);
        }
        _ => {}
    }
}
