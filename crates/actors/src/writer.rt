//! What the writer of a session does.

ghost use Rattle.std.specs.Prelude.{◌≡◌, ◌≢◌, ◌⊎◌, true};
ghost use Rattle.outside.specs.Counts.{Failed, Rose};
ghost use Rattle.actors.specs.Writes.{FaultPosted, FaultTold, WriterDid};
ghost use Rattle.actors.specs.declared.end.ActorEnd.TheVariants as end;

use crate::end::ActorEnd;
use gem_ids::Moment;
use outside::{Gate, LinkOut, Point, write_all};
use std::sync::Wait;
use tool_events::{Answer, Desk, Event, PostFault, SessionCause};

/// Takes the frames of a session, one after another, and writes each to the link. Where none waits, it flushes the link, passes
/// `NoFrame` and takes again. Where a write or a flush fails, or a write takes nothing of a piece, it posts that the link is down for
/// that cause. All is posted at moment 0. At its end it shuts the link, whatever the end is, and passes `SessionEnd`. It takes no
/// memory of its own, and posts nothing else.
///
/// `Quit`: its last post was answered `Ended`, or told that the link is down. `Full` and `NoMemory`: a post was answered so.
/// Beside its end it gives how many bytes it wrote, those of a frame whose write failed among them; the number stands still at
/// the greatest of 64 bits.
pub fn write_host<W: Wait, D: Desk, L: LinkOut, G: Gate>(
    rt: &W,
    desk: &mut D,
    link: &mut L,
    session: u64,
    gate: &G,
) -> (ActorEnd, u64)
    ensures did { WriterDid session (Failed (L.faults link.old) (L.faults link.new) (L.refusals link.old) (L.refusals link.new)) (L.held link.old) (L.held link.new) (D.posts desk.old) (D.posts desk.new) result.1 result.0 }
    ensures shut { L.is_shut link.new ≡ true }
    ensures unfailed { ((L.faults link.new ≡ L.faults link.old) × (L.refusals link.new ≡ L.refusals link.old)) ⊎ FaultTold session (D.posts desk.new) result.0 }
    ensures full { result.0 ≡ end.Full → Rose (D.fulls desk.old) (D.fulls desk.new) }
    ensures not_full { result.0 ≢ end.Full → D.fulls desk.new ≡ D.fulls desk.old }
    ensures want { result.0 ≡ end.NoMemory → Rose (D.wants desk.old) (D.wants desk.new) }
    ensures no_want { result.0 ≢ end.NoMemory → D.wants desk.new ≡ D.wants desk.old }
{
    let ended = write_frames(rt, desk, link, session, gate);
    link.shut();
    gate.pass(Point::SessionEnd);
    ended
}

// Takes frames and writes each, and tells where the link failed.
fn write_frames<W: Wait, D: Desk, L: LinkOut, G: Gate>(
    rt: &W,
    desk: &mut D,
    link: &mut L,
    session: u64,
    gate: &G,
) -> (ActorEnd, u64)
    ensures did { WriterDid session (Failed (L.faults link.old) (L.faults link.new) (L.refusals link.old) (L.refusals link.new)) (L.held link.old) (L.held link.new) (D.posts desk.old) (D.posts desk.new) result.1 result.0 }
    ensures unfailed { ((L.faults link.new ≡ L.faults link.old) × (L.refusals link.new ≡ L.refusals link.old)) ⊎ FaultTold session (D.posts desk.new) result.0 }
    ensures full { result.0 ≡ end.Full → Rose (D.fulls desk.old) (D.fulls desk.new) }
    ensures not_full { result.0 ≢ end.Full → D.fulls desk.new ≡ D.fulls desk.old }
    ensures want { result.0 ≡ end.NoMemory → Rose (D.wants desk.old) (D.wants desk.new) }
    ensures no_want { result.0 ≢ end.NoMemory → D.wants desk.new ≡ D.wants desk.old }
{
    let mut count: u64 = 0;
    for _ in rt.forever() {
        match desk.post(Moment(0), Event::Take { session }) {
            Ok(Answer::Frame(bytes)) => match write_all(link, bytes.as_slice()) {
                Ok(()) => count = count.saturating_add(bytes.as_slice().len() as u64),
                Err(fault) => {
                    let count = count.saturating_add(fault.written as u64);
                    return (tell_fault(desk, session), count);
                }
            },
            Ok(Answer::Ended) => return (ActorEnd::Quit, count),
            Err(PostFault::Again) => match link.flush() {
                Ok(()) => gate.pass(Point::NoFrame),
                Err(_) => return (tell_fault(desk, session), count),
            },
            Err(PostFault::Full(_)) => return (ActorEnd::Full, count),
            Err(PostFault::NoMemory) => return (ActorEnd::NoMemory, count),
            _ => unreachable!(),
        }
    }
    unreachable!()
}

// Tells that the link of the session is down, since it failed.
fn tell_fault<D: Desk>(desk: &mut D, session: u64) -> ActorEnd
    ensures posted { FaultPosted session (D.posts desk.old) (D.posts desk.new) result }
    ensures full { result ≡ end.Full → Rose (D.fulls desk.old) (D.fulls desk.new) }
    ensures not_full { result ≢ end.Full → D.fulls desk.new ≡ D.fulls desk.old }
    ensures want { result ≡ end.NoMemory → Rose (D.wants desk.old) (D.wants desk.new) }
    ensures no_want { result ≢ end.NoMemory → D.wants desk.new ≡ D.wants desk.old }
{
    let down = Event::LinkDown {
        session,
        cause: SessionCause::WriteFault,
    };
    match desk.post(Moment(0), down) {
        Ok(_) => ActorEnd::Quit,
        Err(PostFault::Full(_)) => ActorEnd::Full,
        Err(PostFault::NoMemory) => ActorEnd::NoMemory,
        Err(PostFault::Again) => unreachable!(),
    }
}
