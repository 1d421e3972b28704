//! The loop of the host actor.

ghost use Rattle.std.specs.Prelude.{◌≡◌, ◌≢◌, ◌⊎◌, ◌<◌, Err, vec_len, vec_capacity};
ghost use Rattle.host_actor.specs.Links.{DoorTold, door_told, link_told};
ghost use Rattle.host_actor.specs.Hosting.{HostDid};
ghost use Rattle.host_actor.specs.HostSteps.{Gave, SessionEnds, TurnDid};

use crate::bytes::SessionBytes;
use crate::posting::{await_link, close, end_run, link_up};
use crate::session::run_session;
use actors::ActorEnd;
use outside::{Door, Gate, Met, Point};
use std::alloc::Global;
use std::sync::Wait;
use std::thread::Threads;
use tool_events::Desk;

/// Accepts one link after another; on each it posts `LinkUp`, runs the reader and the writer of the session at once, and hands the
/// link back. A link whose `LinkUp` made no session is handed back too. It passes `Accept` before it asks the door.
///
/// Where no link has come up yet, and where the door is closed, it posts `Listen`, which tells whether the run has ended. Where it
/// has not, it passes `Idle` behind `NotYet` and asks again, and a closed door ends it. All is posted at moment 0, at the
/// reader's desk. The bytes of each session are put behind `bytes`.
///
/// `Quit`: `LinkUp` or `Listen` was answered `Ended`. `Door`: the door failed, or is closed while the run has not ended; behind it
/// the run is ended. `Full` and `NoMemory`: such a post was answered so, or a session's reader ended so, or else its writer; and
/// `NoMemory` too where there is no room for the bytes of one more session, behind which the run is ended.
pub fn run_host<R: Threads + Wait + Sync, D: Desk + Send, E: Desk + Send, X: Door, G: Gate + Sync>(
    rt: &R,
    alloc: Global,
    reader: &mut D,
    writer: &mut E,
    door: &mut X,
    bytes: &mut Vec<SessionBytes>,
    gate: &G,
) -> ActorEnd
    ensures did { HostDid (link_told X.In.left X.In.faults X.In.ends X.Out.held X.Out.faults X.Out.refusals X.Out.is_shut)
        (door_told X.left X.backs X.opened_at X.faults X.links X.waits X.closings door.old) (door_told X.left X.backs X.opened_at X.faults X.links X.waits X.closings door.new)
        (D.fulls reader.new) (D.wants reader.new) (D.posts reader.old) (D.posts reader.new) (E.posts writer.old) (E.posts writer.new)
        bytes.old.items bytes.new.items result }
    // One of its posts, or of its sessions' posts, was answered so.
    ensures full { result ≡ ActorEnd.Full → (0 < D.fulls reader.new) ⊎ (0 < E.fulls writer.new) }
    // At no other end did the door fail.
    ensures unfailed { result ≢ ActorEnd.Door → X.faults door.new ≡ X.faults door.old }
{
    for _ in rt.forever() {
        match host_turn(rt, alloc, reader, writer, door, bytes, gate) {
            Ok(()) => {}
            Err(end) => return end,
        }
    }
    unreachable!()
}

// One turn: the door is asked once, and what it answers is dealt with. The error is how the host actor ends.
fn host_turn<R: Threads + Wait + Sync, D: Desk + Send, E: Desk + Send, X: Door, G: Gate + Sync>(
    rt: &R,
    alloc: Global,
    reader: &mut D,
    writer: &mut E,
    door: &mut X,
    bytes: &mut Vec<SessionBytes>,
    gate: &G,
) -> Result<(), ActorEnd>
    ensures did { TurnDid (link_told X.In.left X.In.faults X.In.ends X.Out.held X.Out.faults X.Out.refusals X.Out.is_shut)
        (door_told X.left X.backs X.opened_at X.faults X.links X.waits X.closings door.old) (door_told X.left X.backs X.opened_at X.faults X.links X.waits X.closings door.new)
        (D.fulls reader.new) (D.wants reader.new) (D.posts reader.old) (D.posts reader.new) (E.posts writer.old) (E.posts writer.new)
        bytes.old.items bytes.new.items result }
    ensures full { result ≡ Err ActorEnd.Full → (0 < D.fulls reader.new) ⊎ (0 < E.fulls writer.new) }
    ensures unfailed { result ≢ Err ActorEnd.Door → X.faults door.new ≡ X.faults door.old }
{
    let Ok(()) = bytes.reserve(1) else {
        return Err(end_run(reader, ActorEnd::NoMemory));
    };
    gate.pass(Point::Accept);
    match door.accept() {
        Ok(Met::Link(link_in, link_out)) => meet(
            rt, alloc, reader, writer, door, bytes, gate, link_in, link_out,
        ),
        Ok(Met::NotYet) => await_link(reader, gate),
        Ok(Met::Closed) => Err(close(reader)),
        Err(_) => Err(end_run(reader, ActorEnd::Door)),
    }
}

// The rest of a turn in which the door gave a link: a session runs on it, unless none is made, and the link is handed back. There
// is room to note the bytes of the session.
fn meet<R: Threads + Wait + Sync, D: Desk + Send, E: Desk + Send, X: Door, G: Gate + Sync>(
    rt: &R,
    alloc: Global,
    reader: &mut D,
    writer: &mut E,
    door: &mut X,
    bytes: &mut Vec<SessionBytes>,
    gate: &G,
    mut link_in: X::In,
    mut link_out: X::Out,
) -> Result<(), ActorEnd>
    requires { vec_len bytes.old < vec_capacity bytes.old }
    ensures did { (before : DoorTold (X.In × X.Out))
        → Gave (link_in, link_out) before (door_told X.left X.backs X.opened_at X.faults X.links X.waits X.closings door.old)
        → TurnDid (link_told X.In.left X.In.faults X.In.ends X.Out.held X.Out.faults X.Out.refusals X.Out.is_shut)
        before (door_told X.left X.backs X.opened_at X.faults X.links X.waits X.closings door.new)
        (D.fulls reader.new) (D.wants reader.new) (D.posts reader.old) (D.posts reader.new) (E.posts writer.old) (E.posts writer.new)
        bytes.old.items bytes.new.items result }
    ensures full { result ≡ Err ActorEnd.Full → (0 < D.fulls reader.new) ⊎ (0 < E.fulls writer.new) }
    ensures faults { X.faults door.new ≡ X.faults door.old }
{
    let session = match link_up(reader) {
        Ok(session) => session,
        Err(end) => {
            door.back(link_in, link_out);
            return Err(end);
        }
    };
    let ended = run_session(
        rt,
        alloc,
        reader,
        writer,
        &mut link_in,
        &mut link_out,
        session,
        gate,
    );
    door.back(link_in, link_out);
    bytes.push_reserved(SessionBytes {
        session,
        read: ended.bytes_read,
        written: ended.bytes_written,
    });
    go_on(ended.reader, ended.writer)
}

// Whether the host actor goes on behind a session whose reader and writer ended so. The error is how it ends.
fn go_on(reader: ActorEnd, writer: ActorEnd) -> Result<(), ActorEnd>
    ensures { SessionEnds reader writer result }
{
    match (reader, writer) {
        (ActorEnd::Quit, ActorEnd::Quit) => Ok(()),
        (ActorEnd::Quit, _) => Err(writer),
        (_, _) => Err(reader),
    }
}
