//! Each actor in its seat.
ghost use Rattle.std.specs.Prelude.{◌≡◌, ◌≢◌};
ghost use Rattle.actors.specs.declared.end.ActorEnd.TheVariants as end;
ghost use Rattle.source_lines.specs.Reads.{source_told};
ghost use Rattle.actors.specs.Times.{TimeLooked};
ghost use Rattle.host_actor.specs.Links.{link_told, door_told};
ghost use Rattle.tool_crew.specs.Doings.{Operated, TimeWent, Worked};
ghost use Rattle.tool_crew.specs.Seating.{IsOf, Stays, posts_in, HostWorked};

use crate::seat::Seat;
use crate::seats::{host_seated, look_seated, module_seated, operate_seated, time_seated};
use actors::ActorEnd;
use history_laws::Recorder;
use host_actor::SessionBytes;
use outside::{Clock, Door, Gate, Source};
use shared_tool::{Held, Shared};
use std::alloc::Global;
use std::sync::Wait;
use std::thread::Threads;

/// The host actor takes the chairs of two seats, and gives them back. How it ended stands in the reader's seat.
pub fn host_in<C: Recorder + Send, R: Threads + Wait + Sync, X: Door, G: Gate + Sync>(
    rt: &R,
    alloc: Global,
    shared: &Shared<Held<C>>,
    door: &mut X,
    bytes: &mut Vec<SessionBytes>,
    gate: &G,
    reader: &mut Seat<Held<C>>,
    writer: &mut Seat<Held<C>>,
)
    requires { IsOf shared.now reader.old.chair × IsOf shared.now writer.old.chair }
    ensures { HostWorked (link_told X.In.left X.In.faults X.In.ends X.Out.held X.Out.faults X.Out.refusals X.Out.is_shut) shared.now
        (door_told X.left X.backs X.opened_at X.faults X.links X.waits X.closings door.old) (door_told X.left X.backs X.opened_at X.faults X.links X.waits X.closings door.new)
        reader.old reader.new writer.old writer.new bytes.old.items bytes.new.items }
{
    let Some(first) = reader.chair.take() else {
        unreachable!()
    };
    let Some(second) = writer.chair.take() else {
        unreachable!()
    };
    let ((first, second), end) = host_seated(rt, alloc, shared, first, second, door, bytes, gate);
    reader.chair = Some(first);
    writer.chair = Some(second);
    reader.end = end;
}

/// The operator takes the chair of its seat, and gives it back; beside that it gives how many bytes of the script were read.
pub fn operate_in<C: Recorder, W: Wait, S: Source, G: Gate>(
    rt: &W,
    alloc: Global,
    shared: &Shared<Held<C>>,
    script: &mut S,
    gate: &G,
    seat: &mut Seat<Held<C>>,
) -> u64
    requires { IsOf shared.now seat.old.chair }
    ensures same { Stays shared.now seat.old.chair seat.new.chair }
    ensures did { Operated (source_told S.left S.faults S.ends script.old) (source_told S.left S.faults S.ends script.new)
        (posts_in seat.old.chair) (posts_in seat.new.chair) result seat.new.end }
    ensures unfailed { seat.new.end ≢ end.ReadFault → S.faults script.new ≡ S.faults script.old }
{
    let Some(chair) = seat.chair.take() else {
        unreachable!()
    };
    let (chair, (end, count)) = operate_seated(rt, alloc, shared, chair, script, gate);
    seat.chair = Some(chair);
    seat.end = end;
    count
}

/// One look at the clock, from the chair of its seat, and how that ended the clock, if it did.
pub fn look_in<C: Recorder, W: Wait, T: Clock, G: Gate>(
    rt: &W,
    alloc: Global,
    shared: &Shared<Held<C>>,
    clock: &mut T,
    gate: &G,
    seat: &mut Seat<Held<C>>,
) -> Option<ActorEnd>
    requires { IsOf shared.now seat.old.chair }
    ensures same { Stays shared.now seat.old.chair seat.new.chair }
    ensures did { TimeLooked (T.given clock.old) (T.given clock.new) (posts_in seat.old.chair) (posts_in seat.new.chair) result }
{
    let Some(chair) = seat.chair.take() else {
        unreachable!()
    };
    let (chair, ended) = look_seated(rt, alloc, shared, chair, clock, gate);
    seat.chair = Some(chair);
    ended
}

/// The clock takes the chair of its seat, and gives it back. Where its first look ended it, it does nothing.
pub fn time_in<C: Recorder, W: Wait, T: Clock, G: Gate>(
    rt: &W,
    alloc: Global,
    shared: &Shared<Held<C>>,
    ended: Option<ActorEnd>,
    clock: &mut T,
    gate: &G,
    seat: &mut Seat<Held<C>>,
)
    requires { IsOf shared.now seat.old.chair }
    ensures same { Stays shared.now seat.old.chair seat.new.chair }
    ensures did { TimeWent ended (T.given clock.old) (T.given clock.new) (posts_in seat.old.chair) (posts_in seat.new.chair) seat.new.end }
{
    if let Some(end) = ended {
        seat.end = end;
        return;
    }
    let Some(chair) = seat.chair.take() else {
        unreachable!()
    };
    let (chair, end) = time_seated(rt, alloc, shared, chair, clock, gate);
    seat.chair = Some(chair);
    seat.end = end;
}

/// The module of this number takes the chair of its seat, and gives it back.
pub fn module_in<C: Recorder, W: Wait, G: Gate>(
    rt: &W,
    alloc: Global,
    shared: &Shared<Held<C>>,
    number: u8,
    gate: &G,
    seat: &mut Seat<Held<C>>,
)
    requires { IsOf shared.now seat.old.chair }
    ensures same { Stays shared.now seat.old.chair seat.new.chair }
    ensures did { Worked number (posts_in seat.old.chair) (posts_in seat.new.chair) seat.new.end }
{
    let Some(chair) = seat.chair.take() else {
        unreachable!()
    };
    let (chair, end) = module_seated(rt, alloc, shared, chair, number, gate);
    seat.chair = Some(chair);
    seat.end = end;
}
