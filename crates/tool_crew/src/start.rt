//! The first look at the clock, before any other actor begins.
ghost use Rattle.std.specs.Prelude.{◌≡◌, ◌≢◌, ◌+◌, ◌≤◌, length};
ghost use Rattle.actors.specs.declared.end.ActorEnd.TheVariants as end;
ghost use Rattle.source_lines.specs.Reads.{source_told};
ghost use Rattle.actors.specs.Times.{TimeDid};
ghost use Rattle.host_actor.specs.Links.{link_told, door_told};
ghost use Rattle.tool_crew.specs.Doings.{Operated};
ghost use Rattle.tool_crew.specs.Seating.{IsOf, Stays, posts_in, HostWorked, AllOf, AllWorked};

use crate::crew::run_at_once;
use crate::seat::Seat;
use crate::seated::look_in;
use history_laws::Recorder;
use host_actor::SessionBytes;
use outside::{Clock, Door, Gate, Source};
use shared_tool::{Held, Shared};
use std::alloc::Global;
use std::sync::Wait;
use std::thread::Threads;

/// Looks at the clock, and then runs all actors at once: so no door is asked and no script is read before the first reading of the
/// clock was posted. Gives how many bytes of the script were read.
pub fn run_all<
    C: Recorder + Send,
    R: Threads + Wait + Sync,
    X: Door + Send,
    S: Source + Send,
    T: Clock + Send,
    G: Gate + Sync,
>(
    rt: &R,
    alloc: Global,
    shared: &Shared<Held<C>>,
    gate: &G,
    door: &mut X,
    bytes: &mut Vec<SessionBytes>,
    reader: &mut Seat<Held<C>>,
    writer: &mut Seat<Held<C>>,
    script: &mut S,
    operator: &mut Seat<Held<C>>,
    clock: &mut T,
    time: &mut Seat<Held<C>>,
    modules: &mut [Seat<Held<C>>],
) -> u64
    requires host { IsOf shared.now reader.old.chair × IsOf shared.now writer.old.chair }
    requires operator { IsOf shared.now operator.old.chair }
    requires time { IsOf shared.now time.old.chair }
    requires modules { AllOf shared.now modules.old }
    requires few { 1 + length modules.old ≤ 256 }
    ensures hosted { HostWorked (link_told X.In.left X.In.faults X.In.ends X.Out.held X.Out.faults X.Out.refusals X.Out.is_shut) shared.now
        (door_told X.left X.backs X.opened_at X.faults X.links X.waits X.closings door.old) (door_told X.left X.backs X.opened_at X.faults X.links X.waits X.closings door.new)
        reader.old reader.new writer.old writer.new bytes.old.items bytes.new.items }
    ensures operator_same { Stays shared.now operator.old.chair operator.new.chair }
    ensures operated { Operated (source_told S.left S.faults S.ends script.old) (source_told S.left S.faults S.ends script.new)
        (posts_in operator.old.chair) (posts_in operator.new.chair) result operator.new.end }
    ensures script { operator.new.end ≢ end.ReadFault → S.faults script.new ≡ S.faults script.old }
    ensures time_same { Stays shared.now time.old.chair time.new.chair }
    ensures timed { TimeDid (T.given clock.old) (T.given clock.new) (posts_in time.old.chair) (posts_in time.new.chair) time.new.end }
    ensures worked { AllWorked shared.now 1 modules.old modules.new }
{
    let ended = look_in(rt, alloc, shared, clock, gate, time);
    run_at_once(
        rt, alloc, shared, gate, door, bytes, reader, writer, script, operator, ended, clock, time,
        modules,
    )
}
