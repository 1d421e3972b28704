//! All actors, each on a thread of its own. The operator is innermost: where no thread can be started, it runs first.
ghost use Rattle.std.specs.Prelude.{◌≡◌, ◌≢◌, ◌+◌, ◌≤◌, length};
ghost use Rattle.std.specs.Thread.{IsSync};
ghost use Rattle.actors.specs.declared.end.ActorEnd.TheVariants as end;
ghost use Rattle.source_lines.specs.Reads.{source_told};
ghost use Rattle.host_actor.specs.Links.{link_told, door_told};
ghost use Rattle.tool_crew.specs.Doings.{Operated, TimeWent, Worked};
ghost use Rattle.tool_crew.specs.Seating.{IsOf, Stays, posts_in, HostWorked, AllOf, AllWorked};

use crate::seat::Seat;
use crate::seated::{host_in, module_in, operate_in, time_in};
use actors::ActorEnd;
use history_laws::Recorder;
use host_actor::SessionBytes;
use outside::{Clock, Door, Gate, Source};
use shared_tool::{Held, Shared};
use std::alloc::Global;
use std::sync::Wait;
use std::thread::{Threads, join_mut};

/// The modules, the first of which has this number, each on a thread of its own, and the operator on the last one.
pub fn run_modules<C: Recorder + Send, R: Threads + Wait + Sync, S: Source + Send, G: Gate + Sync>(
    rt: &R,
    alloc: Global,
    shared: &Shared<Held<C>>,
    gate: &G,
    script: &mut S,
    operator: &mut Seat<Held<C>>,
    number: u16,
    seats: &mut [Seat<Held<C>>],
) -> u64
    requires operator { IsOf shared.now operator.old.chair }
    requires modules { AllOf shared.now seats.old }
    requires few { number + length seats.old ≤ 256 }
    ensures operator_same { Stays shared.now operator.old.chair operator.new.chair }
    ensures operated { Operated (source_told S.left S.faults S.ends script.old) (source_told S.left S.faults S.ends script.new)
        (posts_in operator.old.chair) (posts_in operator.new.chair) result operator.new.end }
    ensures unfailed { operator.new.end ≢ end.ReadFault → S.faults script.new ≡ S.faults script.old }
    ensures worked { AllWorked shared.now number seats.old seats.new }
{
    let Some((first, rest)) = seats.split_first_mut() else {
        return operate_in(rt, alloc, shared, script, gate, operator);
    };
    // (Made first, since it borrows more: else the borrow checker loses what became of both.)
    let mut others = || -> u64
        requires sync { IsSync R.row × IsSync G.row }
        requires operator { IsOf shared.now operator.now.chair }
        requires modules { AllOf shared.now rest.now }
        requires few { number + 1 + length rest.now ≤ 256 }
        ensures operator_same { Stays shared.entry.now operator.entry.now.chair operator.exit.now.chair }
        ensures operated { Operated (source_told S.left S.faults S.ends script.entry.now) (source_told S.left S.faults S.ends script.exit.now)
            (posts_in operator.entry.now.chair) (posts_in operator.exit.now.chair) result operator.exit.now.end }
        ensures unfailed { operator.exit.now.end ≢ end.ReadFault → S.faults script.exit.now ≡ S.faults script.entry.now }
        ensures worked { AllWorked shared.entry.now (number + 1) rest.entry.now rest.exit.now }
    { run_modules(rt, alloc, shared, gate, script, operator, number + 1, rest) };
    let mut one = ||
        requires chair { IsOf shared.now first.now.chair }
        requires few { number + 1 ≤ 256 }
        ensures same { Stays shared.entry.now first.entry.now.chair first.exit.now.chair }
        ensures did { Worked number (posts_in first.entry.now.chair) (posts_in first.exit.now.chair) first.exit.now.end }
    { module_in(rt, alloc, shared, number as u8, gate, first) };
    let (_, count) = join_mut(rt, &mut one, &mut others);
    count
}

// The clock behind its first look, the modules and the operator.
fn run_others<
    C: Recorder + Send,
    R: Threads + Wait + Sync,
    S: Source + Send,
    T: Clock + Send,
    G: Gate + Sync,
>(
    rt: &R,
    alloc: Global,
    shared: &Shared<Held<C>>,
    gate: &G,
    script: &mut S,
    operator: &mut Seat<Held<C>>,
    ended: Option<ActorEnd>,
    clock: &mut T,
    time: &mut Seat<Held<C>>,
    modules: &mut [Seat<Held<C>>],
) -> u64
    requires operator { IsOf shared.now operator.old.chair }
    requires time { IsOf shared.now time.old.chair }
    requires modules { AllOf shared.now modules.old }
    requires few { 1 + length modules.old ≤ 256 }
    ensures operator_same { Stays shared.now operator.old.chair operator.new.chair }
    ensures operated { Operated (source_told S.left S.faults S.ends script.old) (source_told S.left S.faults S.ends script.new)
        (posts_in operator.old.chair) (posts_in operator.new.chair) result operator.new.end }
    ensures unfailed { operator.new.end ≢ end.ReadFault → S.faults script.new ≡ S.faults script.old }
    ensures time_same { Stays shared.now time.old.chair time.new.chair }
    ensures timed { TimeWent ended (T.given clock.old) (T.given clock.new) (posts_in time.old.chair) (posts_in time.new.chair) time.new.end }
    ensures worked { AllWorked shared.now 1 modules.old modules.new }
{
    // (Made first, as above.)
    let mut others = || -> u64
        requires operator { IsOf shared.now operator.now.chair }
        requires modules { AllOf shared.now modules.now }
        requires few { 1 + length modules.now ≤ 256 }
        ensures operator_same { Stays shared.entry.now operator.entry.now.chair operator.exit.now.chair }
        ensures operated { Operated (source_told S.left S.faults S.ends script.entry.now) (source_told S.left S.faults S.ends script.exit.now)
            (posts_in operator.entry.now.chair) (posts_in operator.exit.now.chair) result operator.exit.now.end }
        ensures unfailed { operator.exit.now.end ≢ end.ReadFault → S.faults script.exit.now ≡ S.faults script.entry.now }
        ensures worked { AllWorked shared.entry.now 1 modules.entry.now modules.exit.now }
    { run_modules(rt, alloc, shared, gate, script, operator, 1, modules) };
    let mut timed = ||
        requires { IsOf shared.now time.now.chair }
        ensures same { Stays shared.entry.now time.entry.now.chair time.exit.now.chair }
        ensures did { TimeWent ended (T.given clock.entry.now) (T.given clock.exit.now) (posts_in time.entry.now.chair) (posts_in time.exit.now.chair) time.exit.now.end }
    { time_in(rt, alloc, shared, ended, clock, gate, time) };
    let (_, count) = join_mut(rt, &mut timed, &mut others);
    count
}

/// All actors at once, behind the first look at the clock, by how that ended the clock, if it did. Gives how many bytes of the script were
/// read.
pub fn run_at_once<
    C: Recorder + Send,
    R: Threads + Wait + Sync,
    X: Door + Send,
    S: Source + Send,
    T: Clock + Send,
    G: Gate + Sync,
>(
    rt: &R,
    alloc: Global,
    shared: &Shared<Held<C>>,
    gate: &G,
    door: &mut X,
    bytes: &mut Vec<SessionBytes>,
    reader: &mut Seat<Held<C>>,
    writer: &mut Seat<Held<C>>,
    script: &mut S,
    operator: &mut Seat<Held<C>>,
    ended: Option<ActorEnd>,
    clock: &mut T,
    time: &mut Seat<Held<C>>,
    modules: &mut [Seat<Held<C>>],
) -> u64
    requires host { IsOf shared.now reader.old.chair × IsOf shared.now writer.old.chair }
    requires operator { IsOf shared.now operator.old.chair }
    requires time { IsOf shared.now time.old.chair }
    requires modules { AllOf shared.now modules.old }
    requires few { 1 + length modules.old ≤ 256 }
    ensures hosted { HostWorked (link_told X.In.left X.In.faults X.In.ends X.Out.held X.Out.faults X.Out.refusals X.Out.is_shut) shared.now
        (door_told X.left X.backs X.opened_at X.faults X.links X.waits X.closings door.old) (door_told X.left X.backs X.opened_at X.faults X.links X.waits X.closings door.new)
        reader.old reader.new writer.old writer.new bytes.old.items bytes.new.items }
    ensures operator_same { Stays shared.now operator.old.chair operator.new.chair }
    ensures operated { Operated (source_told S.left S.faults S.ends script.old) (source_told S.left S.faults S.ends script.new)
        (posts_in operator.old.chair) (posts_in operator.new.chair) result operator.new.end }
    ensures script { operator.new.end ≢ end.ReadFault → S.faults script.new ≡ S.faults script.old }
    ensures time_same { Stays shared.now time.old.chair time.new.chair }
    ensures timed { TimeWent ended (T.given clock.old) (T.given clock.new) (posts_in time.old.chair) (posts_in time.new.chair) time.new.end }
    ensures worked { AllWorked shared.now 1 modules.old modules.new }
{
    // (Made first, as above.)
    let mut others = || -> u64
        requires operator { IsOf shared.now operator.now.chair }
        requires time { IsOf shared.now time.now.chair }
        requires modules { AllOf shared.now modules.now }
        requires few { 1 + length modules.now ≤ 256 }
        ensures operator_same { Stays shared.entry.now operator.entry.now.chair operator.exit.now.chair }
        ensures operated { Operated (source_told S.left S.faults S.ends script.entry.now) (source_told S.left S.faults S.ends script.exit.now)
            (posts_in operator.entry.now.chair) (posts_in operator.exit.now.chair) result operator.exit.now.end }
        ensures unfailed { operator.exit.now.end ≢ end.ReadFault → S.faults script.exit.now ≡ S.faults script.entry.now }
        ensures time_same { Stays shared.entry.now time.entry.now.chair time.exit.now.chair }
        ensures timed { TimeWent ended (T.given clock.entry.now) (T.given clock.exit.now) (posts_in time.entry.now.chair) (posts_in time.exit.now.chair) time.exit.now.end }
        ensures worked { AllWorked shared.entry.now 1 modules.entry.now modules.exit.now }
    {
        run_others(
            rt, alloc, shared, gate, script, operator, ended, clock, time, modules,
        )
    };
    let mut hosted = ||
        requires { IsOf shared.now reader.now.chair × IsOf shared.now writer.now.chair }
        ensures { HostWorked (link_told X.In.left X.In.faults X.In.ends X.Out.held X.Out.faults X.Out.refusals X.Out.is_shut) shared.entry.now
            (door_told X.left X.backs X.opened_at X.faults X.links X.waits X.closings door.entry.now) (door_told X.left X.backs X.opened_at X.faults X.links X.waits X.closings door.exit.now)
            reader.entry.now reader.exit.now writer.entry.now writer.exit.now bytes.entry.now.items bytes.exit.now.items }
    { host_in(rt, alloc, shared, door, bytes, gate, reader, writer) };
    let (_, count) = join_mut(rt, &mut hosted, &mut others);
    count
}
