//! Each actor at a chair, which it gives back.
ghost use Rattle.std.specs.Prelude.{◌≡◌, ◌≢◌, ◌<◌, []};
ghost use Rattle.tool_lock.specs.Passes.{pass_number, mine};
ghost use Rattle.sim_modules.specs.Acting.{begun};
ghost use Rattle.shared_tool.specs.Chairs.{config_of, IsChairOf};
ghost use Rattle.shared_tool.specs.Seats.{table_of, IsChairAt, posts_of};
ghost use Rattle.actors.specs.declared.end.ActorEnd.TheVariants as end;
ghost use Rattle.source_lines.specs.Reads.{source_told};
ghost use Rattle.actors.specs.Times.{TimeLooked, TimeDid};
ghost use Rattle.host_actor.specs.Links.{link_told, door_told};
ghost use Rattle.tool_crew.specs.Doings.{Hosted, Operated, Worked};

use actors::{ActorEnd, keep_time, look, operate, run_module};
use gem_ids::ModuleId;
use history_laws::Recorder;
use host_actor::{SessionBytes, run_host};
use outside::{Clock, Door, Gate, Source};
use shared_tool::{Chair, Held, Place, Shared, Sitting};
use sim_modules::SimModule;
use std::alloc::Global;
use std::marker::Brand;
use std::sync::Wait;
use std::thread::Threads;

// At the places that the caller picks.
fn host_at<
    J: Place + Send,
    L: Place + Send,
    C: Recorder + Send,
    R: Threads + Wait + Sync,
    X: Door,
    G: Gate + Sync,
>(
    rt: &R,
    alloc: Global,
    shared: &Shared<Held<C>>,
    first: Chair<C>,
    second: Chair<C>,
    door: &mut X,
    bytes: &mut Vec<SessionBytes>,
    gate: &G,
) -> ((Chair<C>, Chair<C>), ActorEnd)
    requires first { (table_of shared.now ≡ J.table) × (config_of shared.now ≡ J.config) × IsChairAt J.table J.config first × (pass_number first ≡ J.number) }
    requires second { (table_of shared.now ≡ L.table) × (config_of shared.now ≡ L.config) × IsChairAt L.table L.config second × (pass_number second ≡ L.number) }
    ensures first { IsChairAt J.table J.config result.0.0 × (pass_number result.0.0 ≡ J.number) }
    ensures second { IsChairAt L.table L.config result.0.1 × (pass_number result.0.1 ≡ L.number) }
    ensures did { Hosted (link_told X.In.left X.In.faults X.In.ends X.Out.held X.Out.faults X.Out.refusals X.Out.is_shut)
        (door_told X.left X.backs X.opened_at X.faults X.links X.waits X.closings door.old) (door_told X.left X.backs X.opened_at X.faults X.links X.waits X.closings door.new)
        (posts_of (mine first)) (posts_of (mine result.0.0)) (posts_of (mine second)) (posts_of (mine result.0.1)) bytes.old.items bytes.new.items result.1 }
    ensures unfailed { result.1 ≢ end.Door → X.faults door.new ≡ X.faults door.old }
{
    let mut reader: Sitting<R, J, Held<C>> = Sitting::sit(rt, alloc, shared, first);
    let mut writer: Sitting<R, L, Held<C>> = Sitting::sit(rt, alloc, shared, second);
    let end = run_host(rt, alloc, &mut reader, &mut writer, door, bytes, gate);
    ((reader.into_chair(), writer.into_chair()), end)
}

/// The host actor, at the chairs of reader and writer.
pub fn host_seated<C: Recorder + Send, R: Threads + Wait + Sync, X: Door, G: Gate + Sync>(
    rt: &R,
    alloc: Global,
    shared: &Shared<Held<C>>,
    first: Chair<C>,
    second: Chair<C>,
    door: &mut X,
    bytes: &mut Vec<SessionBytes>,
    gate: &G,
) -> ((Chair<C>, Chair<C>), ActorEnd)
    requires { IsChairOf shared.now first × IsChairOf shared.now second }
    ensures first { IsChairOf shared.now result.0.0 × (pass_number result.0.0 ≡ pass_number first) }
    ensures second { IsChairOf shared.now result.0.1 × (pass_number result.0.1 ≡ pass_number second) }
    ensures did { Hosted (link_told X.In.left X.In.faults X.In.ends X.Out.held X.Out.faults X.Out.refusals X.Out.is_shut)
        (door_told X.left X.backs X.opened_at X.faults X.links X.waits X.closings door.old) (door_told X.left X.backs X.opened_at X.faults X.links X.waits X.closings door.new)
        (posts_of (mine first)) (posts_of (mine result.0.0)) (posts_of (mine second)) (posts_of (mine result.0.1)) bytes.old.items bytes.new.items result.1 }
    ensures unfailed { result.1 ≢ end.Door → X.faults door.new ≡ X.faults door.old }
{
    host_at::<Brand, Brand, C, R, X, G>(rt, alloc, shared, first, second, door, bytes, gate)
}

// At the place that the caller picks.
fn operate_at<J: Place, C: Recorder, W: Wait, S: Source, G: Gate>(
    rt: &W,
    alloc: Global,
    shared: &Shared<Held<C>>,
    chair: Chair<C>,
    script: &mut S,
    gate: &G,
) -> (Chair<C>, (ActorEnd, u64))
    requires tool { (table_of shared.now ≡ J.table) × (config_of shared.now ≡ J.config) }
    requires chair { IsChairAt J.table J.config chair × (pass_number chair ≡ J.number) }
    ensures chair { IsChairAt J.table J.config result.0 × (pass_number result.0 ≡ J.number) }
    ensures did { Operated (source_told S.left S.faults S.ends script.old) (source_told S.left S.faults S.ends script.new)
        (posts_of (mine chair)) (posts_of (mine result.0)) result.1.1 result.1.0 }
    ensures unfailed { result.1.0 ≢ end.ReadFault → S.faults script.new ≡ S.faults script.old }
{
    let mut desk: Sitting<W, J, Held<C>> = Sitting::sit(rt, alloc, shared, chair);
    let ended = operate(rt, alloc, &mut desk, script, gate);
    (desk.into_chair(), ended)
}

/// The operator at its chair. Its end comes with the count of the bytes of the script that were read.
pub fn operate_seated<C: Recorder, W: Wait, S: Source, G: Gate>(
    rt: &W,
    alloc: Global,
    shared: &Shared<Held<C>>,
    chair: Chair<C>,
    script: &mut S,
    gate: &G,
) -> (Chair<C>, (ActorEnd, u64))
    requires { IsChairOf shared.now chair }
    ensures chair { IsChairOf shared.now result.0 × (pass_number result.0 ≡ pass_number chair) }
    ensures did { Operated (source_told S.left S.faults S.ends script.old) (source_told S.left S.faults S.ends script.new)
        (posts_of (mine chair)) (posts_of (mine result.0)) result.1.1 result.1.0 }
    ensures unfailed { result.1.0 ≢ end.ReadFault → S.faults script.new ≡ S.faults script.old }
{
    operate_at::<Brand, C, W, S, G>(rt, alloc, shared, chair, script, gate)
}

// At the place that the caller picks.
fn look_at<J: Place, C: Recorder, W: Wait, T: Clock, G: Gate>(
    rt: &W,
    alloc: Global,
    shared: &Shared<Held<C>>,
    chair: Chair<C>,
    clock: &mut T,
    gate: &G,
) -> (Chair<C>, Option<ActorEnd>)
    requires tool { (table_of shared.now ≡ J.table) × (config_of shared.now ≡ J.config) }
    requires chair { IsChairAt J.table J.config chair × (pass_number chair ≡ J.number) }
    ensures chair { IsChairAt J.table J.config result.0 × (pass_number result.0 ≡ J.number) }
    ensures did { TimeLooked (T.given clock.old) (T.given clock.new) (posts_of (mine chair)) (posts_of (mine result.0)) result.1 }
{
    let mut desk: Sitting<W, J, Held<C>> = Sitting::sit(rt, alloc, shared, chair);
    let ended = look(&mut desk, clock, gate);
    (desk.into_chair(), ended)
}

/// One look at the clock, at its chair, and how that ended the clock, if it did.
pub fn look_seated<C: Recorder, W: Wait, T: Clock, G: Gate>(
    rt: &W,
    alloc: Global,
    shared: &Shared<Held<C>>,
    chair: Chair<C>,
    clock: &mut T,
    gate: &G,
) -> (Chair<C>, Option<ActorEnd>)
    requires { IsChairOf shared.now chair }
    ensures chair { IsChairOf shared.now result.0 × (pass_number result.0 ≡ pass_number chair) }
    ensures did { TimeLooked (T.given clock.old) (T.given clock.new) (posts_of (mine chair)) (posts_of (mine result.0)) result.1 }
{
    look_at::<Brand, C, W, T, G>(rt, alloc, shared, chair, clock, gate)
}

// At the place that the caller picks.
fn time_at<J: Place, C: Recorder, W: Wait, T: Clock, G: Gate>(
    rt: &W,
    alloc: Global,
    shared: &Shared<Held<C>>,
    chair: Chair<C>,
    clock: &mut T,
    gate: &G,
) -> (Chair<C>, ActorEnd)
    requires tool { (table_of shared.now ≡ J.table) × (config_of shared.now ≡ J.config) }
    requires chair { IsChairAt J.table J.config chair × (pass_number chair ≡ J.number) }
    ensures chair { IsChairAt J.table J.config result.0 × (pass_number result.0 ≡ J.number) }
    ensures did { TimeDid (T.given clock.old) (T.given clock.new) (posts_of (mine chair)) (posts_of (mine result.0)) result.1 }
{
    let mut desk: Sitting<W, J, Held<C>> = Sitting::sit(rt, alloc, shared, chair);
    let end = keep_time(rt, &mut desk, clock, gate);
    (desk.into_chair(), end)
}

/// The clock at its chair, behind a look.
pub fn time_seated<C: Recorder, W: Wait, T: Clock, G: Gate>(
    rt: &W,
    alloc: Global,
    shared: &Shared<Held<C>>,
    chair: Chair<C>,
    clock: &mut T,
    gate: &G,
) -> (Chair<C>, ActorEnd)
    requires { IsChairOf shared.now chair }
    ensures chair { IsChairOf shared.now result.0 × (pass_number result.0 ≡ pass_number chair) }
    ensures did { TimeDid (T.given clock.old) (T.given clock.new) (posts_of (mine chair)) (posts_of (mine result.0)) result.1 }
{
    time_at::<Brand, C, W, T, G>(rt, alloc, shared, chair, clock, gate)
}

// At the place that the caller picks.
fn module_at<J: Place, C: Recorder, W: Wait, G: Gate>(
    rt: &W,
    alloc: Global,
    shared: &Shared<Held<C>>,
    chair: Chair<C>,
    number: u8,
    gate: &G,
) -> (Chair<C>, ActorEnd)
    requires tool { (table_of shared.now ≡ J.table) × (config_of shared.now ≡ J.config) }
    requires chair { IsChairAt J.table J.config chair × (pass_number chair ≡ J.number) }
    ensures chair { IsChairAt J.table J.config result.0 × (pass_number result.0 ≡ J.number) }
    ensures did { Worked number (posts_of (mine chair)) (posts_of (mine result.0)) result.1 }
{
    let mut desk: Sitting<W, J, Held<C>> = Sitting::sit(rt, alloc, shared, chair);
    let mut module = SimModule::without_failures(alloc, ModuleId(number));
    let end = run_module(rt, &mut desk, &mut module, gate);
    (desk.into_chair(), end)
}

/// The module of this number at its chair. It answers each command by Done.
pub fn module_seated<C: Recorder, W: Wait, G: Gate>(
    rt: &W,
    alloc: Global,
    shared: &Shared<Held<C>>,
    chair: Chair<C>,
    number: u8,
    gate: &G,
) -> (Chair<C>, ActorEnd)
    requires { IsChairOf shared.now chair }
    ensures chair { IsChairOf shared.now result.0 × (pass_number result.0 ≡ pass_number chair) }
    ensures did { Worked number (posts_of (mine chair)) (posts_of (mine result.0)) result.1 }
{
    module_at::<Brand, C, W, G>(rt, alloc, shared, chair, number, gate)
}
