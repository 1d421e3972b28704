//! The whole run.
ghost use Rattle.std.specs.Prelude.{◌≡◌, ◌≤◌, length, IfOk, OnErr};
ghost use Rattle.tool_events.specs.Configs.{IsConfig};
ghost use Rattle.source_lines.specs.Reads.{source_told};
ghost use Rattle.host_actor.specs.Links.{link_told, door_told};
ghost use Rattle.tool_crew.specs.Seating.{AllOf};
ghost use Rattle.tool_crew.specs.Crews.{outside, AreEnds, CrewDid};
ghost use Rattle.tool_crew.specs.Ran.{RunDid};

use crate::ends::Ends;
use crate::seat::Seat;
use crate::seating::{ends_of, seat_all, unseat_all};
use crate::start::run_all;
use history_laws::Recorder;
use host_actor::SessionBytes;
use outside::{Clock, Door, Gate, Source};
use shared_tool::{Held, NoMemory, Shared};
use std::alloc::Global;
use std::sync::Wait;
use std::thread::Threads;
use tool_events::Config;

/// What a run left: the core with the history, how the actors ended, the bytes of each session of the host, in order, and how many
/// bytes of the script were read.
#[derive(Drop)]
pub struct Ran<C: Recorder> {
    pub core: C,
    pub ends: Ends,
    pub sessions: Vec<SessionBytes>,
    pub script_bytes: u64,
}

// All actors in their seats.
fn run_crew<
    C: Recorder + Send,
    R: Threads + Wait + Sync,
    X: Door + Send,
    S: Source + Send,
    T: Clock + Send,
    G: Gate + Sync,
>(
    rt: &R,
    alloc: Global,
    shared: &Shared<Held<C>>,
    door: &mut X,
    bytes: &mut Vec<SessionBytes>,
    script: &mut S,
    clock: &mut T,
    gate: &G,
    seats: &mut [Seat<Held<C>>],
) -> u64
    requires four { 4 ≤ length seats.old }
    requires few { length seats.old ≤ 259 }
    requires all { AllOf shared.now seats.old }
    ensures did { CrewDid (link_told X.In.left X.In.faults X.In.ends X.Out.held X.Out.faults X.Out.refusals X.Out.is_shut) shared.now
        (outside (door_told X.left X.backs X.opened_at X.faults X.links X.waits X.closings door.old) (source_told S.left S.faults S.ends script.old) (T.given clock.old))
        (outside (door_told X.left X.backs X.opened_at X.faults X.links X.waits X.closings door.new) (source_told S.left S.faults S.ends script.new) (T.given clock.new))
        bytes.old.items bytes.new.items result seats.old seats.new }
{
    let Some((reader, rest)) = seats.split_first_mut() else {
        unreachable!()
    };
    let Some((writer, rest)) = rest.split_first_mut() else {
        unreachable!()
    };
    let Some((operator, rest)) = rest.split_first_mut() else {
        unreachable!()
    };
    let Some((time, modules)) = rest.split_first_mut() else {
        unreachable!()
    };
    run_all(
        rt, alloc, shared, gate, door, bytes, reader, writer, script, operator, clock, time,
        modules,
    )
}

// The same, of a list of seats, and how the actors in them ended.
fn run_seats<
    C: Recorder + Send,
    R: Threads + Wait + Sync,
    X: Door + Send,
    S: Source + Send,
    T: Clock + Send,
    G: Gate + Sync,
>(
    rt: &R,
    alloc: Global,
    shared: &Shared<Held<C>>,
    door: &mut X,
    bytes: &mut Vec<SessionBytes>,
    script: &mut S,
    clock: &mut T,
    gate: &G,
    seats: Vec<Seat<Held<C>>>,
) -> (Vec<Seat<Held<C>>>, (Ends, u64))
    requires four { 4 ≤ length seats.items }
    requires few { length seats.items ≤ 259 }
    requires all { AllOf shared.now seats.items }
    ensures did { CrewDid (link_told X.In.left X.In.faults X.In.ends X.Out.held X.Out.faults X.Out.refusals X.Out.is_shut) shared.now
        (outside (door_told X.left X.backs X.opened_at X.faults X.links X.waits X.closings door.old) (source_told S.left S.faults S.ends script.old) (T.given clock.old))
        (outside (door_told X.left X.backs X.opened_at X.faults X.links X.waits X.closings door.new) (source_told S.left S.faults S.ends script.new) (T.given clock.new))
        bytes.old.items bytes.new.items result.1.1 seats.items result.0.items }
    ensures ends { AreEnds result.0.items result.1.0 }
{
    let mut seats = seats;
    let count = run_crew(
        rt,
        alloc,
        shared,
        door,
        bytes,
        script,
        clock,
        gate,
        seats.as_mut_slice(),
    );
    let ends = ends_of(seats.as_slice());
    (seats, (ends, count))
}

/// Looks at the clock once, and then runs all actors over the core of this configuration, each on a thread of its own, until all have
/// ended.
///
/// `NoMemory`: there was no memory for the core, for the chairs or for their seats; then no actor ran.
pub fn run_tool<
    C: Recorder + Send,
    R: Threads + Wait + Sync,
    X: Door + Send,
    S: Source + Send,
    T: Clock + Send,
    G: Gate + Sync,
>(
    rt: &R,
    alloc: Global,
    config: &Config,
    door: &mut X,
    script: &mut S,
    clock: &mut T,
    gate: &G,
) -> Result<Ran<C>, NoMemory>
    requires { IsConfig config.now }
    ensures config { IfOk result (λ ran. (C.view ran.core).config ≡ config.now) }
    // What all actors did, and what the history has of it.
    ensures did { IfOk result (λ ran. RunDid (link_told X.In.left X.In.faults X.In.ends X.Out.held X.Out.faults X.Out.refusals X.Out.is_shut)
        (outside (door_told X.left X.backs X.opened_at X.faults X.links X.waits X.closings door.old) (source_told S.left S.faults S.ends script.old) (T.given clock.old))
        (outside (door_told X.left X.backs X.opened_at X.faults X.links X.waits X.closings door.new) (source_told S.left S.faults S.ends script.new) (T.given clock.new))
        config.now (C.view ran.core).history ran.sessions.items ran.script_bytes ran.ends) }
    // Where there was no memory, no actor ran.
    ensures door { OnErr result (door.new ≡ door.old) }
    ensures script { OnErr result (script.new ≡ script.old) }
    ensures time { OnErr result (clock.new ≡ clock.old) }
{
    let core = C::open(alloc, config)?;
    let count = core.module_count();
    let (shared, chairs) = Shared::open(alloc, core, 4 + count as u32)?;
    let room = Vec::with_capacity(alloc, chairs.len())?;
    let seats = seat_all(alloc, chairs)?;
    let mut sessions = Vec::new(alloc);
    let (seats, (ends, script_bytes)) = run_seats(
        rt,
        alloc,
        &shared,
        door,
        &mut sessions,
        script,
        clock,
        gate,
        seats,
    );
    let chairs = unseat_all(&shared, seats, room);
    let core = shared.close(chairs);
    // That it is within the limits is said by its history.
    let _ = core.history();
    Ok(Ran {
        core,
        ends,
        sessions,
        script_bytes,
    })
}
