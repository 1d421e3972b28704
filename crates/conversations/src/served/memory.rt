//! Runs at a door in memory at which no link comes up, or one whose peer goes away. The clock stays at 0, so that nothing is ever due.

use crate::served::calls::run_serve;
use outside::{MemDoor, SleepGate};
use std::alloc::{AllocError, Global};
use std::sync::Wait;
use std::thread::Threads;
use std::time;
use test_lines::{answer_of, tell_number, tell_whether};
use test_peers::{Given, StepClock, door_of, hasty_links, holds_a_front, is_race, source_of};

// Runs what is given at this door, and tells how many bytes are left of the script, and how often the door was asked too early.
fn run_at<R: Threads + Wait + Sync + time::Clock>(
    rt: &R,
    alloc: Global,
    given: &Given,
    door: &mut MemDoor,
) -> Result<String, AllocError> {
    let mut script = source_of(alloc, &given.script, given.limits.script_fault)?;
    let mut clock = StepClock::new(rt, 0);
    let gate = SleepGate::new(rt);
    let mut told = run_serve(rt, alloc, given, door, &mut script, &mut clock, &gate)?;
    tell_number(alloc, &mut told, "script left", script.left().len() as u64)?;
    Ok(told)
}

/// Runs what is given at a door without links, and tells of it, and the port at which the door was asked to listen, 0 where it was not.
pub fn run_alone<R: Threads + Wait + Sync + time::Clock>(
    rt: &R,
    alloc: Global,
    given: &Given,
) -> Result<String, AllocError> {
    let mut door = door_of(alloc, Vec::new(alloc), given.limits)?;
    let mut told = run_at(rt, alloc, given, &mut door)?;
    tell_number(alloc, &mut told, "port", door.port().unwrap_or(0).into())?;
    tell_number(alloc, &mut told, "waits", door.waits())?;
    Ok(told)
}

/// Runs what is given at a door with one link, whose peer selects and goes away, and tells of it; whether the link was handed back and
/// holds a front of the select response, and whether the host's reader posted what it may where the operator ends the run meanwhile.
pub fn run_hasty<R: Threads + Wait + Sync + time::Clock>(
    rt: &R,
    alloc: Global,
    given: &Given,
) -> Result<String, AllocError> {
    let mut door = door_of(alloc, hasty_links(alloc)?, given.limits)?;
    let mut told = run_at(rt, alloc, given, &mut door)?;
    tell_whether(&mut told, "front", holds_a_front(&door))?;
    let is_so = is_race(answer_of(told.as_str(), "seat 0"));
    tell_whether(&mut told, "race", is_so)?;
    Ok(told)
}
