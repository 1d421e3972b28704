//! Runs in which one link comes up, whose peer is in memory and waits.

use crate::served::calls::run_serve;
use outside::{Point, SleepGate};
use std::alloc::{AllocError, Global};
use std::sync::Wait;
use std::thread::Threads;
use std::time;
use test_lines::tell_whether;
use test_peers::{
    Given, LinkSigns, PatientDoor, RestingHold, SELECT, StepClock, UNLIMITED, is_selected,
    local_and_quit_at, patient_door, quit_at, three_links_door,
};

// Runs what is given at this door. The host selects, but is read once a line of the operator was answered; the operator goes on once
// the host was answered.
fn run_held<'a, R: Threads + Wait + Sync + time::Clock>(
    rt: &'a R,
    alloc: Global,
    given: &Given,
    door: &mut PatientDoor<'a, R>,
    signs: &'a LinkSigns,
) -> Result<String, AllocError> {
    let mut script = local_and_quit_at(rt, alloc, &signs.wrote)?;
    let mut clock = StepClock::new(rt, 0);
    let gate = RestingHold::new(rt, Point::HostRead, Point::OperLine);
    run_serve(rt, alloc, given, door, &mut script, &mut clock, &gate)
}

/// Runs what is given, where host and operator act beside each other, and tells of it, and whether the select response went out.
pub fn run_both<R: Threads + Wait + Sync + time::Clock>(
    rt: &R,
    alloc: Global,
    given: &Given,
) -> Result<String, AllocError> {
    let signs = LinkSigns::new();
    let mut door = patient_door(rt, alloc, &SELECT, UNLIMITED, &signs)?;
    let mut told = run_held(rt, alloc, given, &mut door, &signs)?;
    tell_whether(&mut told, "selected", is_selected(&door))?;
    Ok(told)
}

/// Runs what is given, where each reading of the clock takes so many turns and gives this moment, a host comes at once and selects when
/// its peer sends, and the operator says `O local`, and `O quit` once the host was answered. Tells of it, and whether the select response
/// went out.
pub fn run_late<R: Threads + Wait + Sync + time::Clock>(
    rt: &R,
    alloc: Global,
    given: &Given,
    moment: u64,
    turns: u64,
) -> Result<String, AllocError> {
    let signs = LinkSigns::new();
    let mut door = patient_door(rt, alloc, &SELECT, given.limits, &signs)?;
    let mut script = local_and_quit_at(rt, alloc, &signs.wrote)?;
    let mut clock = StepClock::late(rt, moment, turns);
    let gate = SleepGate::new(rt);
    let mut told = run_serve(rt, alloc, given, &mut door, &mut script, &mut clock, &gate)?;
    tell_whether(&mut told, "selected", is_selected(&door))?;
    Ok(told)
}

// Runs what is given at this door. The clock goes on by so much at each look; the operator ends the run once the link was shut.
fn run_watched<'a, R: Threads + Wait + Sync + time::Clock>(
    rt: &'a R,
    alloc: Global,
    given: &Given,
    door: &mut PatientDoor<'a, R>,
    signs: &'a LinkSigns,
    step: u64,
) -> Result<String, AllocError> {
    let mut script = quit_at(rt, alloc, &signs.was_shut)?;
    let mut clock = StepClock::new(rt, step);
    let gate = SleepGate::new(rt);
    run_serve(rt, alloc, given, door, &mut script, &mut clock, &gate)
}

/// Runs what is given, where a peer sends what it has and then waits, the clock goes on by so many hundredths at each look, and the
/// operator ends the run once the link was shut. Tells of it.
pub fn run_sending<R: Threads + Wait + Sync + time::Clock>(
    rt: &R,
    alloc: Global,
    given: &Given,
    step: u64,
) -> Result<String, AllocError> {
    let signs = LinkSigns::new();
    let mut door = patient_door(rt, alloc, &given.peer, given.limits, &signs)?;
    run_watched(rt, alloc, given, &mut door, &signs, step)
}

/// Runs what is given, where three links come up one behind the other, whose peers send the same and then wait, and the operator ends the
/// run once the third was shut. Tells of it.
pub fn run_three<R: Threads + Wait + Sync + time::Clock>(
    rt: &R,
    alloc: Global,
    given: &Given,
) -> Result<String, AllocError> {
    let earlier = LinkSigns::new();
    let last = LinkSigns::new();
    let mut door = three_links_door(rt, alloc, given, &earlier, &last)?;
    run_watched(rt, alloc, given, &mut door, &last, 0)
}
