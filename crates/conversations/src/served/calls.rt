//! How a run is called.

use crate::served::told::tell_ended;
use gem_ids::Text80;
use outside::{Clock, Door, Gate, MemSink, MemSource, Sink, Source};
use serving::serve;
use std::alloc::{AllocError, Global};
use std::sync::Wait;
use std::thread::Threads;
use test_peers::{Given, fails_of, source_of, tell_log};

// Calls `serve`, and tells how the run ended. It tells nothing of the contract of `serve`, which is long, so that all else is proved
// without it; and it alone calls `serve`, since each call takes long to prove.
fn call<
    R: Threads + Wait + Sync,
    X: Door + Send,
    S: Source + Send,
    T: Clock + Send,
    K: Sink,
    G: Gate + Sync,
>(
    rt: &R,
    alloc: Global,
    words: &[Text80],
    config: &mut MemSource,
    door: &mut X,
    script: &mut S,
    clock: &mut T,
    log: &mut K,
    gate: &G,
    told: &mut String,
) -> Result<(), AllocError> {
    let ended = serve(rt, alloc, words, config, door, script, clock, log, gate);
    tell_ended(alloc, told, &ended)
}

/// Runs what is given, with this door, script, clock and gate, and tells of it.
pub fn run_serve<
    R: Threads + Wait + Sync,
    X: Door + Send,
    S: Source + Send,
    T: Clock + Send,
    G: Gate + Sync,
>(
    rt: &R,
    alloc: Global,
    given: &Given,
    door: &mut X,
    script: &mut S,
    clock: &mut T,
    gate: &G,
) -> Result<String, AllocError> {
    let mut told = String::new(alloc);
    run_logged(rt, alloc, given, door, script, clock, gate, &mut told)?;
    Ok(told)
}

// The same, with what is told behind what was told before.
fn run_logged<
    R: Threads + Wait + Sync,
    X: Door + Send,
    S: Source + Send,
    T: Clock + Send,
    G: Gate + Sync,
>(
    rt: &R,
    alloc: Global,
    given: &Given,
    door: &mut X,
    script: &mut S,
    clock: &mut T,
    gate: &G,
    told: &mut String,
) -> Result<(), AllocError> {
    let mut config = source_of(alloc, &given.config, given.limits.config_fault)?;
    let mut log = MemSink::new(alloc, fails_of(alloc, given.limits.log_fault)?);
    call(
        rt,
        alloc,
        &given.words,
        &mut config,
        door,
        script,
        clock,
        &mut log,
        gate,
        told,
    )?;
    tell_log(alloc, told, log.as_bytes())
}
