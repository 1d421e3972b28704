//! Runs in which a host connects over loopback.

use crate::served::calls::run_serve;
use outside::{SleepGate, TcpDoor};
use std::alloc::{AllocError, Global};
use std::net::{Net, TcpListener, TcpStream};
use std::sync::Wait;
use std::thread::{Threads, join};
use std::time;
use test_peers::{Given, HostTold, Sign, StepClock, quit_at, tell_host, visit};

// The tool and the host at once, each in a thread of its own. The operator ends the run once the host is done.
fn beside<R: Net<Listener = TcpListener, Stream = TcpStream> + Threads + Wait + Sync + time::Clock>(
    rt: &R,
    alloc: Global,
    given: &Given,
    port: u16,
    windows: u32,
) -> Result<(String, HostTold), AllocError> {
    let is_done = Sign::new();
    let mut door = TcpDoor::new(rt);
    let mut script = quit_at(rt, alloc, &is_done)?;
    let mut clock = StepClock::new(rt, 0);
    let gate = SleepGate::new(rt);
    let (told, host) = join(
        rt,
        || run_serve(rt, alloc, given, &mut door, &mut script, &mut clock, &gate),
        || visit(rt, port, windows, &is_done),
    );
    Ok((told?, host))
}

/// Runs what is given, whose configuration has this port, and to which a host connects that selects, asks S1F1 in so many windows, and
/// waits until the tool ends the link. Tells of it, and what the host was told.
pub fn run_visited<
    R: Net<Listener = TcpListener, Stream = TcpStream> + Threads + Wait + Sync + time::Clock,
>(rt: &R, alloc: Global, given: &Given, port: u16, windows: u32) -> Result<String, AllocError> {
    let (mut told, host) = beside(rt, alloc, given, port, windows)?;
    tell_host(alloc, &mut told, host)?;
    Ok(told)
}
