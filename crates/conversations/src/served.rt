//! Runs of `serve`, to which the conversations of `served_runs.txt` say what they are given, and which they ask what they leave. They
//! begin with `to runs of serve`. What works on threads can't be called through a trait, so they are said here (`said`), and not by
//! `conversation_files`, which reads and counts them alone.
//!
//! Each run has all its actors on threads of their own: what is expected holds for every order of their turns, and whatever waits
//! gives up after 60,000 turns of a millisecond, so that each run ends.
//!
//! `words WORD ..` are the words of the command. `config`, `script` and `peer` are what the configuration, the script of the operator and a
//! peer have: behind them `line TEXT` adds a text and a line feed, `text |TEXT|` what stands between the bars, and `bytes 23 7` these bytes so
//! often; `peer_turns 400` lets the peer wait for so many turns before it sends. `config_fault 1`, `script_fault 1`, `log_fault 1`, `door_fault 1`, `peer_fault 1` and `answer_fault 1` let that read, write or call of
//! the door fail, where the last two are a read and a write of the link; and with `closed` a door in memory is closed behind its links.
//!
//! `run` runs what was given at a door without links; `run hasty` at one with a link, whose peer selects and goes away; `run both` with
//! a host that selects and is read once a line of the operator was answered, and an operator who says `O local`, and `O quit` once the
//! host was answered; `run sending` with a peer that sends what it has and then waits, and an operator who ends the run once the link was
//! shut; `run three` so with three links, one behind the other, whose peers send the same, and an operator who waits for the third; `run silent` with one
//! link, a clock that goes on, and a peer that sends nothing; `run late 500 200` as `run both` without holding the host, with
//! a clock that stays at that moment and takes so many turns at each reading;
//! `run visited 20000 7` over loopback, at a free port at most 5,000 above that number, with a host that asks 7 times 25 S1F1.
//!
//! Of the last run are asked `status`, `cause`, `entries`, `first seat` (of the first entry), `seat 0` to `seat 2` and `seats from 3` (to 9; what each posted),
//! `operator first` (in front of the first message of the host), `operator moment` (the tool's, at the first command of the operator), `notes` (how many), of session 1 `note 1` (why it ended) and `bytes 1`
//! (that came and went), and so of others, and `log`. At a door in memory `script left` tells how many bytes are left of the script, `port` at
//! which port a door without links was asked to listen, and `waits` how often it was asked too early. With a peer that goes away `front` tells whether the link was handed back and holds a front
//! of the select response, and `race` whether seat 0 posted what it may. `selected` tells whether the select response came, `windows` how
//! many windows were answered, and `ended by the tool` whether the tool ended the link.

mod calls;
mod links;
mod loopback;
mod memory;
mod said;
mod told;

use crate::served::links::{run_both, run_late, run_sending, run_three};
use crate::served::loopback::run_visited;
use crate::served::memory::{run_alone, run_hasty};
pub use said::{BEGINS, is_well_served};
use std::alloc::{AllocError, Global};
use std::net::{Net, TcpListener, TcpStream};
use std::sync::Wait;
use std::thread::Threads;
use std::time;
use test_lines::{add_line, answer_of};
use test_peers::{Given, free_port, give};

/// What the next run is given, and what the last one told.
pub struct Serves {
    given: Given,
    told: String,
}

// Written out, so that it is proved once.
impl Drop for Serves {
    fn drop(self) {
        let Serves {
            given: _given,
            told: _told,
        } = self;
    }
}

impl Serves {
    /// Nothing is given, and nothing has run.
    pub fn new(alloc: Global) -> Serves {
        Serves {
            given: Given::none(alloc),
            told: String::new(alloc),
        }
    }
}

/// What is answered to a line: where it asks, what the last run told, and else nothing, or why it says nothing.
pub fn answer<
    R: Net<Listener = TcpListener, Stream = TcpStream> + Threads + Wait + Sync + time::Clock,
>(rt: &R, alloc: Global, serves: &mut Serves, said: &str) -> Result<String, AllocError> {
    if let Some(answer) = answer_of(serves.told.as_str(), said) {
        return String::from_str(alloc, answer);
    }
    if take(rt, alloc, serves, said)? {
        Ok(String::new(alloc))
    } else {
        String::from_str(alloc, "it says nothing")
    }
}

// Does what is said. False: it says nothing.
fn take<R: Net<Listener = TcpListener, Stream = TcpStream> + Threads + Wait + Sync + time::Clock>(
    rt: &R,
    alloc: Global,
    serves: &mut Serves,
    said: &str,
) -> Result<bool, AllocError> {
    let (first, rest) = said.split_once(' ').unwrap_or((said, ""));
    if first == "run" {
        run(rt, alloc, serves, rest)
    } else {
        give(alloc, &mut serves.given, first, rest)
    }
}

// Runs what was given, in this way. False: there is none such.
fn run<R: Net<Listener = TcpListener, Stream = TcpStream> + Threads + Wait + Sync + time::Clock>(
    rt: &R,
    alloc: Global,
    serves: &mut Serves,
    way: &str,
) -> Result<bool, AllocError> {
    match ran(rt, alloc, &mut serves.given, way)? {
        Some(told) => {
            serves.told = told;
            Ok(true)
        }
        None => Ok(false),
    }
}

// Runs what is given in this way, and tells of it.
fn ran<R: Net<Listener = TcpListener, Stream = TcpStream> + Threads + Wait + Sync + time::Clock>(
    rt: &R,
    alloc: Global,
    given: &mut Given,
    way: &str,
) -> Result<Option<String>, AllocError> {
    let told = match way {
        "" => run_alone(rt, alloc, given)?,
        "hasty" => run_hasty(rt, alloc, given)?,
        "both" => run_both(rt, alloc, given)?,
        "sending" => run_sending(rt, alloc, given, 0)?,
        "three" => run_three(rt, alloc, given)?,
        "silent" => run_sending(rt, alloc, given, 100)?,
        _ => return ran_by_numbers(rt, alloc, given, way),
    };
    Ok(Some(told))
}

// Runs what is given in a way that has two numbers. `None`: there is none such.
fn ran_by_numbers<
    R: Net<Listener = TcpListener, Stream = TcpStream> + Threads + Wait + Sync + time::Clock,
>(rt: &R, alloc: Global, given: &mut Given, way: &str) -> Result<Option<String>, AllocError> {
    match late_of(way) {
        Some((moment, turns)) => {
            let told = run_late(rt, alloc, given, moment, turns)?;
            Ok(Some(told))
        }
        None => visited(rt, alloc, given, way),
    }
}

// The moment of a clock, and how many turns a reading takes.
fn late_of(way: &str) -> Option<(u64, u64)> {
    let (moment, turns) = way.strip_prefix("late ")?.split_once(' ')?;
    match (moment.parse::<u64>(), turns.parse::<u64>()) {
        (Ok(moment), Ok(turns)) => Some((moment, turns)),
        _ => None,
    }
}

// Runs what is given over loopback.
fn visited<
    R: Net<Listener = TcpListener, Stream = TcpStream> + Threads + Wait + Sync + time::Clock,
>(rt: &R, alloc: Global, given: &mut Given, way: &str) -> Result<Option<String>, AllocError> {
    let Some((first, windows)) = visit_of(way) else {
        return Ok(None);
    };
    let Some(port) = free_port(rt, first) else {
        return Ok(None);
    };
    let line = format!(in alloc; "tcp_port = {port}")?;
    add_line(&mut given.config, line.as_str())?;
    let told = run_visited(rt, alloc, given, port, windows)?;
    Ok(Some(told))
}

// The number above which a port is looked for, and how many windows are asked.
fn visit_of(way: &str) -> Option<(u16, u32)> {
    let (first, windows) = way.strip_prefix("visited ")?.split_once(' ')?;
    match (first.parse::<u16>(), windows.parse::<u32>()) {
        (Ok(first), Ok(windows)) => Some((first, windows)),
        _ => None,
    }
}
