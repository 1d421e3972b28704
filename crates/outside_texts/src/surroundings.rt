//! What lies outside of the tool, and how it begins.

use crate::calls::Calls;
use crate::clocks::{Dated, Gated};
use crate::loopback::Loopback;
use crate::machine::Machine;
use crate::scripts::Scripted;
use crate::set_clock::SetClock;
use crate::waking::Waking;
use crate::words::point;
use anyhow::{Result, bail};
use conversation_files::Line;
use outside::{HoldGate, OpenGate, Point, RunSigns, SleepGate};
use std::alloc::Global;
use std::net::{Net, TcpListener, TcpStream};
use std::sync::Wait;
use std::time::Clock;
use test_lines::{Texts, answers};

/// What lies outside of the tool.
#[derive(Drop)]
pub struct Outside<'a, R> {
    pub host: &'a HostRuntime,
    pub rt: &'a R,
}

// Whether lines go as they are written; the fault of the first that does not.
type Played = Result<Option<String>>;

impl<R: Net<Listener = TcpListener, Stream = TcpStream> + Clock + Wait> Texts for Outside<'_, R> {
    fn play(&self, alloc: Global, begins: &str, lines: &[Line<'_>]) -> Result<Option<String>> {
        match begins {
            "to calls" => play_calls(alloc, lines),
            "to the machine" => answers(alloc, &mut Machine::new(self.host), lines),
            "to a door of the machine" => play_door(self.rt, alloc, lines),
            "to a script of the machine" => play_script(self.rt, alloc, lines),
            "to a gate that wakes" => play_waking(self.rt, alloc, lines),
            _ => match begins.strip_prefix("to a gate that ") {
                Some(words) => play_gate(alloc, words, lines),
                None => play_date(alloc, begins, lines),
            },
        }
    }
}

// Says lines to the libraries.
fn play_calls(alloc: Global, lines: &[Line<'_>]) -> Played {
    answers(alloc, &mut Calls::new(alloc)?, lines)
}

// Says lines to a door.
fn play_door<R: Net<Listener = TcpListener, Stream = TcpStream> + Clock>(
    rt: &R,
    alloc: Global,
    lines: &[Line<'_>],
) -> Played {
    let signs = RunSigns::new();
    answers(alloc, &mut Loopback::new(rt, alloc, &signs), lines)
}

// Says lines to a script.
fn play_script<R: Net<Listener = TcpListener, Stream = TcpStream>>(
    rt: &R,
    alloc: Global,
    lines: &[Line<'_>],
) -> Played {
    let signs = RunSigns::new();
    let Some(mut script) = Scripted::new(rt, &signs) else {
        bail!("there is no stream");
    };
    answers(alloc, &mut script, lines)
}

// Says lines to a gate that wakes.
fn play_waking<R: Wait + Clock>(rt: &R, alloc: Global, lines: &[Line<'_>]) -> Played {
    let signs = RunSigns::new();
    answers(alloc, &mut Waking::new(rt, &signs), lines)
}

// Says lines to the system's clock, at a date in milliseconds since 1970, after so many milliseconds.
fn play_date(alloc: Global, begins: &str, lines: &[Line<'_>]) -> Played {
    let Some(system) = dated(begins) else {
        bail!("there is no such subject");
    };
    answers(alloc, &mut Dated::new(&system), lines)
}

fn dated(begins: &str) -> Option<SetClock> {
    let words = begins.strip_prefix("to the system's clock at ")?;
    let (date, passed) = words.split_once(" after ").unwrap_or((words, "0"));
    let system = SetClock::at(date.parse::<u64>().ok()?);
    system.set(passed.parse::<u64>().ok()?);
    Some(system)
}

// Says lines to a gate.
fn play_gate(alloc: Global, words: &str, lines: &[Line<'_>]) -> Played {
    let system = &SetClock::at(0);
    match words {
        "is open" => play_at(alloc, system, OpenGate, lines),
        "sleeps" => play_at(alloc, system, SleepGate::new(system), lines),
        _ => play_held(alloc, system, words, lines),
    }
}

fn play_at<G: outside::Gate + Drop>(
    alloc: Global,
    system: &SetClock,
    gate: G,
    lines: &[Line<'_>],
) -> Played {
    answers(alloc, &mut Gated { system, gate }, lines)
}

// Says lines to a gate that holds who passes a point until another was passed.
fn play_held(alloc: Global, system: &SetClock, words: &str, lines: &[Line<'_>]) -> Played {
    let Some((held, until)) = points(words) else {
        bail!("there is no such gate");
    };
    play_at(alloc, system, HoldGate::new(system, held, until), lines)
}

fn points(words: &str) -> Option<(Point, Point)> {
    let (held, until) = words.strip_prefix("holds ")?.split_once(" until ")?;
    Some((point(held)?, point(until)?))
}
