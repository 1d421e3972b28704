//! How a program of one's own stands on libraries of the tool: it cuts the bytes of a host into frames (`hsms_frame`), prints each in
//! words with its item (`secs_items`), and drives a core by events (`tool_core`). It plays one short conversation, which
//! docs/profile/embedding.md goes through, and is no part of the tool. Begin with `tool.rt`.
#![tactic(auto)]

mod items;
mod messages;
mod tool;

use anyhow::{Result, bail};
use gem_ids::{CarrierId, PortNo, Text80};
use hsms_frame::Arrival;
use messages::words_of;
use std::process::ExitCode;
use tool::Driven;
use tool_events::{Event, Signal};

/// The configuration of the tool: the table of TOML that a file would have.
const CONFIGURATION: &str = "communication = \"communicating\"\n";

/// What the host sends at first, in pieces that do not end where a frame does: it selects, enables the event 803, and asks S1F1.
const FIRST: [&str; 3] = [
    "0000000AFFFF00000001000000010000",
    "00170000822500000000000201022501010101B104000003230000000A",
    "00008101000000000003",
];

/// What it sends when the carrier has come: it answers the event, and asks for the state of port 1 and for its carrier.
const THEN: [&str; 1] = [
    "0000000D0000060C00000000000121010000000018000081030000000000040102B1040000001FB10400000033",
];

fn print(rt: &HostRuntime, mark: &str, arrival: &Arrival) -> Result<()> {
    let words = words_of(rt.alloc(), arrival)?;
    println!(rt; "{mark} {words}")?;
    Ok(())
}

// What goes to the host, until nothing waits.
fn print_sent(rt: &HostRuntime, tool: &mut Driven) -> Result<()> {
    for arrival in tool.sent(rt.alloc())? {
        print(rt, ">", &arrival)?;
    }
    Ok(())
}

// The host sends a piece of its stream.
fn hear(rt: &HostRuntime, tool: &mut Driven, digits: &str) -> Result<()> {
    let piece = hex::decode(rt.alloc(), digits)?;
    for arrival in tool.cut(rt.alloc(), piece.as_slice())? {
        print(rt, "H", &arrival)?;
        tool.tell_host(rt.alloc(), arrival)?;
        print_sent(rt, tool)?;
    }
    Ok(())
}

// A carrier is placed at port 1, with a substrate in its first slot.
fn placed(name: &str) -> Result<Event> {
    let Ok(text) = Text80::read(name.as_bytes()) else {
        bail!("the name does not print");
    };
    let mut map = [1; 25];
    map[0] = 3;
    Ok(Event::Signal(Signal::Placed {
        port: PortNo(1),
        id: CarrierId::read(text),
        map,
    }))
}

fn play(rt: &HostRuntime) -> Result<()> {
    let mut tool = Driven::open(rt.alloc(), CONFIGURATION)?;
    for piece in FIRST {
        hear(rt, &mut tool, piece)?;
    }
    tool.tell(rt.alloc(), placed("CAR01")?)?;
    print_sent(rt, &mut tool)?;
    for piece in THEN {
        hear(rt, &mut tool, piece)?;
    }
    println!(rt; "{} entries", tool.entries())?;
    Ok(())
}

fn main(rt: HostRuntime) -> ExitCode {
    match play(&rt) {
        Ok(()) => ExitCode::SUCCESS,
        Err(_) => ExitCode::FAILURE,
    }
}
