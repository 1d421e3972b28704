//! Parts of the tool that are timed, and a server and clients over TCP beside it. `bench/items.sh`, `bench/spool.sh`,
//! `bench/planner.sh`, `bench/hostile.sh` and `bench/serve.sh` run it; it is no part of the tool.
//!
//! The first word names what is measured, `items`, `spool`, `planner` or `cutter`, or is `echo`, `ask`, `trips`, `flow`, `press`, `visit`,
//! `stay` or `lot`, and those behind it say how (`item.rt`, `notes.rt`, `moves.rt`, `cut.rt`, `links.rt`). It prints how often it went well,
//! or what was measured. With the word `each` alone it does a
//! little of each, and prints the sum.
#![tactic(auto)]

mod cut;
mod item;
mod links;
mod moves;
mod notes;

use anyhow::{Result, bail};
use std::alloc::Global;
use std::env;
use std::net::{Net, TcpListener, TcpStream};
use std::process::ExitCode;
use std::thread::Threads;
use std::time::Clock;

// Measures the part of the tool that the words name.
fn measure_part(alloc: Global, what: &str, words: &[String]) -> Result<u64> {
    let [first, second, rest @ ..] = words else {
        bail!("the words are items, spool, planner or cutter, and what each takes");
    };
    let third = match rest {
        [third] => third.as_str(),
        _ => "",
    };
    let (first, second) = (first.as_str(), second.as_str());
    match what {
        "items" => item::measure(alloc, first, second, third.parse::<u64>()?),
        "spool" => notes::measure(
            alloc,
            first.parse::<u32>()?,
            second.parse::<u32>()?,
            third.parse::<u64>()?,
        ),
        "cutter" => cut::measure(
            alloc,
            first.parse::<u32>()?,
            second.parse::<u64>()?,
            third.parse::<u64>()?,
        ),
        "planner" => moves::measure(
            alloc,
            first.parse::<u8>()?,
            second.parse::<u64>()?,
            third.parse::<u8>()?,
        ),
        _ => bail!("there is no such measurement"),
    }
}

// Does what the words say. What it prints.
fn measure<R: Net<Listener = TcpListener, Stream = TcpStream> + Threads + Clock>(
    rt: &R,
    alloc: Global,
    words: &[String],
) -> Result<String> {
    let [_, what, rest @ ..] = words else {
        bail!("the first word says what is measured");
    };
    let count = match what.as_str() {
        "trips" => return links::trips(rt, alloc, rest),
        "flow" => links::flow(rt, alloc, rest)?,
        "echo" | "ask" | "press" | "visit" | "stay" | "lot" => {
            links::measure(rt, alloc, what.as_str(), rest)?
        }
        what => measure_part(alloc, what, rest)?,
    };
    Ok(format!(in alloc; "{count}")?)
}

// The program's words.
fn words(rt: &HostRuntime) -> Result<Vec<String>> {
    let mut words = Vec::new(rt.alloc());
    if let Ok(args) = env::args(rt) {
        for arg in args {
            words.push(arg)?;
        }
    }
    Ok(words)
}

// A little of each: 2 items, 6 notes, 4 moves, 14 bytes that are kept and 2 answers.
fn measure_each<R: Net<Listener = TcpListener, Stream = TcpStream> + Threads + Clock + Sync>(
    rt: &R,
    alloc: Global,
) -> Result<u64> {
    let items = item::measure(alloc, "decode", "list", 2)?;
    let notes = notes::measure(alloc, 3, 10, 2)?;
    let moves = moves::measure(alloc, 25, 4, 8)?;
    let kept = cut::measure(alloc, 7, 1000, 1)?;
    let answers = links::measure_twice(rt)?;
    Ok(
        items
            .saturating_add(notes)
            .saturating_add(moves)
            .saturating_add(kept)
            .saturating_add(answers),
    )
}

fn run<R: Net<Listener = TcpListener, Stream = TcpStream> + Threads + Clock + Sync>(
    rt: &R,
    alloc: Global,
    words: &[String],
) -> Result<String> {
    match words {
        [_, each] if each.as_str() == "each" => {
            let count = measure_each(rt, alloc)?;
            Ok(format!(in alloc; "{count}")?)
        }
        words => measure(rt, alloc, words),
    }
}

fn main(rt: HostRuntime) -> ExitCode {
    let outcome = match words(&rt) {
        Ok(words) => run(&rt, rt.alloc(), &words),
        Err(error) => Err(error),
    };
    match outcome {
        Ok(text) => {
            let _ = rt.println(text.as_str());
            ExitCode::SUCCESS
        }
        Err(error) => {
            let _ = rt.eprintln(error);
            ExitCode::from(1)
        }
    }
}
