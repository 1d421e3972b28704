//! How the conversations of `served_runs.txt` are said to runs of `serve`.

use crate::served::{Serves, answer};
use std::alloc::{AllocError, Global};
use std::net::{Net, TcpListener, TcpStream};
use std::sync::Wait;
use std::thread::Threads;
use std::{fs, time};

/// The first line of each of them.
pub const BEGINS: &str = "to runs of serve";

// The file that has them.
const FILE: &str = "served_runs.txt";

// Says a line, and tells whether it is answered otherwise than stands there.
fn say<R: Net<Listener = TcpListener, Stream = TcpStream> + Threads + Wait + Sync + time::Clock>(
    rt: &R,
    alloc: Global,
    serves: &mut Serves,
    line: &str,
    faults: &mut String,
) -> Result<(), AllocError> {
    let (said, wanted) = line.split_once(" = ").unwrap_or((line, ""));
    let got = answer(rt, alloc, serves, said)?;
    if got.as_str() == wanted {
        return Ok(());
    }
    add_fault(faults, line, got.as_str())
}

// Tells a line that is answered otherwise, and what is answered.
fn add_fault(faults: &mut String, line: &str, got: &str) -> Result<(), AllocError> {
    faults.push_str(line)?;
    faults.push_str(": got ")?;
    faults.push_str(got)?;
    faults.push_str("\n")
}

// Whether a line is for the reader alone, or is the last one.
fn is_silent(line: &str) -> bool {
    line.is_empty() || line.starts_with('#') || line == BEGINS || line == "end"
}

// Says all lines of a text, and tells those that are answered otherwise. How many conversations it has.
fn play<R: Net<Listener = TcpListener, Stream = TcpStream> + Threads + Wait + Sync + time::Clock>(
    rt: &R,
    alloc: Global,
    text: &str,
    faults: &mut String,
) -> Result<usize, AllocError> {
    let mut serves = Serves::new(alloc);
    let mut count: usize = 0;
    for line in text.lines() {
        let line = line.trim_start();
        if line.starts_with("conversation ") {
            serves = Serves::new(alloc);
            count = count.saturating_add(1);
        } else if !is_silent(line) {
            say(rt, alloc, &mut serves, line, faults)?;
        }
    }
    Ok(count)
}

// Prints how many conversations were said, and tells on standard error what is answered otherwise.
fn is_well(rt: &HostRuntime, count: usize, faults: &str) -> bool {
    let printed = println!(rt; "{FILE}: {count} conversations were said");
    if printed.is_ok() && faults.is_empty() {
        return true;
    }
    let _ = eprintln!(rt; "{faults}");
    false
}

/// Says the conversations of the file `served_runs.txt` of the folder in which the program is run, prints how many there are, and tells on
/// standard error which lines are answered otherwise. False: some are, or the file can't be read.
pub fn is_well_served<
    R: Net<Listener = TcpListener, Stream = TcpStream> + Threads + Wait + Sync + time::Clock,
>(host: &HostRuntime, rt: &R) -> bool {
    let mut faults = String::new(host.alloc());
    let Ok(text) = fs::read_to_string(host, FILE) else {
        return is_well(host, 0, "it cannot be read");
    };
    match play(rt, host.alloc(), text.as_str(), &mut faults) {
        Ok(count) => is_well(host, count, faults.as_str()),
        Err(_) => is_well(host, 0, "there is no memory"),
    }
}
