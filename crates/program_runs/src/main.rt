//! Runs the program with the words of each line of its file `runs.txt`, which lie in its folder `data` beside the configurations that they
//! name, and prints behind what each run prints its status and the text of its cause. It is a program of tests, and no part of the tool:
//! a stored run of a program has one line of words, and these are many. The runs share one standard input, of which the first that reads
//! it has all.
#![tactic(auto)]

use program_calls::{Cause, run_words};
use std::alloc::{AllocError, Global};
use std::fs::{self, File};
use std::net::{Net, TcpListener, TcpStream};
use std::os::fd::AsRawFd;
use std::process::ExitCode;
use std::rt::{Clock, Files};
use std::sync::Wait;
use std::thread::Threads;

// The arguments of a line: the program's own name, and the words between blanks. `''` is an empty word.
fn arguments(alloc: Global, line: &str) -> Result<Vec<String>, AllocError> {
    let mut args = Vec::new(alloc);
    args.push(String::from_str(alloc, "gem300_tool")?)?;
    for word in line.split(' ') {
        if !word.is_empty() {
            let word = if word == "''" { "" } else { word };
            args.push(String::from_str(alloc, word)?)?;
        }
    }
    Ok(args)
}

// Prints the status of a cause, and its text, if it has one.
fn tell<R: Print>(rt: &R, alloc: Global, cause: Cause) -> Result<(), AllocError> {
    let status = cause.status();
    let text = match cause.text(alloc)? {
        Some(text) => format!(in alloc; "status {status}: {text}\n")?,
        None => format!(in alloc; "status {status}\n")?,
    };
    let _ = rt.print(text.as_str());
    Ok(())
}

// Runs the words of a line, and tells how that ended.
fn run_line<
    R: Threads
        + Wait
        + Sync
        + Files<File = File>
        + Input
        + Print
        + Eprint
        + Net<Listener = TcpListener, Stream = TcpStream>
        + Clock,
>(rt: &R, alloc: Global, line: &str) -> Result<(), AllocError>
where
    R::Reader: Send + AsRawFd,
{
    let args = arguments(alloc, line)?;
    let heading = format!(in alloc; "$ {line}\n")?;
    let _ = rt.print(heading.as_str());
    let cause = run_words(rt, alloc, &args)?;
    tell(rt, alloc, cause)
}

// Runs the words of each line that isn't empty.
fn run_lines<
    R: Threads
        + Wait
        + Sync
        + Files<File = File>
        + Input
        + Print
        + Eprint
        + Net<Listener = TcpListener, Stream = TcpStream>
        + Clock,
>(rt: &R, alloc: Global, text: &str) -> Result<(), AllocError>
where
    R::Reader: Send + AsRawFd,
{
    for line in text.lines() {
        if !line.is_empty() {
            run_line(rt, alloc, line)?;
        }
    }
    Ok(())
}

fn main(rt: HostRuntime) -> ExitCode {
    let Ok(text) = fs::read_to_string(&rt, "runs.txt") else {
        return ExitCode::from(1);
    };
    match run_lines(&rt, rt.alloc(), text.as_str()) {
        Ok(()) => ExitCode::from(0),
        Err(_) => ExitCode::from(1),
    }
}
