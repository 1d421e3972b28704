//! The program for people who look rather than read (this tool's profile, docs/profile/view.md): `gem300_view words [CONFIG]` prints a
//! transcript in words, `gem300_view pcap [CONFIG]` writes it as a capture file, `gem300_view chart CONFIG` draws what happened to each
//! wafer of a run, and `gem300_view states TABLE` draws a state model.
//!
//! It hands its arguments, standard input and standard output to `view_calls::run_view`, says why the run ended on standard error, and
//! ends with its status.
#![tactic(auto)]

use line_feeding::Cause;
use outside::{StdinSource, StdoutSink};
use std::alloc::AllocError;
use std::process::ExitCode;
use std::{env, io};
use view_calls::run_view;

/// The arguments of the program, none where one of them is not UTF-8.
fn arguments(rt: &HostRuntime) -> Result<Vec<String>, AllocError> {
    let mut all = Vec::new(rt.alloc());
    match env::args(rt) {
        Ok(args) => {
            for arg in args {
                all.push(arg)?;
            }
            Ok(all)
        }
        Err(error) if matches!(error.kind(), io::ErrorKind::OutOfMemory) => Err(AllocError),
        Err(_) => Ok(all),
    }
}

/// Tells on standard error why the run ended, and answers its status.
fn tell(rt: &HostRuntime, cause: Cause) -> Result<u8, AllocError> {
    if let Some(text) = cause.text(rt.alloc())? {
        let _ = rt.eprintln(text.as_str());
    }
    Ok(cause.status())
}

/// Does what the arguments ask for, over standard input and standard output.
fn run(rt: &HostRuntime) -> Result<u8, AllocError> {
    let args = arguments(rt)?;
    let mut input = StdinSource::new(rt);
    let mut out = StdoutSink::new(rt);
    let cause = run_view(rt, rt.alloc(), &args, &mut input, &mut out)?;
    tell(rt, cause)
}

fn main(rt: HostRuntime) -> ExitCode {
    match run(&rt) {
        Ok(status) => ExitCode::from(status),
        Err(AllocError) => {
            let _ = rt.eprintln("no memory");
            ExitCode::from(7)
        }
    }
}
