//! The program: `gem300_tool feed CONFIG` reads lines from standard input and prints lines (docs/profile/lines.md), `gem300_tool
//! batch SEED CARRIERS CONFIG` processes so many carriers by itself (docs/profile/batch.md), `gem300_tool serve CONFIG` listens for a
//! host (docs/profile/serve.md), `gem300_tool notes FILE` keeps notes in a durable spool (docs/profile/durable_spool.md), and `--help` and
//! `--version` tell of it (docs/profile/words.md).
//!
//! It hands its arguments to `program_calls::run_words`, says why the run ended on standard error, and ends with its status.
#![tactic(auto)]

use program_calls::{Cause, run_words};
use std::alloc::AllocError;
use std::process::ExitCode;
use std::{env, io};

/// The arguments of the program, none where one of them is not UTF-8.
fn arguments(rt: &HostRuntime) -> Result<Vec<String>, AllocError> {
    let mut all = Vec::new(rt.alloc());
    match env::args(rt) {
        Ok(args) => {
            for arg in args {
                all.push(arg)?;
            }
            Ok(all)
        }
        Err(error) if matches!(error.kind(), io::ErrorKind::OutOfMemory) => Err(AllocError),
        Err(_) => Ok(all),
    }
}

/// Tells on standard error why the run ended, and answers its status.
fn tell(rt: &HostRuntime, cause: Cause) -> Result<u8, AllocError> {
    if let Some(text) = cause.text(rt.alloc())? {
        let _ = rt.eprintln(text.as_str());
    }
    Ok(cause.status())
}

/// There is no memory: tells so, and ends with status 7.
fn no_memory(rt: &HostRuntime) -> ExitCode {
    let _ = rt.eprintln("no memory");
    ExitCode::from(7)
}

fn main(rt: HostRuntime) -> ExitCode {
    let Ok(args) = arguments(&rt) else {
        return no_memory(&rt);
    };
    let Ok(cause) = run_words(&rt, rt.alloc(), &args) else {
        return no_memory(&rt);
    };
    match tell(&rt, cause) {
        Ok(status) => ExitCode::from(status),
        Err(_) => no_memory(&rt),
    }
}
