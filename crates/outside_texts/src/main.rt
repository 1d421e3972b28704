//! Says the texts that stand in files to what the program takes from the machine: files, standard input and output, a script, clocks, gates,
//! and a door with its links over TCP (`outside`). It compares what they answer with what stands there. It is a program of tests, and no part
//! of the tool; docs/TESTING.md says how such a text is written, and the head of each file here which words are said. Begin with
//! `surroundings`. `calls` says besides what the libraries are asked that the program itself does not ask.
//!
//! It takes each file of the folder in which it is run, in the order of their names, and prints a line for each: its name,
//! and how many conversations it has. Where a file cannot be read, or one of them goes otherwise, it says on standard error
//! which and where, and ends with status 1.
#![tactic(auto)]

mod calls;
mod clocks;
mod loopback;
mod machine;
mod replies;
mod scripts;
mod set_clock;
mod surroundings;
mod waking;
mod words;

use std::process::ExitCode;
use surroundings::Outside;
use test_lines::play_folder;

fn main(rt: HostRuntime) -> ExitCode {
    play_folder(&rt, &Outside { host: &rt, rt: &rt })
}
