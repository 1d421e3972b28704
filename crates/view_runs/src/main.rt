//! Runs the program `gem300_view` with the words of each line of its file `runs.txt`, over the input that the line names, which lie in its
//! folder `data`, and prints what each run writes, its status and the text of its cause. Lines of items draw items, and read their words
//! again. It is a program of tests, and no part of the tool: a stored run of a program has one line of words and one input, and these are
//! many.
//!
//! A line is `WORDS < INPUT`, where the input is a file, or lines behind `=` with a semicolon between two; behind a comma `read 2 fails` or `write 3 fails` say which call is to fail. What `pcap` writes is printed in
//! hex, sixteen bytes a line. `items SEED COUNT` draws so many items.
#![tactic(auto)]

mod drawn;
mod runs;

use runs::run_lines;
use std::fs;
use std::process::ExitCode;

fn main(rt: HostRuntime) -> ExitCode {
    let Ok(text) = fs::read_to_string(&rt, "runs.txt") else {
        return ExitCode::from(1);
    };
    match run_lines(&rt, rt.alloc(), text.as_str()) {
        Ok(()) => ExitCode::from(0),
        Err(_) => ExitCode::from(1),
    }
}
