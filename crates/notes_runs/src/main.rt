//! Says the texts that stand in files to the command `notes`, over a disk in memory, and compares what it prints, how it ends and what is on the
//! disk then with what stands there. It is a program of tests, and no part of the tool; docs/TESTING.md says how such a text is written,
//! and the head of `subject` which words are said.
#![tactic(auto)]

mod subject;

use anyhow::{Result, bail};
use conversation_files::Line;
use std::alloc::Global;
use std::process::ExitCode;
use subject::Run;
use test_lines::{Texts, answers, play_folder};

// The subject.
struct Runs;

impl Texts for Runs {
    fn play(&self, alloc: Global, begins: &str, lines: &[Line<'_>]) -> Result<Option<String>> {
        match begins {
            "to notes" => answers(alloc, &mut Run::new(alloc), lines),
            _ => bail!("there is no such subject"),
        }
    }
}

fn main(rt: HostRuntime) -> ExitCode {
    play_folder(&rt, &Runs)
}
