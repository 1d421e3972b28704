//! Says the texts that stand in files to a durable spool over a disk in memory and to one in a file, and compares what it answers with what stands there: its
//! changes, a stop at each call of the disk, a fault of each, files that are cut short, and bytes that are changed. What is read of such a
//! disk is compared with what a reader by hand makes of its bytes. It is a program of tests, and no part of the tool; docs/TESTING.md says
//! how such a text is written, and the heads of `durable` and `in_file` which words are said.
#![tactic(auto)]

mod by_hand;
mod durable;
mod images;
mod in_file;
mod note_words;
mod trials;

use anyhow::{Result, bail};
use conversation_files::Line;
use durable::Durable;
use in_file::InFile;
use std::alloc::Global;
use std::process::ExitCode;
use test_lines::{Texts, answers, play_folder};

// The subjects.
#[derive(Drop)]
struct Spools<'a> {
    rt: &'a HostRuntime,
}

impl Texts for Spools<'_> {
    fn play(&self, alloc: Global, begins: &str, lines: &[Line<'_>]) -> Result<Option<String>> {
        match begins {
            "to a durable spool" => answers(alloc, &mut Durable::new(alloc), lines),
            "to a durable spool in a file" => answers(alloc, &mut InFile { rt: self.rt }, lines),
            _ => bail!("there is no such subject"),
        }
    }
}

fn main(rt: HostRuntime) -> ExitCode {
    play_folder(&rt, &Spools { rt: &rt })
}
