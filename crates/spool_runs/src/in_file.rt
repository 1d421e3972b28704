//! A durable spool in a file, which each line opens anew.
//!
//! `format`, `push`, `back`, `take` and `list` are as of one in memory, and `list` reads the file by hand too. `remove` removes the file, and `nowhere`
//! tells what a file in a folder that isn't there is refused for, with its faults.

use crate::durable::{changed, listed_beside};
use anyhow::{Result, bail};
use outside::{Disk, FileDisk};
use std::alloc::Global;
use std::fs;
use test_lines::{Subject, word, words};

// The name of the file, in the folder in which the program is run.
const NAME: &str = "a-durable-spool";

/// The machine.
#[derive(Drop)]
pub struct InFile<'a> {
    pub rt: &'a HostRuntime,
}

// What a file in no folder answers to each call, and how many failed.
fn nowhere(rt: &HostRuntime, alloc: Global) -> Result<String> {
    let mut disk = FileDisk::new(rt, "no-folder/a-durable-spool");
    let read = disk.read_at(0, &mut [0; 4]);
    let written = disk.write_at(0, &[1]);
    let synced = disk.sync();
    let faults = disk.faults();
    Ok(format!(in alloc; "{read:?} {written:?} {synced:?} {faults}")?)
}

impl InFile<'_> {
    fn change(&self, alloc: Global, said: &[&str]) -> Result<String> {
        let (answer, _) = changed(alloc, FileDisk::new(self.rt, NAME), said)?;
        Ok(answer)
    }

    fn list(&self, alloc: Global) -> Result<String> {
        match fs::read(self.rt, NAME) {
            Ok(bytes) => listed_beside(alloc, FileDisk::new(self.rt, NAME), bytes.as_slice()),
            Err(_) => listed_beside(alloc, FileDisk::new(self.rt, NAME), &[]),
        }
    }

    fn remove(&self, alloc: Global) -> Result<String> {
        match fs::remove_file(self.rt, NAME) {
            Ok(()) => Ok(String::new(alloc)),
            Err(_) => bail!("it can't be removed"),
        }
    }
}

impl Subject for InFile<'_> {
    fn answer(&mut self, alloc: Global, said: &str) -> Result<String> {
        let said = words(alloc, said)?;
        match word(&said, 0)? {
            "format" | "push" | "back" | "take" => self.change(alloc, &said),
            "list" => self.list(alloc),
            "remove" => self.remove(alloc),
            "nowhere" => nowhere(self.rt, alloc),
            _ => bail!("it says nothing"),
        }
    }
}
