//! A stop at each call of the disk, a fault of each, each length and each value of each byte.

use crate::durable::{changed, disk_of, listed};
use crate::images::{FILLS, image};
use anyhow::Result;
use mem_disk::MemDisk;
use std::alloc::Global;
use test_lines::word;

// What is tried, in the words of `listed`.
#[derive(Drop)]
struct Outcomes {
    before: String,
    behind: String,
    is_formatting: bool,
    old: usize,
    new: usize,
    refused: usize,
    otherwise: usize,
}

impl Outcomes {
    fn none(before: String, behind: String, is_formatting: bool) -> Outcomes {
        Outcomes {
            before,
            behind,
            is_formatting,
            old: 0,
            new: 0,
            refused: 0,
            otherwise: 0,
        }
    }

    // Counts an image; of one within `format` nothing is promised but that it is opened, or refused at its place.
    fn count(&mut self, list: &str) {
        if list == self.before.as_str() {
            self.old = self.old.saturating_add(1);
        } else if list == self.behind.as_str() {
            self.new = self.new.saturating_add(1);
        } else if self.is_formatting && !list.contains("by hand") {
            self.refused = self.refused.saturating_add(1);
        } else {
            self.otherwise = self.otherwise.saturating_add(1);
        }
    }

    fn told(&self, alloc: Global) -> Result<String> {
        let mut words = format!(in alloc; "{} before, {} behind", self.old, self.new)?;
        if self.is_formatting {
            write!(words, ", {} refused or free", self.refused)?;
        }
        if self.otherwise > 0 {
            write!(words, ", {} otherwise", self.otherwise)?;
        }
        Ok(words)
    }
}

// The outcomes of what is said, none yet, and the disk behind it.
fn begin(alloc: Global, bytes: &[u8], said: &[&str]) -> Result<(Outcomes, MemDisk)> {
    let (_, disk) = changed(alloc, disk_of(alloc, bytes, &[])?, said)?;
    let before = listed(alloc, bytes)?;
    let behind = listed(alloc, disk.bytes())?;
    Ok((
        Outcomes::none(before, behind, word(said, 0)? == "format"),
        disk,
    ))
}

/// Stops what is said before and behind each call of the disk, and opens the images.
pub fn stops(alloc: Global, bytes: &[u8], said: &[&str]) -> Result<String> {
    let (mut outcomes, disk) = begin(alloc, bytes, said)?;
    let calls = disk.calls();
    for count in 0..calls.len().saturating_add(1) {
        let so_far = calls.get(..count).unwrap_or(&[]);
        for fill in FILLS {
            let image = image(alloc, bytes, so_far, fill)?;
            let list = listed(alloc, &image)?;
            outcomes.count(list.as_str());
        }
    }
    let told = outcomes.told(alloc)?;
    Ok(format!(in alloc; "{} calls: {told}", calls.len())?)
}

// How many of the faults are tried at most.
const MOST_FAULTS: u64 = 1_000_000;

/// Lets each call of the disk fail, one at a time, and opens what that leaves.
pub fn faults(alloc: Global, bytes: &[u8], said: &[&str]) -> Result<String> {
    let (mut outcomes, _) = begin(alloc, bytes, said)?;
    let mut calls: u64 = 0;
    let mut silent: u64 = 0;
    for number in 1..MOST_FAULTS {
        let (answer, disk) = changed(alloc, disk_of(alloc, bytes, &[number])?, said)?;
        if disk.faults() == 0 {
            break;
        }
        calls = number;
        if answer.as_str() != "disk fault" {
            silent = silent.saturating_add(1);
        }
        let list = listed(alloc, disk.bytes())?;
        outcomes.count(list.as_str());
    }
    let told = outcomes.told(alloc)?;
    Ok(format!(in alloc; "{calls} calls: {told}; {silent} untold")?)
}

// Counts what opens, and what is read otherwise by hand.
#[derive(Drop)]
struct Opened {
    opened: usize,
    refused: usize,
    otherwise: usize,
}

impl Opened {
    fn none() -> Opened {
        Opened {
            opened: 0,
            refused: 0,
            otherwise: 0,
        }
    }

    fn count(&mut self, list: &str) {
        if list.contains("by hand") {
            self.otherwise = self.otherwise.saturating_add(1);
        } else if list.starts_with("unread at") {
            self.refused = self.refused.saturating_add(1);
        } else {
            self.opened = self.opened.saturating_add(1);
        }
    }

    fn told(&self, alloc: Global) -> Result<String> {
        let mut words = format!(in alloc; "{} open, {} are refused", self.opened, self.refused)?;
        if self.otherwise > 0 {
            write!(words, ", {} otherwise", self.otherwise)?;
        }
        Ok(words)
    }
}

/// Cuts the bytes at each length.
pub fn try_cuts(alloc: Global, bytes: &[u8]) -> Result<String> {
    let mut opened = Opened::none();
    for len in 0..bytes.len().saturating_add(1) {
        let list = listed(alloc, bytes.get(..len).unwrap_or(&[]))?;
        opened.count(list.as_str());
    }
    opened.told(alloc)
}

/// Gives each byte each value.
pub fn try_values(alloc: Global, bytes: &[u8]) -> Result<String> {
    let mut opened = Opened::none();
    let mut image = Vec::from_slice(alloc, bytes)?;
    for (at, was) in bytes.iter().enumerate() {
        for value in 0..=255u8 {
            if let Some(place) = image.get_mut(at) {
                *place = value;
            }
            let list = listed(alloc, &image)?;
            opened.count(list.as_str());
        }
        if let Some(place) = image.get_mut(at) {
            *place = *was;
        }
    }
    opened.told(alloc)
}
