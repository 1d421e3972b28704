//! A durable spool over a disk in memory, which each line opens anew.
//!
//! `format 2 261061` makes the disk stand for no notes. `push keep 1 event 211 0100` and `push over ..` push a note, and tell whether it was
//! kept, or which was dropped; `back keep ..` and `back over ..` put one back to its place by number, and tell that too, or that it `may not`
//! be; `take` tells the note that left, or `none`. `list` tells the size of a half and the notes, or what the disk is
//! refused for; it is the same by the crates and by hand. `bytes 13 25` tells so many bytes from a place on, `size` how many the disk has,
//! and `cut 40`, `set 13 01FF` change them.
//!
//! `stops CHANGE`, where a change is a line as above, tells how many moments and images there are of a power failure while that is made,
//! and what they stand for: the notes from before it or those behind it, or `otherwise`; the change is made then. `faults CHANGE` lets each
//! call of the disk fail, one at a time. `cuts` cuts the disk at each length, and `values` gives each byte each value; both tell how many
//! of these open.

use crate::by_hand::{ByHand, read};
use crate::note_words::{note_of, note_words};
use crate::trials::{faults, stops, try_cuts, try_values};
use anyhow::{Result, bail};
use mem_disk::MemDisk;
use nv_spool::{NvFault, NvSpool};
use outside::Disk;
use spool::Pushed;
use spool_format::is_size;
use std::alloc::Global;
use test_lines::{Subject, bytes, number, word, words};

/// The bytes of the disk.
#[derive(Drop)]
pub struct Durable {
    bytes: Vec<u8>,
}

impl Durable {
    /// An empty disk.
    pub fn new(alloc: Global) -> Durable {
        Durable {
            bytes: Vec::new(alloc),
        }
    }
}

/// A disk of these bytes of which the listed calls fail.
pub fn disk_of(alloc: Global, bytes: &[u8], fails: &[u64]) -> Result<MemDisk> {
    Ok(MemDisk::new(
        alloc,
        Vec::from_slice(alloc, bytes)?,
        Vec::from_slice(alloc, fails)?,
    )?)
}

// A fault in words.
fn fault_words(alloc: Global, fault: NvFault) -> Result<String> {
    match fault {
        NvFault::Disk => Ok(String::from_str(alloc, "disk fault")?),
        NvFault::Closed => Ok(String::from_str(alloc, "closed")?),
        NvFault::Unread(place) => Ok(format!(in alloc; "unread at {place}")?),
        NvFault::NoMemory => bail!("there is no memory"),
    }
}

// What a push did, in words.
fn pushed_words(alloc: Global, pushed: &Pushed) -> Result<String> {
    match pushed {
        Pushed::Kept => Ok(String::from_str(alloc, "kept")?),
        Pushed::DroppedOldest(note) => Ok(format!(in alloc; "dropped {}", note.number)?),
        Pushed::DroppedNewest(note) => Ok(format!(in alloc; "dropped itself, {}", note.number)?),
    }
}

fn push<D: Disk + Drop>(alloc: Global, spool: &mut NvSpool<D>, said: &[&str]) -> Result<String> {
    let overwrite = word(said, 1)? == "over";
    match note_of(alloc, said, 2)? {
        Some(note) if note.text.as_slice().len() <= 87_000 => match spool.push(note, overwrite) {
            Ok(pushed) => pushed_words(alloc, &pushed),
            Err(fault) => fault_words(alloc, fault),
        },
        _ => bail!("a text has at most 87,000 bytes"),
    }
}

// What a put back did, in words.
fn put_back_words(alloc: Global, pushed: &Pushed) -> Result<String> {
    match pushed {
        Pushed::Kept => Ok(String::from_str(alloc, "kept")?),
        Pushed::DroppedOldest(note) => Ok(format!(in alloc; "dropped the least, {}", note.number)?),
        Pushed::DroppedNewest(note) => {
            Ok(format!(in alloc; "dropped the greatest, {}", note.number)?)
        }
    }
}

fn put_back<D: Disk + Drop>(
    alloc: Global,
    spool: &mut NvSpool<D>,
    said: &[&str],
) -> Result<String> {
    let overwrite = word(said, 1)? == "over";
    match note_of(alloc, said, 2)? {
        Some(note) if note.text.as_slice().len() <= 87_000 => {
            if !spool.notes().may_put_back(note.number) {
                return Ok(String::from_str(alloc, "may not")?);
            }
            match spool.put_back(note, overwrite) {
                Ok(pushed) => put_back_words(alloc, &pushed),
                Err(fault) => fault_words(alloc, fault),
            }
        }
        _ => bail!("a text has at most 87,000 bytes"),
    }
}

fn take<D: Disk + Drop>(alloc: Global, spool: &mut NvSpool<D>) -> Result<String> {
    match spool.take() {
        Ok(Some(note)) => note_words(alloc, &note),
        Ok(None) => Ok(String::from_str(alloc, "none")?),
        Err(fault) => fault_words(alloc, fault),
    }
}

// Makes the change that is said, and tells what it did.
fn make<D: Disk + Drop>(alloc: Global, spool: &mut NvSpool<D>, said: &[&str]) -> Result<String> {
    match word(said, 0)? {
        "push" => push(alloc, spool, said),
        "back" => put_back(alloc, spool, said),
        "take" => take(alloc, spool),
        _ => bail!("it is no change"),
    }
}

// The size of a half and the notes of a spool, in words.
fn list_words<D: Disk + Drop>(alloc: Global, spool: &NvSpool<D>) -> Result<String> {
    let queue = spool.notes();
    let half = spool.half();
    let mut list = format!(in alloc; "half {half}")?;
    for index in 0..queue.len() {
        let note = note_words(alloc, queue.note_at(index))?;
        write!(list, "; {note}")?;
    }
    Ok(list)
}

/// What a disk stands for, in words, and the same by hand of these bytes.
pub fn listed_beside<D: Disk + Drop>(alloc: Global, disk: D, bytes: &[u8]) -> Result<String> {
    let list = match NvSpool::open(alloc, disk) {
        Ok(spool) => list_words(alloc, &spool)?,
        Err((_disk, fault)) => fault_words(alloc, fault)?,
    };
    let by_hand = match read(alloc, bytes)? {
        ByHand::Notes(list) => list,
        ByHand::Unread(place) => format!(in alloc; "unread at {place}")?,
    };
    if list.as_str() == by_hand.as_str() {
        Ok(list)
    } else {
        Ok(format!(in alloc; "{list}, and by hand {by_hand}")?)
    }
}

/// What a disk of these bytes stands for, in words, by the crates and by hand.
pub fn listed(alloc: Global, bytes: &[u8]) -> Result<String> {
    listed_beside(alloc, disk_of(alloc, bytes, &[])?, bytes)
}

// Makes a change of a disk: what it did, and the disk behind it.
fn made<D: Disk + Drop>(alloc: Global, disk: D, said: &[&str]) -> Result<(String, D)> {
    match NvSpool::open(alloc, disk) {
        Ok(spool) => {
            let mut spool = spool;
            let answer = make(alloc, &mut spool, said)?;
            Ok((answer, spool.close()))
        }
        Err((disk, fault)) => Ok((fault_words(alloc, fault)?, disk)),
    }
}

// Formats a disk.
fn format_disk<D: Disk + Drop>(alloc: Global, disk: &mut D, said: &[&str]) -> Result<String> {
    let capacity = word(said, 1)?.parse::<u32>()?;
    let half = number(said, 2)?;
    if !is_size(capacity, half) {
        bail!("these are no sizes");
    }
    match NvSpool::<D>::format(disk, capacity, half) {
        Ok(()) => Ok(String::new(alloc)),
        Err(_) => Ok(String::from_str(alloc, "disk fault")?),
    }
}

/// Makes a change of a disk, or formats it: what it did, and the disk behind it.
pub fn changed<D: Disk + Drop>(alloc: Global, disk: D, said: &[&str]) -> Result<(String, D)> {
    if word(said, 0)? != "format" {
        return made(alloc, disk, said);
    }
    let mut disk = disk;
    let answer = format_disk(alloc, &mut disk, said)?;
    Ok((answer, disk))
}

impl Durable {
    // Makes a change, or formats, for good.
    fn change(&mut self, alloc: Global, said: &[&str]) -> Result<String> {
        let (answer, disk) = changed(alloc, disk_of(alloc, &self.bytes, &[])?, said)?;
        self.bytes = Vec::from_slice(alloc, disk.bytes())?;
        Ok(answer)
    }

    // So many bytes from a place on.
    fn shown(&self, alloc: Global, said: &[&str]) -> Result<String> {
        let from = number(said, 1)? as usize;
        let to = from.saturating_add(number(said, 2)? as usize);
        match self.bytes.get(from..to) {
            Some(piece) => Ok(hex::encode_upper(alloc, piece)?),
            None => bail!("the disk ends before"),
        }
    }

    fn cut(&mut self, alloc: Global, said: &[&str]) -> Result<String> {
        self.bytes.truncate(number(said, 1)? as usize);
        Ok(String::new(alloc))
    }

    fn set(&mut self, alloc: Global, said: &[&str]) -> Result<String> {
        let from = number(said, 1)? as usize;
        for (k, byte) in bytes(alloc, word(said, 2)?)?.iter().enumerate() {
            if let Some(place) = self.bytes.get_mut(from.saturating_add(k)) {
                *place = *byte;
            }
        }
        Ok(String::new(alloc))
    }
}

impl Subject for Durable {
    fn answer(&mut self, alloc: Global, said: &str) -> Result<String> {
        let said = words(alloc, said)?;
        match word(&said, 0)? {
            "format" | "push" | "back" | "take" => self.change(alloc, &said),
            "list" => listed(alloc, &self.bytes),
            "bytes" => self.shown(alloc, &said),
            "size" => Ok(format!(in alloc; "{}", self.bytes.len())?),
            "cut" => self.cut(alloc, &said),
            "set" => self.set(alloc, &said),
            "cuts" => try_cuts(alloc, &self.bytes),
            "values" => try_values(alloc, &self.bytes),
            "faults" => faults(alloc, &self.bytes, said.get(1..).unwrap_or(&[])),
            "stops" => stops(alloc, &self.bytes, said.get(1..).unwrap_or(&[])),
            _ => bail!("it says nothing"),
        }
    }
}
