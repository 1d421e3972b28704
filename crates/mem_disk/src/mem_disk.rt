//! The disk.

ghost use Rattle.std.specs.Prelude.{◌≡◌, true, ◌≤◌, ◌++◌, ◌∷◌, [], ◌+◌, length, reverse, IfOk, IsTrue, IsFalse};
ghost use Rattle.outside.specs.Counts.{Rose};
ghost use Rattle.mem_disk.specs.Images.{put, reads_after, Images, LeftSince};
ghost use Rattle.mem_disk.specs.Laws.{images_read, left_now, now_left};

use outside::{Disk, Failed};
use std::alloc::{AllocError, Global};
use std::marker::Model;

/// A call that did something: these bytes were written at this place, or all was made sure of.
#[derive(Drop)]
pub enum Call {
    Wrote(u64, Vec<u8>),
    Synced,
}

/// A disk in memory. Contracts see it as what it had at first, each call since that did something, and its counts. The
/// calls whose numbers are in a list fail, the first being 1, reads among them; a call that fails leaves all as it was.
#[derive(Drop)]
pub struct MemDisk {
    alloc: Global,
    first: Vec<u8>,
    bytes: Vec<u8>,
    calls: Vec<Call>,
    fails: Vec<u64>,
    count: u64,
    faults: u64,
}

impl Model for MemDisk {
    ghost use Rattle.mem_disk.specs.Images.{Remembered, reads_after};
    ghost use Rattle.std.specs.Prelude.{◌≡◌, reverse};

    ghost Value = { Remembered };

    ghost view = { λ d. record {
      first = d.first.items;
      calls = d.calls.items;
      fails = d.fails.items;
      count = d.count;
      faults = d.faults;
    } };

    ghost invariant = { λ d. d.bytes.items ≡ reads_after d.first.items (reverse d.calls.items) };
}

// Counts a call, and whether it is to fail, which is counted too.
fn fails_now(count: &mut u64, faults: &mut u64, fails: &[u64]) -> bool
    ensures failed { IsTrue result → Rose faults.old faults.new }
    ensures unfailed { IsFalse result → faults.new ≡ faults.old }
    ensures faults_stay { faults.old ≤ faults.new }
{
    *count = count.saturating_add(1);
    let fails = fails.contains(count);
    if fails {
        *faults = faults.saturating_add(1);
    }
    fails
}

// The bytes after a write.
fn put(alloc: Global, old: &[u8], at: usize, piece: &[u8]) -> Result<Vec<u8>, AllocError>
    ensures { IfOk result (λ new. new.items ≡ put at piece.now old.now) }
{
    let mut new = old[..at.min(old.len())].to_vec(alloc)?;
    for padded in 0..at.saturating_sub(old.len()) {
        let _ = padded;
        new.push(0)?;
    }
    new.extend_from_slice(piece)?;
    if piece.len() < old.len() && at < old.len() - piece.len() {
        new.extend_from_slice(&old[at + piece.len()..])?;
    }
    Ok(new)
}

impl MemDisk {
    /// A disk of these bytes, all of which a crash leaves. The calls with these numbers are to fail.
    pub fn new(alloc: Global, bytes: Vec<u8>, fails: Vec<u64>) -> Result<MemDisk, AllocError>
        ensures { IfOk result (λ d. d ≡ record { first = bytes.items; calls = []; fails = fails.items; count = 0; faults = 0 }) }
    {
        let first = bytes.to_vec(alloc)?;
        Ok(MemDisk {
            alloc,
            first,
            bytes,
            calls: Vec::new(alloc),
            fails,
            count: 0,
            faults: 0,
        })
    }

    /// What a read gives.
    pub fn bytes(&self) -> &[u8]
        ensures { result.now ≡ reads_after self.now.first (reverse self.now.calls) }
    {
        &self.bytes
    }

    /// The calls that did something, in their order.
    pub fn calls(&self) -> &[Call]
        ensures { result.now ≡ self.now.calls }
    {
        &self.calls
    }

    /// How many calls failed.
    pub fn faults(&self) -> u64
        ensures { result ≡ self.now.faults }
    {
        self.faults
    }
}

impl Disk for MemDisk {
    ghost tells = { λ d. true };

    ghost reads = { λ d. reads_after d.first (reverse d.calls) };

    ghost leaves = { λ d. Images d.first (reverse d.calls) };

    ghost moment = { λ d. length d.calls };

    ghost left_since = { λ d. LeftSince d.first d.calls };

    ghost faults = { λ d. d.faults };

    ghost reads_so = { λ d t. images_read d.first (reverse d.calls) };

    ghost only_now = { λ d image t left. left_now d.first d.calls image left };

    ghost counts_now = { λ d t image told le now. now_left d.first d.calls t image le now };

    fn read_at(&mut self, at: u64, buf: &mut [u8]) -> Result<usize, Failed> {
        if fails_now(&mut self.count, &mut self.faults, &self.fails) {
            return Err(Failed);
        }
        if buf.is_empty() || at >= self.bytes.len() as u64 {
            return Ok(0);
        }
        buf[0] = self.bytes[at as usize];
        Ok(1)
    }

    fn write_at(&mut self, at: u64, bytes: &[u8]) -> Result<(), Failed> {
        if fails_now(&mut self.count, &mut self.faults, &self.fails) {
            return Err(Failed);
        }
        let Ok(next) = put(self.alloc, &self.bytes, at as usize, bytes) else {
            self.faults = self.faults.saturating_add(1);
            return Err(Failed);
        };
        let Ok(piece) = bytes.to_vec(self.alloc) else {
            self.faults = self.faults.saturating_add(1);
            return Err(Failed);
        };
        if self.calls.push(Call::Wrote(at, piece)).is_err() {
            self.faults = self.faults.saturating_add(1);
            return Err(Failed);
        }
        self.bytes = next;
        Ok(())
    }

    fn sync(&mut self) -> Result<(), Failed> {
        if fails_now(&mut self.count, &mut self.faults, &self.fails) {
            return Err(Failed);
        }
        if self.calls.push(Call::Synced).is_err() {
            self.faults = self.faults.saturating_add(1);
            return Err(Failed);
        }
        Ok(())
    }
}
