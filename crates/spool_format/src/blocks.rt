//! A disk that is read by blocks.

ghost use Rattle.std.specs.Prelude.{true, ◌≡◌, ◌+◌, ◌<◌, ◌≤◌, length, take, drop, min, IfOk, OnOk, OnErr};
ghost use Rattle.outside.specs.Counts.{Rose};
ghost use Rattle.outside.specs.Disk.{HasAt, IsRead};

use outside::{Disk, Failed};
use std::marker::Model;

// How many bytes a block has.
const BLOCK: usize = 4096;

/// A disk whose reads are asked of it a block at a time: what is near a place is kept, so that reading on from there asks nothing. Contracts
/// see the disk alone, and it keeps a disk's contract as that one does. Takes no memory.
#[derive(Drop)]
pub struct ByBlocks<D: Disk + Drop> {
    disk: D,
    block: [u8; BLOCK],
    // Where the block stands, and how many bytes of it are the disk's.
    from: u64,
    len: usize,
}

impl<D: Disk + Drop> Model for ByBlocks<D> {
    ghost use Rattle.std.specs.Prelude.{ℕ};

    ghost Value = { D };

    ghost use Rattle.spool_format.specs.Blocks.{IsKept};

    ghost view = { λ b. b.disk };

    ghost invariant = { IsKept D.tells D.reads };
}

// Copies the front of the bytes into the front of the buffer, as much of it as fits, and answers how many.
fn copy_front(bytes: &[u8], buf: &mut [u8]) -> usize
    ensures count { result ≡ min (length buf.old) (length bytes.now) }
    ensures front { take result buf.new ≡ take result bytes.now }
{
    let count = buf.len().min(bytes.len());
    buf[..count].copy_from_slice(&bytes[..count]);
    count
}

impl<D: Disk + Drop> ByBlocks<D> {
    /// The disk, of which no block was read.
    pub fn new(disk: D) -> ByBlocks<D>
        ensures { result ≡ disk }
    {
        ByBlocks {
            disk,
            block: [0; BLOCK],
            from: 0,
            len: 0,
        }
    }

    /// The disk again.
    pub fn into_disk(self) -> D
        ensures { result ≡ self }
    {
        let ByBlocks { disk, .. } = self;
        disk
    }
}

impl<D: Disk + Drop> Disk for ByBlocks<D> {
    ghost tells = { λ d. D.tells d };

    ghost reads = { λ d. D.reads d };

    ghost leaves = { λ d. D.leaves d };

    ghost moment = { λ d. D.moment d };

    ghost left_since = { λ d. D.left_since d };

    ghost faults = { λ d. D.faults d };

    ghost reads_so = { λ d t. D.reads_so d t };

    ghost only_now = { λ d image t left. D.only_now d image t left };

    ghost counts_now = { λ d t image told le now. D.counts_now d t image told le now };

    fn read_at(&mut self, at: u64, buf: &mut [u8]) -> Result<usize, Failed> {
        if at < self.from || at - self.from >= self.len as u64 {
            self.len = 0;
            self.len = self.disk.read_at(at, &mut self.block)?;
            self.from = at;
        }
        let skipped = (at - self.from) as usize;
        Ok(copy_front(&self.block[skipped..self.len], buf))
    }

    fn write_at(&mut self, at: u64, bytes: &[u8]) -> Result<(), Failed> {
        self.len = 0;
        self.disk.write_at(at, bytes)
    }

    fn sync(&mut self) -> Result<(), Failed> {
        self.disk.sync()
    }
}
