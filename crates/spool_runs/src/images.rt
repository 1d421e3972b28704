//! What a power failure may leave of a disk in memory: the bytes at its last sync, with what was written since in some of the ways in which
//! it may stand there.

use anyhow::Result;
use mem_disk::Call;
use std::alloc::Global;

/// How the bytes stand that were written since the last sync.
#[derive(Clone, Copy)]
pub enum Fill {
    /// Not at all.
    Old,
    /// As they were written.
    New,
    /// The first half of each write as it was written, and of the others this byte.
    Half(u8),
    /// This byte everywhere.
    Byte(u8),
}

/// The ways that are tried.
pub const FILLS: [Fill; 7] = [
    Fill::Old,
    Fill::New,
    Fill::Half(0),
    Fill::Half(255),
    Fill::Byte(0),
    Fill::Byte(1),
    Fill::Byte(255),
];

// Puts a byte at a place, and zeros up to there where the bytes end before.
fn put(bytes: &mut Vec<u8>, at: usize, byte: u8) -> Result<()> {
    for _ in bytes.len()..at.saturating_add(1) {
        bytes.push(0)?;
    }
    if let Some(place) = bytes.get_mut(at) {
        *place = byte;
    }
    Ok(())
}

// What stands of a byte that was written, in the front or in the rear half of its write.
fn stands(fill: Fill, written: u8, is_front: bool) -> Option<u8> {
    match fill {
        Fill::Old => None,
        Fill::New => Some(written),
        Fill::Half(byte) => Some(if is_front { written } else { byte }),
        Fill::Byte(byte) => Some(byte),
    }
}

fn write(bytes: &mut Vec<u8>, at: usize, piece: &[u8], fill: Fill) -> Result<()> {
    for (k, written) in piece.iter().enumerate() {
        let is_front = k < piece.len() / 2;
        if let Some(byte) = stands(fill, *written, is_front) {
            put(bytes, at.saturating_add(k), byte)?;
        }
    }
    Ok(())
}

// How many of the calls stand before the last sync among them, with it.
fn synced(calls: &[Call]) -> usize {
    let mut count = 0;
    for (k, call) in calls.iter().enumerate() {
        if matches!(call, Call::Synced) {
            count = k.saturating_add(1);
        }
    }
    count
}

/// The image of these bytes after these calls.
pub fn image(alloc: Global, first: &[u8], calls: &[Call], fill: Fill) -> Result<Vec<u8>> {
    let mut bytes = Vec::from_slice(alloc, first)?;
    let sure = synced(calls);
    for (k, call) in calls.iter().enumerate() {
        if let Call::Wrote(at, piece) = call {
            let fill = if k < sure { Fill::New } else { fill };
            write(&mut bytes, *at as usize, piece.as_slice(), fill)?;
        }
    }
    Ok(bytes)
}
