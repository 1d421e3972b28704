//! A frame whose text is over the greatest, which a cutter is fed in pieces.
//!
//! `cutter PIECE COUNT TIMES`: the length field FFFFFFFF and a header, and then COUNT bytes of the text in pieces of PIECE bytes, so many times,
//! each with a cutter of its own. It tells how many bytes these keep at the end, all together.

use anyhow::Result;
use hsms_frame::{CutFault, Cutter};
use std::alloc::Global;

// The greatest text.
const TEXT_BYTES: u32 = 262_144;

// A length field and a header of S1F1.
const OVER_LONG: [u8; 14] = [
    0xFF, 0xFF, 0xFF, 0xFF, 0x00, 0x00, 0x81, 0x01, 0x00, 0x00, 0x00, 0x00, 0x00, 0x01,
];

// Feeds the piece so many times to a cutter inside the frame: how many bytes it keeps.
fn feed_all(alloc: Global, piece: &[u8], pieces: u64) -> Result<u64, CutFault> {
    let mut cutter = Cutter::new(alloc, TEXT_BYTES)?;
    let mut arrivals = Vec::new(alloc);
    cutter.feed(alloc, &OVER_LONG, &mut arrivals)?;
    for _ in 0..pieces {
        cutter.feed(alloc, piece, &mut arrivals)?;
    }
    Ok(cutter.kept())
}

/// Does what the words say; how many bytes are kept. The error: there is no memory.
pub(crate) fn measure(alloc: Global, piece: u32, count: u64, times: u64) -> Result<u64> {
    let bytes = vec![in alloc; 0x5A; piece as usize]?;
    let pieces = count.checked_div(piece as u64).unwrap_or(0);
    let mut kept: u64 = 0;
    for _ in 0..times {
        kept = kept.saturating_add(feed_all(alloc, &bytes, pieces)?);
    }
    Ok(kept)
}
