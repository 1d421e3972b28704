//! A spool that is filled and emptied again and again.
//!
//! `spool CAPACITY BYTES ROUNDS` does it so many times with a spool of this capacity, 1 to 65,536, which it makes once: it pushes as
//! many notes as there may be, each with a text of so many bytes, has the host ask for them, and takes each out. It tells how many
//! notes came out at their place.

ghost use Rattle.std.specs.Prelude.{◌≤◌};

use anyhow::{Result, bail};
use hsms_frame::Bytes;
use spool::{Kind, Note, Spool};
use std::alloc::{AllocError, Global};

// An event of this number, with a text of so many bytes.
fn note(alloc: Global, number: u64, bytes: usize) -> Result<Note, AllocError> {
    Ok(Note {
        number,
        kind: Kind::Event,
        id: 301,
        text: Bytes::from_vec(vec![in alloc; 0x5A; bytes]?),
    })
}

// Pushes as many notes as there may be, numbered from 0, and fires the rows by which the spool is ACTIVE and FULL.
fn fill(alloc: Global, spool: &mut Spool, bytes: usize) -> Result<(), AllocError> {
    for number in 0..spool.capacity() {
        spool.push(note(alloc, number as u64, bytes)?, false);
    }
    spool.fire(1);
    spool.fire(2);
    Ok(())
}

// The host asks for the notes, and each is taken out, until the spool is INACTIVE. Tells how many came out at their place.
fn empty(spool: &mut Spool) -> u64 {
    let mut in_order: u64 = 0;
    spool.begin_unload(0, 0);
    for number in 0..spool.len() {
        if let Some(note) = spool.next() {
            if note.number == number as u64 {
                in_order = in_order.saturating_add(1);
            }
        }
    }
    spool.fire(9);
    in_order
}

// Fills and empties a spool so many times, and tells how many notes came out at their place.
fn measure_all(alloc: Global, capacity: u32, bytes: u32, rounds: u64) -> Result<u64, AllocError>
    requires some_room { 1 ≤ capacity }
    requires limit { capacity ≤ 65536 }
{
    let mut spool = Spool::new(alloc, capacity)?;
    let mut in_order: u64 = 0;
    for _ in 0..rounds {
        fill(alloc, &mut spool, bytes as usize)?;
        in_order = in_order.saturating_add(empty(&mut spool));
    }
    Ok(in_order)
}

/// Does so; how many notes came out at their place. The error: there is no such capacity, or no memory.
pub(crate) fn measure(alloc: Global, capacity: u32, bytes: u32, rounds: u64) -> Result<u64> {
    if capacity < 1 || capacity > 65_536 {
        bail!("a spool has a capacity of 1 to 65536");
    }
    match measure_all(alloc, capacity, bytes, rounds) {
        Ok(in_order) => Ok(in_order),
        Err(_) => bail!("there is no memory"),
    }
}
