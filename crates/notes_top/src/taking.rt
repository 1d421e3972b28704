//! One line after another is done.
ghost use Rattle.std.specs.Prelude.{◌≡◌, ◌≢◌, ◌≤◌, ℕ, List, Option, length, Ok, Err};
ghost use Rattle.outside.specs.Counts.{Failed};
ghost use Rattle.spool_format.specs.Format.{IsSize};
ghost use Rattle.notes_lines.specs.Reading.{spool_line_of};
ghost use Rattle.notes_top.specs.Keeping.{DiskAt, KeptAt, OpenedAt, TakesLine};
ghost use Rattle.notes_top.specs.Stages.{Stage, is_open};

use crate::kept::Kept;
use crate::listing::{list_notes, oldest_line, write_line};
use crate::stop::{Stop, stopped};
use notes_lines::{LineFault, SpoolLine, read_spool_line};
use nv_spool::NvSpool;
use outside::{Disk, Sink};
use spool::Note;
use std::alloc::Global;

/// Does a line, which is whole, and writes what it prints. What is kept then, and why it wasn't done, or not written.
pub(crate) fn take_line<D: Disk + Drop, K: Sink>(
    alloc: Global,
    kept: Kept<D>,
    line: &[u8],
    out: &mut K,
) -> (Kept<D>, Result<(), Stop>)
    ensures takes { (first : D) (stage : Stage) → KeptAt D.tells D.reads D.leaves D.faults first stage kept
        → TakesLine D.tells D.reads D.leaves D.faults first stage (spool_line_of (is_open stage) line.now) result.0 result.1 (K.held out.old) (K.held out.new) }
    ensures failed { result.1 ≡ Err Stop.Write → Failed (K.faults out.old) (K.faults out.new) (K.refusals out.old) (K.refusals out.new) }
    ensures unfailed { result.1 ≢ Err Stop.Write → (K.faults out.new ≡ K.faults out.old) × (K.refusals out.new ≡ K.refusals out.old) }
{
    match read_spool_line(alloc, line, kept.is_open()) {
        Ok(SpoolLine::Skip) => (kept, Ok(())),
        Ok(SpoolLine::Format(capacity, half)) => format(kept.into_disk(), capacity, half),
        Ok(SpoolLine::Push(overwrite, note)) => push(alloc, kept, overwrite, note),
        Ok(SpoolLine::Take) => take(alloc, kept, out),
        Ok(SpoolLine::List) => list(alloc, kept, out),
        Err(LineFault::Place(place)) => (kept, Err(Stop::Line(place))),
        Err(LineFault::NoMemory) => (kept, Err(Stop::NoMemory)),
    }
}

// Makes the disk stand for no notes.
fn format<D: Disk + Drop>(disk: D, capacity: u32, half: u64) -> (Kept<D>, Result<(), Stop>)
    requires { IsSize (record { capacity = capacity; half = half }) }
    ensures takes { (first : D) (stage : Stage) (held : Option (List ℕ)) → DiskAt D.tells D.reads D.leaves D.faults first stage disk
        → TakesLine D.tells D.reads D.leaves D.faults first stage (Ok (SpoolLine.Format capacity half)) result.0 result.1 held held }
    ensures unwritten { result.1 ≢ Err Stop.Write }
{
    let mut disk = disk;
    match NvSpool::<D>::format(&mut disk, capacity, half) {
        Ok(()) => (Kept::Disk(disk), Ok(())),
        Err(_) => (Kept::Disk(disk), Err(Stop::Disk)),
    }
}

// A note comes.
fn push<D: Disk + Drop>(
    alloc: Global,
    kept: Kept<D>,
    overwrite: bool,
    note: Note,
) -> (Kept<D>, Result<(), Stop>)
    requires { length note.text ≤ 87000 }
    ensures takes { (first : D) (stage : Stage) (held : Option (List ℕ)) → KeptAt D.tells D.reads D.leaves D.faults first stage kept
        → TakesLine D.tells D.reads D.leaves D.faults first stage (Ok (SpoolLine.Push overwrite note)) result.0 result.1 held held }
    ensures unwritten { result.1 ≢ Err Stop.Write }
{
    match kept.opened(alloc) {
        Ok(spool) => push_opened(spool, overwrite, note),
        Err((disk, why)) => (Kept::Disk(disk), Err(why)),
    }
}

// A note comes, where the spool is open.
fn push_opened<D: Disk + Drop>(
    spool: NvSpool<D>,
    overwrite: bool,
    note: Note,
) -> (Kept<D>, Result<(), Stop>)
    requires { length note.text ≤ 87000 }
    ensures takes { (first : D) (stage : Stage) (held : Option (List ℕ)) → OpenedAt D.tells D.reads D.leaves D.faults first stage spool
        → TakesLine D.tells D.reads D.leaves D.faults first stage (Ok (SpoolLine.Push overwrite note)) result.0 result.1 held held }
    ensures unwritten { result.1 ≢ Err Stop.Write }
{
    let mut spool = spool;
    let made = stopped(spool.push(note, overwrite));
    (Kept::Spool(spool), made)
}

// The oldest note leaves, and is printed.
fn take<D: Disk + Drop, K: Sink>(
    alloc: Global,
    kept: Kept<D>,
    out: &mut K,
) -> (Kept<D>, Result<(), Stop>)
    ensures takes { (first : D) (stage : Stage) → KeptAt D.tells D.reads D.leaves D.faults first stage kept
        → TakesLine D.tells D.reads D.leaves D.faults first stage (Ok SpoolLine.Take) result.0 result.1 (K.held out.old) (K.held out.new) }
    ensures failed { result.1 ≡ Err Stop.Write → Failed (K.faults out.old) (K.faults out.new) (K.refusals out.old) (K.refusals out.new) }
    ensures unfailed { result.1 ≢ Err Stop.Write → (K.faults out.new ≡ K.faults out.old) × (K.refusals out.new ≡ K.refusals out.old) }
{
    match kept.opened(alloc) {
        Ok(spool) => take_opened(alloc, spool, out),
        Err((disk, why)) => (Kept::Disk(disk), Err(why)),
    }
}

// The same, where the spool is open. There is memory for what is printed before the note leaves.
fn take_opened<D: Disk + Drop, K: Sink>(
    alloc: Global,
    spool: NvSpool<D>,
    out: &mut K,
) -> (Kept<D>, Result<(), Stop>)
    ensures takes { (first : D) (stage : Stage) → OpenedAt D.tells D.reads D.leaves D.faults first stage spool
        → TakesLine D.tells D.reads D.leaves D.faults first stage (Ok SpoolLine.Take) result.0 result.1 (K.held out.old) (K.held out.new) }
    ensures failed { result.1 ≡ Err Stop.Write → Failed (K.faults out.old) (K.faults out.new) (K.refusals out.old) (K.refusals out.new) }
    ensures unfailed { result.1 ≢ Err Stop.Write → (K.faults out.new ≡ K.faults out.old) × (K.refusals out.new ≡ K.refusals out.old) }
{
    let mut spool = spool;
    let Ok(line) = oldest_line(alloc, spool.notes()) else {
        return (Kept::Spool(spool), Err(Stop::NoMemory));
    };
    match stopped(spool.take()) {
        Ok(()) => {}
        Err(why) => return (Kept::Spool(spool), Err(why)),
    }
    let written = write_line(out, line.as_bytes());
    (Kept::Spool(spool), written)
}

// All notes are printed.
fn list<D: Disk + Drop, K: Sink>(
    alloc: Global,
    kept: Kept<D>,
    out: &mut K,
) -> (Kept<D>, Result<(), Stop>)
    ensures takes { (first : D) (stage : Stage) → KeptAt D.tells D.reads D.leaves D.faults first stage kept
        → TakesLine D.tells D.reads D.leaves D.faults first stage (Ok SpoolLine.List) result.0 result.1 (K.held out.old) (K.held out.new) }
    ensures failed { result.1 ≡ Err Stop.Write → Failed (K.faults out.old) (K.faults out.new) (K.refusals out.old) (K.refusals out.new) }
    ensures unfailed { result.1 ≢ Err Stop.Write → (K.faults out.new ≡ K.faults out.old) × (K.refusals out.new ≡ K.refusals out.old) }
{
    match kept.opened(alloc) {
        Ok(spool) => {
            let listed = list_notes(alloc, spool.notes(), out);
            (Kept::Spool(spool), listed)
        }
        Err((disk, why)) => (Kept::Disk(disk), Err(why)),
    }
}
