//! The lines of an input, from the first to its end.
ghost use Rattle.std.specs.Prelude.{◌≡◌, ◌≢◌, []};
ghost use Rattle.outside.specs.Counts.{Failed};
ghost use Rattle.source_lines.specs.Reads.{source_told};
ghost use Rattle.run_causes.specs.declared.cause.Cause.TheVariants as cause;
ghost use Rattle.run_causes.specs.Status.{status_of};
ghost use Rattle.notes_lines.specs.Reading.{spool_line_of};
ghost use Rattle.notes_top.specs.Ending.{TakesLast, EndsAt};
ghost use Rattle.notes_top.specs.Keeping.{disk_of, KeptAt};
ghost use Rattle.notes_top.specs.Ran.{NotesRan};
ghost use Rattle.notes_top.specs.Stages.{Stage, is_open};
ghost use Rattle.notes_top.specs.declared.kept.Kept.TheVariants as keeps;

use crate::kept::Kept;
use crate::stop::cause_of;
use crate::taking::take_line;
use outside::{Disk, Sink, Source};
use run_causes::Cause;
use source_lines::{NoLine, SourceLines};
use std::alloc::Global;

/// Does the lines of an input, one after another: `format` makes the disk stand for no notes, and the first other line that says something
/// opens the durable spool that is on it; `push` and `take` change its notes, and `take` and `list` print them (this tool's profile,
/// durable spool). The status, why the run ended, and the disk.
///
/// Status 0 comes where the input was read to its end and all was written, 3 where a read failed, 4 where a write failed or took nothing,
/// 5 where 4,294,967,296 bytes of input were read, 6 at a line that is refused, 7 where there was no memory, 10 where the disk failed, and 11
/// where its bytes are no durable spool.
pub fn notes<D: Disk + Drop, S: Source, K: Sink>(
    alloc: Global,
    disk: D,
    input: &mut S,
    out: &mut K,
) -> (u8, Cause, D)
    ensures ran { NotesRan D.tells D.reads D.leaves D.faults result.1 (source_told S.left S.faults S.ends input.old) (source_told S.left S.faults S.ends input.new)
        (K.held out.old) (K.held out.new) disk result.2 }
    ensures status { result.0 ≡ status_of result.1 }
    ensures write_fault { result.1 ≡ cause.WriteFault
        → Failed (K.faults out.old) (K.faults out.new) (K.refusals out.old) (K.refusals out.new) }
    ensures no_read_failed { result.1 ≢ cause.ReadFault → S.faults input.new ≡ S.faults input.old }
    ensures no_write_failed { result.1 ≢ cause.WriteFault → (K.faults out.new ≡ K.faults out.old) × (K.refusals out.new ≡ K.refusals out.old) }
{
    let mut lines = SourceLines::new(alloc);
    let (kept, cause) = run(alloc, Kept::Disk(disk), &mut lines, input, out);
    (cause.status(), cause, kept.into_disk())
}

// Does the lines from the first on.
fn run<D: Disk + Drop, S: Source, K: Sink>(
    alloc: Global,
    kept: Kept<D>,
    lines: &mut SourceLines,
    input: &mut S,
    out: &mut K,
) -> (Kept<D>, Cause)
    requires lines { lines.old ≡ record { line = []; kept = []; count = 0 } }
    ensures ran { (first : D) → kept ≡ keeps.Disk first → NotesRan D.tells D.reads D.leaves D.faults result.1 (source_told S.left S.faults S.ends input.old) (source_told S.left S.faults S.ends input.new)
        (K.held out.old) (K.held out.new) first (disk_of result.0) }
    ensures write_fault { result.1 ≡ cause.WriteFault
        → Failed (K.faults out.old) (K.faults out.new) (K.refusals out.old) (K.refusals out.new) }
    ensures no_read_failed { result.1 ≢ cause.ReadFault → S.faults input.new ≡ S.faults input.old }
    ensures no_write_failed { result.1 ≢ cause.WriteFault → (K.faults out.new ≡ K.faults out.old) × (K.refusals out.new ≡ K.refusals out.old) }
{
    let mut kept = kept;
    let mut number: u64 = 1;
    loop {
        match lines.next_line(input) {
            Ok(()) => {}
            Err(why) => return end(alloc, kept, why, lines, number, out),
        }
        let (next, taken) = take_line(alloc, kept, lines.line(), out);
        kept = next;
        match taken {
            Ok(()) => {}
            Err(stop) => return (kept, cause_of(stop, number)),
        }
        number += 1;
    }
}

// No line is given any more: what came of the line of this number is a line too where the input is over.
fn end<D: Disk + Drop, K: Sink>(
    alloc: Global,
    kept: Kept<D>,
    why: NoLine,
    lines: &SourceLines,
    number: u64,
    out: &mut K,
) -> (Kept<D>, Cause)
    ensures ends { (first : D) (stage : Stage) → KeptAt D.tells D.reads D.leaves D.faults first stage kept
        → EndsAt D.tells D.reads D.leaves D.faults why first stage lines.now number result.0 result.1 (K.held out.old) (K.held out.new) }
    ensures write_fault { result.1 ≡ cause.WriteFault
        → Failed (K.faults out.old) (K.faults out.new) (K.refusals out.old) (K.refusals out.new) }
    ensures no_write_failed { result.1 ≢ cause.WriteFault → (K.faults out.new ≡ K.faults out.old) × (K.refusals out.new ≡ K.refusals out.old) }
    ensures read_fault { (result.1 ≡ cause.ReadFault) → why ≡ NoLine.Fault }
    ensures fault { why ≡ NoLine.Fault → result.1 ≡ cause.ReadFault }
{
    match why {
        NoLine::End => take_last(alloc, kept, lines.line(), number, out),
        NoLine::Fault => (kept, Cause::ReadFault),
        NoLine::Bound => (kept, Cause::Full(0, 0, lines.count())),
        NoLine::Long => (kept, Cause::Line(number, 600_000)),
        NoLine::NoMemory => (kept, Cause::NoMemory),
    }
}

// The input is over, and what came of its last line is a line too.
fn take_last<D: Disk + Drop, K: Sink>(
    alloc: Global,
    kept: Kept<D>,
    line: &[u8],
    number: u64,
    out: &mut K,
) -> (Kept<D>, Cause)
    ensures ends { (first : D) (stage : Stage) → KeptAt D.tells D.reads D.leaves D.faults first stage kept
        → TakesLast D.tells D.reads D.leaves D.faults first stage (spool_line_of (is_open stage) line.now) number result.0 result.1 (K.held out.old) (K.held out.new) }
    ensures write_fault { result.1 ≡ cause.WriteFault
        → Failed (K.faults out.old) (K.faults out.new) (K.refusals out.old) (K.refusals out.new) }
    ensures no_write_failed { result.1 ≢ cause.WriteFault → (K.faults out.new ≡ K.faults out.old) × (K.refusals out.new ≡ K.refusals out.old) }
    ensures no_read_fault { result.1 ≢ cause.ReadFault }
{
    let (kept, taken) = take_line(alloc, kept, line, out);
    match taken {
        Ok(()) => (kept, Cause::Done),
        Err(stop) => (kept, cause_of(stop, number)),
    }
}
