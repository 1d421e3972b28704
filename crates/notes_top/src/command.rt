//! The command.
ghost use Rattle.std.specs.Prelude.{◌≡◌, ◌≢◌, ◌↔◌, ℕ, Some, None, IfErr, IsOk};
ghost use Rattle.outside.specs.Counts.{Failed};
ghost use Rattle.source_lines.specs.Reads.{source_told};
ghost use Rattle.run_causes.specs.declared.cause.Cause.TheVariants as cause;
ghost use Rattle.run_causes.specs.Status.{status_of};
ghost use Rattle.notes_top.specs.Ran.{NotesRan};
ghost use Rattle.notes_top.specs.Words.{notes_refused_at};

use crate::running::notes;
use gem_ids::Text80;
use outside::{Disk, Sink, Source};
use program_words::{Words, WordsFault, command_of};
use run_causes::Cause;
use std::alloc::Global;

/// Whether the words are the command `notes FILE` (this tool's profile, the program's words). The error is the place of the first, counted
/// from 0, that does not fit it: where they are no command at all, the one that fits none. Takes no memory.
fn check_notes_words(words: &[Text80]) -> Result<(), u64>
    ensures fits { IsOk result ↔ (notes_refused_at words.now ≡ None) }
    ensures place { IfErr result (λ place. notes_refused_at words.now ≡ Some place) }
{
    match command_of(words) {
        Ok(Words::Notes(_)) => Ok(()),
        Ok(_) => Err(0),
        Err(WordsFault::Place(place)) => Err(place),
    }
}

/// Does the command `notes FILE`, over the disk in place of the file: what `notes` does. Other words are refused with status 1, and nothing
/// happens then. The status, why the run ended, and the disk.
pub fn notes_top<D: Disk + Drop, S: Source, K: Sink>(
    alloc: Global,
    words: &[Text80],
    disk: D,
    input: &mut S,
    out: &mut K,
) -> (u8, Cause, D)
    // Where the words are `notes FILE`, the lines of the input were done.
    ensures ran { notes_refused_at words.now ≡ None → NotesRan D.tells D.reads D.leaves D.faults result.1 (source_told S.left S.faults S.ends input.old) (source_told S.left S.faults S.ends input.new)
        (K.held out.old) (K.held out.new) disk result.2 }
    // Where they are refused, nothing happened.
    ensures refused { (place : ℕ) → notes_refused_at words.now ≡ Some place
        → (result.2 ≡ disk) × (source_told S.left S.faults S.ends input.new ≡ source_told S.left S.faults S.ends input.old) × (K.held out.new ≡ K.held out.old) }

    // When each cause comes.
    ensures status { result.0 ≡ status_of result.1 }
    ensures words { (place : ℕ) → (result.1 ≡ cause.Words place) ↔ (notes_refused_at words.now ≡ Some place) }
    ensures write_fault { result.1 ≡ cause.WriteFault
        → Failed (K.faults out.old) (K.faults out.new) (K.refusals out.old) (K.refusals out.new) }
    // What failed is told: at no other cause did a read or a write fail.
    ensures no_read_failed { result.1 ≢ cause.ReadFault → S.faults input.new ≡ S.faults input.old }
    ensures no_write_failed { result.1 ≢ cause.WriteFault → (K.faults out.new ≡ K.faults out.old) × (K.refusals out.new ≡ K.refusals out.old) }
{
    match check_notes_words(words) {
        Ok(()) => notes(alloc, disk, input, out),
        Err(place) => {
            let cause = Cause::Words(place);
            (cause.status(), cause, disk)
        }
    }
}
