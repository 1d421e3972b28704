//! The commands `feed` and `batch`.
ghost use Rattle.std.specs.Prelude.{◌≡◌, ◌≢◌, ◌≤◌, ◌↔◌, ◌⊎◌, ℕ, Some, [], List};
ghost use Rattle.outside.specs.Counts.{Rose, Failed};
ghost use Rattle.program_words.specs.Commands.{Spells};
ghost use Rattle.program_words.specs.declared.words.Words.TheVariants as command;
ghost use Rattle.run_causes.specs.declared.cause.Cause.TheVariants as cause;
ghost use Rattle.run_causes.specs.Status.{status_of};
ghost use Rattle.line_feeding.specs.Fed.{looked};
ghost use Rattle.line_feeding.specs.Going.{seen};
ghost use Rattle.line_feeding.specs.Words.{refused_at};
ghost use Rattle.top_calls.specs.Ran.{FeedRan, BatchRan, Untouched};

use crate::configured::{batch_config, feed_config};
use gem_ids::Text80;
use line_feeding::{Cause, Ended, FeedWords, check_words, read_configuration};
use outside::{Sink, Source};
use std::alloc::Global;

/// Does the command `feed`: reads the configuration, then lines of the input, and writes the lines of what happens.
fn run_feed<C: Source, S: Source, K: Sink>(
    alloc: Global,
    config: &mut C,
    input: &mut S,
    out: &mut K,
) -> Ended
    ensures ran { FeedRan result.cause (looked C.left C.faults C.ends config.old) (looked C.left C.faults C.ends config.new)
        (looked S.left S.faults S.ends input.old) (looked S.left S.faults S.ends input.new)
        (seen K.held K.faults K.refusals out.old) (seen K.held K.faults K.refusals out.new) result.history result.sessions }
    ensures status { result.status ≡ status_of result.cause }
    ensures words { (place : ℕ) → result.cause ≢ cause.Words place }
    ensures door { result.cause ≢ cause.Door }
    ensures read_fault { result.cause ≡ cause.ReadFault
        → Rose (C.faults config.old) (C.faults config.new) ⊎ Rose (S.faults input.old) (S.faults input.new) }
    ensures write_fault { result.cause ≡ cause.WriteFault
        → Failed (K.faults out.old) (K.faults out.new) (K.refusals out.old) (K.refusals out.new) }
    ensures no_read_failed { result.cause ≢ cause.ReadFault → result.cause ≢ cause.NoMemory
        → (C.faults config.new ≡ C.faults config.old) × (S.faults input.new ≡ S.faults input.old) }
    ensures no_write_failed { result.cause ≢ cause.WriteFault → result.cause ≢ cause.NoMemory
        → (K.faults out.new ≡ K.faults out.old) × (K.refusals out.new ≡ K.refusals out.old) }
    ensures no_panels { result.panels ≡ [] }
{
    match read_configuration(alloc, config) {
        Ok(config) => feed_config(alloc, &config, input, out),
        Err(cause) => Ended::without_history(alloc, cause),
    }
}

/// Does the command `batch` with this seed, of so many carriers: reads the configuration, and writes the summary.
fn run_batch<C: Source, K: Sink>(
    alloc: Global,
    seed: u64,
    carriers: u32,
    config: &mut C,
    out: &mut K,
) -> Ended
    requires { carriers ≤ 10000 }
    ensures ran { BatchRan seed carriers result.cause (looked C.left C.faults C.ends config.old) (looked C.left C.faults C.ends config.new)
        (seen K.held K.faults K.refusals out.old) (seen K.held K.faults K.refusals out.new) result.history result.sessions }
    ensures status { result.status ≡ status_of result.cause }
    ensures words { (place : ℕ) → result.cause ≢ cause.Words place }
    ensures door { result.cause ≢ cause.Door }
    ensures read_fault { result.cause ≡ cause.ReadFault → Rose (C.faults config.old) (C.faults config.new) }
    ensures write_fault { result.cause ≡ cause.WriteFault
        → Failed (K.faults out.old) (K.faults out.new) (K.refusals out.old) (K.refusals out.new) }
    ensures no_read_failed { result.cause ≢ cause.ReadFault → result.cause ≢ cause.NoMemory
        → C.faults config.new ≡ C.faults config.old }
    ensures no_write_failed { result.cause ≢ cause.WriteFault → result.cause ≢ cause.NoMemory
        → (K.faults out.new ≡ K.faults out.old) × (K.refusals out.new ≡ K.refusals out.old) }
    ensures no_panels { result.panels ≡ [] }
{
    match read_configuration(alloc, config) {
        Ok(config) => batch_config(alloc, &config, seed, carriers, out),
        Err(cause) => Ended::without_history(alloc, cause),
    }
}

/// Does the command that the words spell. `feed CONFIG` reads the configuration, then lines of the input, and writes the lines of what
/// happens. `batch SEED CARRIERS CONFIG` reads the configuration, processes so many carriers in an order that comes of the seed,
/// and writes a summary; it reads no input.
///
/// The words are checked first, then the configuration is read to its end, then the input is read. The returned value
/// has the history and a note of each session, and says by its status and cause why the run ended (this tool's profile,
/// docs/profile/lines.md and docs/profile/batch.md).
pub fn feed<C: Source, S: Source, K: Sink>(
    alloc: Global,
    words: &[Text80],
    config: &mut C,
    input: &mut S,
    out: &mut K,
) -> Ended
    // Where the words are `feed CONFIG`, it ran under the configuration that was read; where none was read, nothing happened.
    ensures fed { (name : List ℕ) → Spells words.now (command.Feed name)
        → FeedRan result.cause (looked C.left C.faults C.ends config.old) (looked C.left C.faults C.ends config.new)
        (looked S.left S.faults S.ends input.old) (looked S.left S.faults S.ends input.new)
        (seen K.held K.faults K.refusals out.old) (seen K.held K.faults K.refusals out.new) result.history result.sessions }
    // Where they are `batch SEED CARRIERS CONFIG`, the batch ran under the configuration that was read; where none was read, nothing
    // happened.
    ensures batched { (seed carriers : ℕ) (name : List ℕ) → Spells words.now (command.Batch seed carriers name)
        → BatchRan seed carriers result.cause (looked C.left C.faults C.ends config.old) (looked C.left C.faults C.ends config.new)
        (seen K.held K.faults K.refusals out.old) (seen K.held K.faults K.refusals out.new) result.history result.sessions }
    // A batch reads no input.
    ensures batch_reads_none { (seed carriers : ℕ) (name : List ℕ) → Spells words.now (command.Batch seed carriers name)
        → looked S.left S.faults S.ends input.new ≡ looked S.left S.faults S.ends input.old }
    // Where they are refused, nothing happened.
    ensures refused { (place : ℕ) → refused_at words.now ≡ Some place
        → Untouched (looked C.left C.faults C.ends config.old) (looked C.left C.faults C.ends config.new)
        (looked S.left S.faults S.ends input.old) (looked S.left S.faults S.ends input.new)
        (seen K.held K.faults K.refusals out.old) (seen K.held K.faults K.refusals out.new) result.history result.sessions }

    // When each cause comes.
    ensures status { result.status ≡ status_of result.cause }
    ensures words { (place : ℕ) → (result.cause ≡ cause.Words place) ↔ (refused_at words.now ≡ Some place) }
    ensures door { result.cause ≢ cause.Door }
    ensures read_fault { result.cause ≡ cause.ReadFault
        → Rose (C.faults config.old) (C.faults config.new) ⊎ Rose (S.faults input.old) (S.faults input.new) }
    ensures write_fault { result.cause ≡ cause.WriteFault
        → Failed (K.faults out.old) (K.faults out.new) (K.refusals out.old) (K.refusals out.new) }
    // What failed is told, unless memory runs out after it: at no other cause did a read or a write fail.
    ensures no_read_failed { result.cause ≢ cause.ReadFault → result.cause ≢ cause.NoMemory
        → (C.faults config.new ≡ C.faults config.old) × (S.faults input.new ≡ S.faults input.old) }
    ensures no_write_failed { result.cause ≢ cause.WriteFault → result.cause ≢ cause.NoMemory
        → (K.faults out.new ≡ K.faults out.old) × (K.refusals out.new ≡ K.refusals out.old) }

    // Until they are built.
    ensures no_panels { result.panels ≡ [] }
{
    match check_words(words) {
        Ok(FeedWords::Feed) => run_feed(alloc, config, input, out),
        Ok(FeedWords::Batch(seed, carriers)) => run_batch(alloc, seed, carriers, config, out),
        Err(place) => Ended::without_history(alloc, Cause::Words(place)),
    }
}
