//! What the commands do once the configuration was read, over the core.
ghost use Rattle.std.specs.Prelude.{◌≡◌, ◌≢◌, ◌≤◌, ℕ, [], List, length};
ghost use Rattle.outside.specs.Counts.{Rose, Failed};
ghost use Rattle.tool_events.specs.Configs.{IsConfig};
ghost use Rattle.gem_model.specs.State.{opening};
ghost use Rattle.gem_model.specs.Run.{after_all};
ghost use Rattle.history_laws.specs.Recorded.{Recorded};
ghost use Rattle.gem_model.specs.Sizes.{bytes_of};
ghost use Rattle.run_causes.specs.declared.cause.Cause.TheVariants as cause;
ghost use Rattle.run_causes.specs.Status.{status_of};
ghost use Rattle.line_feeding.specs.Fed.{looked, Fed, Shown};
ghost use Rattle.batching.specs.Batched.{BatchedUnder};

use batching::batch_over;
use feeding::feed_over;
use line_feeding::Ended;
use outside::{Sink, Source};
use std::alloc::Global;
use tool_core::Core;
use tool_events::Config;

/// Does what `feed` does once the configuration was read: reads lines of the input, and writes the lines of what happens.
///
/// The configuration keeps its bounds (this tool's profile, docs/profile/configuration.md). The returned value has the
/// history and a note of each session, and says by its status and cause why the run ended (docs/profile/lines.md).
pub fn feed_config<S: Source, K: Sink>(
    alloc: Global,
    config: &Config,
    input: &mut S,
    out: &mut K,
) -> Ended
    requires { IsConfig config.now }
    // All that is recorded holds of the history: it is a run of the tables from the first state, its notes are those that were
    // reported, each with one fate and sent in order, and so on.
    ensures recorded { Recorded config.now result.history (after_all (opening config.now) result.history) }
    // It is within the limits.
    ensures entries_fit { length result.history ≤ config.now.max_entries }
    ensures bytes_fit { bytes_of result.history ≤ config.now.max_bytes }
    // It is what the text gave that was read of the input, and so are the notes, one for each session.
    ensures fed { Fed config.now result.cause (looked S.left S.faults S.ends input.old) (looked S.left S.faults S.ends input.new) result.history result.sessions }
    // Its lines are written, and no others.
    ensures printed { Shown config.now result.cause (K.held out.old) (K.held out.new) result.history }

    // When each cause comes.
    ensures status { result.status ≡ status_of result.cause }
    ensures read_fault { result.cause ≡ cause.ReadFault → Rose (S.faults input.old) (S.faults input.new) }
    ensures write_fault { result.cause ≡ cause.WriteFault
        → Failed (K.faults out.old) (K.faults out.new) (K.refusals out.old) (K.refusals out.new) }
    // What failed is told, unless memory runs out after it: at no other cause did a read or a write fail.
    ensures no_read_failed { result.cause ≢ cause.ReadFault → result.cause ≢ cause.NoMemory → S.faults input.new ≡ S.faults input.old }
    ensures no_write_failed { result.cause ≢ cause.WriteFault → result.cause ≢ cause.NoMemory
        → (K.faults out.new ≡ K.faults out.old) × (K.refusals out.new ≡ K.refusals out.old) }
    ensures words { (place : ℕ) → result.cause ≢ cause.Words place }
    ensures config { (rule : ℕ) (key : List ℕ) → result.cause ≢ cause.Config rule key }
    ensures door { result.cause ≢ cause.Door }

    // Until they are built.
    ensures no_panels { result.panels ≡ [] }
{
    feed_over::<Core, S, K>(alloc, config, input, out)
}

/// Does a batch of so many carriers, from this seed, and writes its summary.
///
/// The configuration keeps its bounds (this tool's profile, docs/profile/configuration.md). There are 10,000 carriers at most. The
/// returned value has the history and a note of each session, and says by its status and cause why the batch ended: `Done` where
/// all was done and the summary is written, `Full` at the limits of the history, `WriteFault` where the summary could not be
/// written, and `NoMemory`.
pub fn batch_config<K: Sink>(
    alloc: Global,
    config: &Config,
    seed: u64,
    carriers: u32,
    out: &mut K,
) -> Ended
    requires bounds { IsConfig config.now }
    requires carriers { carriers ≤ 10000 }
    // The history and the notes are those of the batch, and its summary is written, and nothing else.
    ensures batched { BatchedUnder config.now seed carriers result.cause (K.held out.old) (K.held out.new) result.history result.sessions }

    // When each cause comes.
    ensures status { result.status ≡ status_of result.cause }
    ensures write_fault { result.cause ≡ cause.WriteFault
        → Failed (K.faults out.old) (K.faults out.new) (K.refusals out.old) (K.refusals out.new) }
    // What failed is told, unless memory runs out after it: at no other cause did a write fail.
    ensures no_write_failed { result.cause ≢ cause.WriteFault → result.cause ≢ cause.NoMemory
        → (K.faults out.new ≡ K.faults out.old) × (K.refusals out.new ≡ K.refusals out.old) }

    // Until they are built.
    ensures no_panels { result.panels ≡ [] }
{
    batch_over::<Core, K>(alloc, config, seed, carriers, out)
}
