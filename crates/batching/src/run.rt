//! A batch from its beginning to its end.
ghost use Rattle.std.specs.Prelude.{◌≡◌, ◌≢◌, ◌≤◌, [], true, OnOk};
ghost use Rattle.outside.specs.Counts.{Failed};
ghost use Rattle.tool_events.specs.Configs.{IsConfig};
ghost use Rattle.run_causes.specs.declared.cause.Cause.TheVariants as cause;
ghost use Rattle.run_causes.specs.Status.{status_of};
ghost use Rattle.batch_model.specs.Batch.{answers, begun, carriers_made, then_made};
ghost use Rattle.batching.specs.Batched.{BatchedUnder};
ghost use Rattle.batching.specs.Making.{batch_seen, standing, Makes};

use crate::batch::{Batch, Stop};
use crate::carriers::carry_all;
use crate::counts::notes_of;
use crate::summary::finish;
use crate::turns::{answer_all, begin};
use history_laws::Recorder;
use line_feeding::{Cause, Ended, Notes};
use outside::Sink;
use std::alloc::Global;
use std::collections::VecDeque;
use tool_events::Config;

// The carriers come, and last what the tool asked is answered.
fn carry_and_answer<C: Recorder>(
    alloc: Global,
    batch: &mut Batch<C>,
    config: &Config,
    carriers: u32,
) -> Result<(), Stop>
    requires config { IsConfig config.now }
    requires few { carriers ≤ 10000 }
    requires whole { (C.view batch.old.core).is_whole ≡ true }
    ensures made { Makes (C.view batch.old.core) (batch_seen C.view batch.new)
        (then_made (carriers_made carriers config.now 1 (standing (batch_seen C.view batch.old))) (answers config.now)) result }
    ensures whole { OnOk result ((C.view batch.new.core).is_whole ≡ true) }
{
    match carry_all(alloc, batch, config, carriers) {
        Ok(()) => answer_all(alloc, batch, config),
        Err(stop) => Err(stop),
    }
}

// The link comes up, and then the carriers come.
fn run<C: Recorder>(
    alloc: Global,
    batch: &mut Batch<C>,
    config: &Config,
    carriers: u32,
) -> Result<(), Stop>
    requires config { IsConfig config.now }
    requires few { carriers ≤ 10000 }
    requires whole { (C.view batch.old.core).is_whole ≡ true }
    ensures made { Makes (C.view batch.old.core) (batch_seen C.view batch.new)
        (then_made (begun config.now (standing (batch_seen C.view batch.old))) (λ s. then_made (carriers_made carriers config.now 1 s) (answers config.now))) result }
    ensures whole { OnOk result ((C.view batch.new.core).is_whole ≡ true) }
{
    match begin(alloc, batch, config) {
        Ok(()) => carry_and_answer(alloc, batch, config, carriers),
        Err(stop) => Err(stop),
    }
}

/// Does a batch of so many carriers, from this seed, over any `Recorder`, and writes its summary.
///
/// The configuration keeps its bounds (this tool's profile, docs/profile/configuration.md). There are 10,000 carriers at most. The
/// returned value has the history and a note of each session, and says by its status and cause why the batch ended: `Done` where
/// all was done and the summary is written, `Full` at the limits of the history, `WriteFault` where the summary could not be
/// written, and `NoMemory`.
pub fn batch_over<C: Recorder, K: Sink>(
    alloc: Global,
    config: &Config,
    seed: u64,
    carriers: u32,
    out: &mut K,
) -> Ended
    requires bounds { IsConfig config.now }
    requires carriers { carriers ≤ 10000 }
    // The history and the notes are those of the batch, and its summary is written, and nothing else.
    ensures batched { BatchedUnder config.now seed carriers result.cause (K.held out.old) (K.held out.new) result.history result.sessions }

    // When each cause comes.
    ensures status { result.status ≡ status_of result.cause }
    ensures write_fault { result.cause ≡ cause.WriteFault
        → Failed (K.faults out.old) (K.faults out.new) (K.refusals out.old) (K.refusals out.new) }
    // What failed is told, unless memory runs out after it: at no other cause did a write fail.
    ensures no_write_failed { result.cause ≢ cause.WriteFault → result.cause ≢ cause.NoMemory
        → (K.faults out.new ≡ K.faults out.old) × (K.refusals out.new ≡ K.refusals out.old) }

    // Until they are built.
    ensures no_panels { result.panels ≡ [] }
{
    let Ok(core) = C::open(alloc, config) else {
        return Ended::without_history(alloc, Cause::NoMemory);
    };
    let mut batch = Batch {
        core,
        asked: VecDeque::new(alloc),
        drawn: seed,
    };
    let ran = run(alloc, &mut batch, config, carriers);
    let Batch { core, .. } = batch;
    let cause = finish(alloc, &core, ran, carriers, out);
    let Ok(sessions) = notes_of(alloc, &core) else {
        return Ended::with_history(alloc, Cause::NoMemory, core.close(), Notes::none(alloc));
    };
    Ended::with_history(alloc, cause, core.close(), sessions)
}
