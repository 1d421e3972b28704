//! Lines in, lines out.
ghost use Rattle.std.specs.Prelude.{◌≡◌, ◌≢◌, ◌≤◌, ℕ, [], List, length, map, Err};
ghost use Rattle.outside.specs.Counts.{Rose, Failed};
ghost use Rattle.tool_events.specs.Configs.{IsConfig};
ghost use Rattle.tool_events.specs.declared.config.Config.{Config};
ghost use Rattle.gem_model.specs.State.{opening};
ghost use Rattle.gem_model.specs.Run.{after_all};
ghost use Rattle.history_laws.specs.Recorded.{Recorded};
ghost use Rattle.gem_model.specs.Sizes.{bytes_of};
ghost use Rattle.run_causes.specs.declared.cause.Cause.TheVariants as cause;
ghost use Rattle.run_causes.specs.Status.{status_of};
ghost use Rattle.line_feeding.specs.Fed.{looked, Fed, Shown};
ghost use Rattle.line_feeding.specs.CauseOf.{cause_after};

use crate::input::read_lines;
use crate::notes::session_notes;
use crate::reader::Reader;
use history_laws::Recorder;
use line_feeding::{Cause, Ended, Halt, InputEnd, InputRead, Notes};
use outside::{Sink, Source};
use std::alloc::Global;
use tool_events::Config;

/// Why a run ended whose reading ended so, with this core, in the line of this number.
fn cause_of<C: Recorder>(read: InputRead, core: &C, number: u64) -> Cause
    ensures { result ≡ cause_after read.end read.count (C.view core.now).history number }
{
    match read.end {
        InputEnd::Whole | InputEnd::Halted(Halt::Quit) => Cause::Done,
        InputEnd::Fault => Cause::ReadFault,
        InputEnd::Bound | InputEnd::Halted(Halt::Full) => {
            Cause::Full(core.history().len() as u64, core.bytes(), read.count)
        }
        InputEnd::Halted(Halt::Line(place)) => Cause::Line(number, place),
        InputEnd::Halted(Halt::Write) => Cause::WriteFault,
        InputEnd::Halted(Halt::NoMemory) => Cause::NoMemory,
    }
}

/// Does what `feed` does once the configuration was read, over any `Recorder`: reads lines of the input, and writes the lines of what happens.
///
/// The configuration keeps its bounds (this tool's profile, docs/profile/configuration.md). The returned value has the
/// history and a note of each session, and says by its status and cause why the run ended (docs/profile/lines.md).
#[tactic(auto, using(crate::proofs::NothingHappened::recorded_none))]
pub fn feed_over<C: Recorder, S: Source, K: Sink>(
    alloc: Global,
    config: &Config,
    input: &mut S,
    out: &mut K,
) -> Ended
    requires { IsConfig config.now }
    // All that is recorded holds of the history: it is a run of the tables from the first state, its notes are those that were
    // reported, each with one fate and sent in order, and so on.
    ensures recorded { Recorded config.now result.history (after_all (opening config.now) result.history) }
    // It is within the limits.
    ensures entries_fit { length result.history ≤ config.now.max_entries }
    ensures bytes_fit { bytes_of result.history ≤ config.now.max_bytes }
    // It is what the text gave that was read of the input, and so are the notes, one for each session.
    ensures fed { Fed config.now result.cause (looked S.left S.faults S.ends input.old) (looked S.left S.faults S.ends input.new) result.history result.sessions }
    // Its lines are written, and no others.
    ensures printed { Shown config.now result.cause (K.held out.old) (K.held out.new) result.history }

    // When each cause comes.
    ensures status { result.status ≡ status_of result.cause }
    ensures read_fault { result.cause ≡ cause.ReadFault → Rose (S.faults input.old) (S.faults input.new) }
    ensures write_fault { result.cause ≡ cause.WriteFault
        → Failed (K.faults out.old) (K.faults out.new) (K.refusals out.old) (K.refusals out.new) }
    // What failed is told, unless memory runs out after it: at no other cause did a read or a write fail.
    ensures no_read_failed { result.cause ≢ cause.ReadFault → result.cause ≢ cause.NoMemory → S.faults input.new ≡ S.faults input.old }
    ensures no_write_failed { result.cause ≢ cause.WriteFault → result.cause ≢ cause.NoMemory
        → (K.faults out.new ≡ K.faults out.old) × (K.refusals out.new ≡ K.refusals out.old) }
    ensures words { (place : ℕ) → result.cause ≢ cause.Words place }
    ensures config { (rule : ℕ) (key : List ℕ) → result.cause ≢ cause.Config rule key }
    ensures door { result.cause ≢ cause.Door }

    // Until they are built.
    ensures no_panels { result.panels ≡ [] }
{
    let Ok(mut reader) = Reader::<C>::open(alloc, config) else {
        return Ended::without_history(alloc, Cause::NoMemory);
    };
    let read = read_lines(alloc, &mut reader, input, out);
    let Reader { feeder, number, .. } = reader;
    let Ok(sessions) = session_notes(alloc, &feeder.core, &feeder.reads) else {
        let history = feeder.into_history();
        return Ended::with_history(alloc, Cause::NoMemory, history, Notes::none(alloc));
    };
    let cause = cause_of(read, &feeder.core, number);
    Ended::with_history(alloc, cause, feeder.into_history(), sessions)
}
