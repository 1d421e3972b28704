//! `serve`: the configuration, the run, and its log.
ghost use Rattle.std.specs.Prelude.{◌≡◌, ◌≢◌, ◌↔◌, ◌⊎◌, ℕ, Some, []};
ghost use Rattle.tool_events.specs.declared.config.Config.{Config};
ghost use Rattle.tool_events.specs.Configs.{IsConfig};
ghost use Rattle.source_lines.specs.Reads.{source_told};
ghost use Rattle.host_actor.specs.Links.{link_told, door_told};
ghost use Rattle.tool_crew.specs.Crews.{outside};
ghost use Rattle.run_causes.specs.declared.cause.Cause.TheVariants as cause;
ghost use Rattle.run_causes.specs.Status.{status_of};
ghost use Rattle.line_feeding.specs.Fed.{looked};
ghost use Rattle.line_feeding.specs.Going.{seen};
ghost use Rattle.line_feeding.specs.Words.{serve_refused_at};
ghost use Rattle.serving.specs.Served.{Closed, ClosedUnopened, Served, ServedUnder};

use crate::cause::{cause_of, told_end};
use crate::log::{log_text, write_log};
use crate::notes::session_notes;
use gem_ids::Text80;
use history_laws::Recorder;
use history_parts::Totals;
use line_feeding::{Cause, Ended, Notes, check_serve_words, read_configuration};
use outside::{Clock, Door, Gate, Sink, Source};
use std::alloc::Global;
use std::sync::Wait;
use std::thread::Threads;
use tool_core::Core;
use tool_crew::{Ran, run_tool};
use tool_events::Config;

// The door could not be opened: the log tells of a history without an entry.
fn close_unopened<K: Sink>(alloc: Global, log: &mut K) -> Ended
    ensures none { (result.history ≡ []) × (result.sessions ≡ []) × (result.panels ≡ []) }
    ensures status { result.status ≡ status_of result.cause }
    ensures closed { (c : Config) → ClosedUnopened c result.cause (seen K.held K.faults K.refusals log.old) (seen K.held K.faults K.refusals log.new) }
{
    let totals = Totals {
        sessions: 0,
        notes: 0,
        answered: 0,
        dropped: 0,
        done: 0,
        completed: 0,
        substrates: 0,
    };
    let Ok(text) = log_text(alloc, 0, &totals) else {
        return Ended::without_history(alloc, Cause::NoMemory);
    };
    let _ = write_log(log, text.as_slice());
    Ended::without_history(alloc, Cause::Door)
}

// The run is over: its sessions are noted, its log is written, and its cause is told.
fn close_run<C: Recorder, K: Sink>(alloc: Global, ran: Ran<C>, log: &mut K) -> Ended
    ensures history { result.history ≡ (C.view ran.core).history }
    ensures closed { Closed (C.view ran.core).config (C.view ran.core).history ran.sessions.items ran.script_bytes ran.ends result.cause
        (seen K.held K.faults K.refusals log.old) (seen K.held K.faults K.refusals log.new) result.sessions }
    ensures status { result.status ≡ status_of result.cause }
    ensures no_panels { result.panels ≡ [] }
{
    let Ran {
        core,
        ends,
        sessions,
        script_bytes,
    } = ran;
    let Ok(notes) = session_notes(alloc, &core, sessions.as_slice()) else {
        return Ended::with_history(alloc, Cause::NoMemory, core.close(), Notes::none(alloc));
    };
    let entries = core.history().len() as u64;
    let Ok(text) = log_text(alloc, entries, &core.totals()) else {
        return Ended::with_history(alloc, Cause::NoMemory, core.close(), notes);
    };
    let logged = write_log(log, text.as_slice());
    let cause = cause_of(told_end(&ends), logged, entries, core.bytes(), script_bytes);
    Ended::with_history(alloc, cause, core.close(), notes)
}

// Does what `serve_config` does, over any core.
fn serve_over<
    C: Recorder + Send,
    R: Threads + Wait + Sync,
    X: Door + Send,
    S: Source + Send,
    T: Clock + Send,
    K: Sink,
    G: Gate + Sync,
>(
    rt: &R,
    alloc: Global,
    config: &Config,
    door: &mut X,
    script: &mut S,
    clock: &mut T,
    log: &mut K,
    gate: &G,
) -> Ended
    requires { IsConfig config.now }
    ensures served { ServedUnder (link_told X.In.left X.In.faults X.In.ends X.Out.held X.Out.faults X.Out.refusals X.Out.is_shut) config.now result.cause
        (outside (door_told X.left X.backs X.opened_at X.faults X.links X.waits X.closings door.old) (source_told S.left S.faults S.ends script.old) (T.given clock.old))
        (outside (door_told X.left X.backs X.opened_at X.faults X.links X.waits X.closings door.new) (source_told S.left S.faults S.ends script.new) (T.given clock.new))
        (seen K.held K.faults K.refusals log.old) (seen K.held K.faults K.refusals log.new) result.history result.sessions }
    ensures status { result.status ≡ status_of result.cause }
    ensures no_panels { result.panels ≡ [] }
{
    let Ok(()) = door.open(config.tcp_port) else {
        return close_unopened(alloc, log);
    };
    match run_tool::<C, R, X, S, T, G>(rt, alloc, config, door, script, clock, gate) {
        Ok(ran) => close_run(alloc, ran, log),
        Err(_) => Ended::without_history(alloc, Cause::NoMemory),
    }
}

/// Does what `serve` does once the configuration was read: listens at its port, runs all actors over the core until they have ended, and
/// writes the log.
///
/// The configuration keeps its bounds (this tool's profile, docs/profile/configuration.md). The returned value has the history and a
/// note of each session, and says by its status and cause why the run ended (docs/profile/serve.md).
pub fn serve_config<
    R: Threads + Wait + Sync,
    X: Door + Send,
    S: Source + Send,
    T: Clock + Send,
    K: Sink,
    G: Gate + Sync,
>(
    rt: &R,
    alloc: Global,
    config: &Config,
    door: &mut X,
    script: &mut S,
    clock: &mut T,
    log: &mut K,
    gate: &G,
) -> Ended
    requires { IsConfig config.now }
    ensures served { ServedUnder (link_told X.In.left X.In.faults X.In.ends X.Out.held X.Out.faults X.Out.refusals X.Out.is_shut) config.now result.cause
        (outside (door_told X.left X.backs X.opened_at X.faults X.links X.waits X.closings door.old) (source_told S.left S.faults S.ends script.old) (T.given clock.old))
        (outside (door_told X.left X.backs X.opened_at X.faults X.links X.waits X.closings door.new) (source_told S.left S.faults S.ends script.new) (T.given clock.new))
        (seen K.held K.faults K.refusals log.old) (seen K.held K.faults K.refusals log.new) result.history result.sessions }
    ensures status { result.status ≡ status_of result.cause }
    // Until they are built.
    ensures no_panels { result.panels ≡ [] }
{
    serve_over::<Core, R, X, S, T, K, G>(rt, alloc, config, door, script, clock, log, gate)
}

/// Does the command `serve`: reads the configuration, listens at its port, runs the host actor, the operator, the clock and the modules
/// over one core, each on a thread of its own, until all have ended, and writes the log.
///
/// The words are checked first, then the configuration is read to its end, then the door is opened. The returned value has the
/// history and a note of each session, and says by its status and cause why the run ended (docs/profile/serve.md).
pub fn serve<
    R: Threads + Wait + Sync,
    C: Source,
    X: Door + Send,
    S: Source + Send,
    T: Clock + Send,
    K: Sink,
    G: Gate + Sync,
>(
    rt: &R,
    alloc: Global,
    words: &[Text80],
    config: &mut C,
    door: &mut X,
    script: &mut S,
    clock: &mut T,
    log: &mut K,
    gate: &G,
) -> Ended
    ensures served { Served (link_told X.In.left X.In.faults X.In.ends X.Out.held X.Out.faults X.Out.refusals X.Out.is_shut) result.cause
        (looked C.left C.faults C.ends config.old) (looked C.left C.faults C.ends config.new)
        (outside (door_told X.left X.backs X.opened_at X.faults X.links X.waits X.closings door.old) (source_told S.left S.faults S.ends script.old) (T.given clock.old))
        (outside (door_told X.left X.backs X.opened_at X.faults X.links X.waits X.closings door.new) (source_told S.left S.faults S.ends script.new) (T.given clock.new))
        (seen K.held K.faults K.refusals log.old) (seen K.held K.faults K.refusals log.new) result.history result.sessions }
    // When each cause comes that the run does not tell.
    ensures status { result.status ≡ status_of result.cause }
    ensures words { (place : ℕ) → (result.cause ≡ cause.Words place) ↔ (serve_refused_at words.now ≡ Some place) }
    // At no other cause did a read of the configuration fail.
    ensures no_read_failed { result.cause ≢ cause.ReadFault → C.faults config.new ≡ C.faults config.old }
    // Until they are built.
    ensures no_panels { result.panels ≡ [] }
{
    if let Err(place) = check_serve_words(words) {
        return Ended::without_history(alloc, Cause::Words(place));
    }
    match read_configuration(alloc, config) {
        Ok(config) => serve_config(rt, alloc, &config, door, script, clock, log, gate),
        Err(cause) => Ended::without_history(alloc, cause),
    }
}
