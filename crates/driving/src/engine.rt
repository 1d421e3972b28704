//! An input, the frames that wait behind it, and the commands that are fetched.
ghost use Rattle.std.specs.Prelude.{◌≡◌, ◌≢◌, None, true, OnOk, option_map, option_and_then};
ghost use Rattle.floor_model.specs.Floor.{module_numbers};
ghost use Rattle.gem_model.specs.State.{opening, is_session_up};
ghost use Rattle.gem_model.specs.Sessions.{session_end};
ghost use Rattle.gem_model.specs.Step.{step};
ghost use Rattle.gem_model.specs.Printed.{fetches};
ghost use Rattle.gem_model.specs.Feed.{and_then, entered, taken_all, fetched_one, fetched_by, fetched_all, input};
ghost use Rattle.history_laws.specs.Recorded.{Recorded};
ghost use Rattle.tool_events.specs.declared.event.Event.TheVariants as events;
ghost use Rattle.driving.specs.Driving.{Drives};

use crate::handler::{AnswerHandler, Stop, Unhandled};
use gem_ids::{ModuleId, Moment};
use history_laws::Recorder;
use std::alloc::Global;
use tool_events::{Event, PostFault, SessionEnd};

/// The moment of what isn't a look at the clock: it raises no moment.
pub const AT_ONCE: Moment = Moment(0);

/// The module that an event lets fetch, where it is such an event.
fn fetches(event: &Event) -> Option<ModuleId>
    ensures { result ≡ fetches event.now }
{
    match event {
        Event::Fetch(m) => Some(*m),
        _ => None,
    }
}

/// The session that was up before and has ended now, with its cause.
fn ended_now<C: Recorder>(core: &C, before: Option<u64>) -> Option<SessionEnd>
    ensures { result ≡ option_and_then (λ k. option_map (λ cause. record { session = k; cause = cause }) (session_end (opening (C.view core.now).config) (C.view core.now).history k)) before }
{
    let session = before?;
    let cause = core.session_end(session)?;
    Some(SessionEnd { session, cause })
}

/// Posts an event at a moment, and hands on what it is answered.
fn post<C: Recorder, O, H: AnswerHandler<O>>(
    alloc: Global,
    core: &mut C,
    at: Moment,
    event: Event,
    handler: &mut H,
    out: &mut O,
) -> Result<(), Stop>
    requires step { step (C.view core.old).state at.0 event ≢ None }
    requires whole { (C.view core.old).is_whole ≡ true }
    ensures drives { Drives H.handles (C.view core.old) (C.view core.new) out.old out.new (entered (C.view core.old).state at.0 event) result }
    ensures before { Recorded (C.view core.old).config (C.view core.old).history (C.view core.old).state }
    ensures whole { OnOk result ((C.view core.new).is_whole ≡ true) }
{
    let before = core.session_up();
    let fetching = fetches(&event);
    let answer = match core.apply(alloc, 0, at, event) {
        Ok(answer) => answer,
        Err(PostFault::Full(_)) => return Err(Stop::Full),
        // `Again` can't come: it comes only where there is no step, and a step is required.
        Err(PostFault::Again | PostFault::NoMemory) => return Err(Stop::NoMemory),
    };
    let ended = ended_now(core, before);
    match handler.handle(alloc, fetching, answer, ended, out) {
        Ok(()) => Ok(()),
        Err(Unhandled::NoMemory) => Err(Stop::NoMemory),
        Err(Unhandled::Refused) => Err(Stop::Refused),
    }
}

/// The writer of this session takes each frame that waits.
fn take_frames<C: Recorder, O, H: AnswerHandler<O>>(
    alloc: Global,
    core: &mut C,
    session: u64,
    handler: &mut H,
    out: &mut O,
) -> Result<(), Stop>
    requires up { is_session_up (C.view core.old).state session ≡ true }
    requires whole { (C.view core.old).is_whole ≡ true }
    ensures drives { Drives H.handles (C.view core.old) (C.view core.new) out.old out.new (taken_all (C.view core.old).state) result }
    ensures whole { OnOk result ((C.view core.new).is_whole ≡ true) }
{
    while !core.idle(AT_ONCE, &Event::Take { session }) {
        match post(alloc, core, AT_ONCE, Event::Take { session }, handler, out) {
            Ok(()) => {}
            Err(stop) => return Err(stop),
        }
    }
    Ok(())
}

/// The writer takes each frame that waits.
fn take_waiting<C: Recorder, O, H: AnswerHandler<O>>(
    alloc: Global,
    core: &mut C,
    handler: &mut H,
    out: &mut O,
) -> Result<(), Stop>
    requires { (C.view core.old).is_whole ≡ true }
    ensures drives { Drives H.handles (C.view core.old) (C.view core.new) out.old out.new (taken_all (C.view core.old).state) result }
    ensures whole { OnOk result ((C.view core.new).is_whole ≡ true) }
{
    match core.session_up() {
        Some(session) => take_frames(alloc, core, session, handler, out),
        None => Ok(()),
    }
}

/// Posts an event at a moment, and then the writer takes each frame that waits.
fn post_and_take<C: Recorder, O, H: AnswerHandler<O>>(
    alloc: Global,
    core: &mut C,
    at: Moment,
    event: Event,
    handler: &mut H,
    out: &mut O,
) -> Result<(), Stop>
    requires step { step (C.view core.old).state at.0 event ≢ None }
    requires whole { (C.view core.old).is_whole ≡ true }
    ensures drives { Drives H.handles (C.view core.old) (C.view core.new) out.old out.new
        (and_then (entered (C.view core.old).state at.0 event) taken_all) result }
    ensures before { Recorded (C.view core.old).config (C.view core.old).history (C.view core.old).state }
    ensures whole { OnOk result ((C.view core.new).is_whole ≡ true) }
{
    match post(alloc, core, at, event, handler, out) {
        Ok(()) => take_waiting(alloc, core, handler, out),
        Err(stop) => Err(stop),
    }
}

/// A module fetches, where it has a command that was not fetched.
fn fetch_one<C: Recorder, O, H: AnswerHandler<O>>(
    alloc: Global,
    core: &mut C,
    m: ModuleId,
    handler: &mut H,
    out: &mut O,
) -> Result<(), Stop>
    requires { (C.view core.old).is_whole ≡ true }
    ensures drives { Drives H.handles (C.view core.old) (C.view core.new) out.old out.new (fetched_one m.0 (C.view core.old).state) result }
    ensures whole { OnOk result ((C.view core.new).is_whole ≡ true) }
{
    if core.idle(AT_ONCE, &Event::Fetch(m)) {
        return Ok(());
    }
    fetch_now(alloc, core, m, handler, out)
}

/// A module fetches its command. It stands apart (`inline(never)`): mostly no module has one, and a function clears the places of its
/// locals, with those of each call that is written out in its place.
#[inline(never)]
fn fetch_now<C: Recorder, O, H: AnswerHandler<O>>(
    alloc: Global,
    core: &mut C,
    m: ModuleId,
    handler: &mut H,
    out: &mut O,
) -> Result<(), Stop>
    requires step { step (C.view core.old).state AT_ONCE.0 (events.Fetch m) ≢ None }
    requires whole { (C.view core.old).is_whole ≡ true }
    ensures drives { Drives H.handles (C.view core.old) (C.view core.new) out.old out.new
        (entered (C.view core.old).state AT_ONCE.0 (events.Fetch m)) result }
    ensures whole { OnOk result ((C.view core.new).is_whole ≡ true) }
{
    post(alloc, core, AT_ONCE, Event::Fetch(m), handler, out)
}

/// Each module fetches, in the order of their numbers.
fn fetch_each<C: Recorder, O, H: AnswerHandler<O>>(
    alloc: Global,
    core: &mut C,
    handler: &mut H,
    out: &mut O,
) -> Result<(), Stop>
    requires { (C.view core.old).is_whole ≡ true }
    ensures drives { Drives H.handles (C.view core.old) (C.view core.new) out.old out.new
        (fetched_by (module_numbers 1 (C.view core.old).state.floor.modules) (C.view core.old).state) result }
    ensures whole { OnOk result ((C.view core.new).is_whole ≡ true) }
{
    let count = core.module_count();
    for index in 0..count {
        match fetch_one(alloc, core, ModuleId(index as u8 + 1), handler, out) {
            Ok(()) => {}
            Err(stop) => return Err(stop),
        }
    }
    Ok(())
}

/// All modules fetch, in the order of their numbers; none does once the operator ended the run.
fn fetch_all<C: Recorder, O, H: AnswerHandler<O>>(
    alloc: Global,
    core: &mut C,
    handler: &mut H,
    out: &mut O,
) -> Result<(), Stop>
    requires { (C.view core.old).is_whole ≡ true }
    ensures drives { Drives H.handles (C.view core.old) (C.view core.new) out.old out.new (fetched_all (C.view core.old).state) result }
    ensures whole { OnOk result ((C.view core.new).is_whole ≡ true) }
{
    if core.is_quitting() {
        return Ok(());
    }
    fetch_each(alloc, core, handler, out)
}

/// Puts in an event at a moment: it is posted; then the writer takes each frame that waits; and then the modules fetch their commands, in
/// the order of their numbers. Each of these entries is answered by the tables, and its answer is handed on before the next is posted.
///
/// The event does not have to wait: it has a step. `Full`: the next of the entries does not fit the limits of the history. `Refused`: the
/// last entry was added, and its answer was refused where it goes. `NoMemory`: there was no memory for an entry, or for handing on the
/// answer of the last one. After each of these no more is posted.
pub fn input<C: Recorder, O, H: AnswerHandler<O>>(
    alloc: Global,
    core: &mut C,
    at: Moment,
    event: Event,
    handler: &mut H,
    out: &mut O,
) -> Result<(), Stop>
    requires step { step (C.view core.old).state at.0 event ≢ None }
    requires whole { (C.view core.old).is_whole ≡ true }
    ensures drives { Drives H.handles (C.view core.old) (C.view core.new) out.old out.new (input (C.view core.old).state at.0 event) result }
    // Before it all that is recorded holds of the history.
    ensures before { Recorded (C.view core.old).config (C.view core.old).history (C.view core.old).state }
    ensures whole { OnOk result ((C.view core.new).is_whole ≡ true) }
{
    match post_and_take(alloc, core, at, event, handler, out) {
        Ok(()) => fetch_all(alloc, core, handler, out),
        Err(stop) => Err(stop),
    }
}
