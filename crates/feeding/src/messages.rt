//! The messages of a session, one after another, and its end.
ghost use Rattle.std.specs.Prelude.{◌≡◌, [], true, OnOk, reverse};
ghost use Rattle.gem_model.specs.State.{is_session_up};
ghost use Rattle.gem_model.specs.Feed.{message, messages};
ghost use Rattle.line_feeding.specs.Going.{Goes, seen};

use crate::printer::{Printer, input};
use driving::AT_ONCE;
use history_laws::Recorder;
use hsms_frame::Arrival;
use line_feeding::Halt;
use outside::Sink;
use std::alloc::Global;
use tool_events::{Event, SessionCause};

/// One message of the session that is up.
fn take_message<C: Recorder, K: Sink>(
    alloc: Global,
    core: &mut C,
    session: u64,
    arrival: Arrival,
    printer: &mut Printer,
    out: &mut K,
) -> Result<(), Halt>
    requires up { is_session_up (C.view core.old).state session ≡ true }
    requires whole { (C.view core.old).is_whole ≡ true }
    ensures goes { Goes (C.view core.old) (C.view core.new) (seen K.held K.faults K.refusals out.old) (seen K.held K.faults K.refusals out.new)
        (message (C.view core.old).state session arrival) result }
    ensures whole { OnOk result ((C.view core.new).is_whole ≡ true) }
{
    input(
        alloc,
        core,
        AT_ONCE,
        Event::Host { session, arrival },
        printer,
        out,
    )
}

// Turns messages round, so that the first is taken from the end.
fn turn(arrivals: &mut Vec<Arrival>)
    ensures { arrivals.new.items ≡ reverse arrivals.old.items }
{
    arrivals.reverse();
}

/// The messages of a session, in order, and then its end where a length below 10 follows them. The messages are taken out of the list.
pub fn take_messages<C: Recorder, K: Sink>(
    alloc: Global,
    core: &mut C,
    session: u64,
    arrivals: &mut Vec<Arrival>,
    short: bool,
    printer: &mut Printer,
    out: &mut K,
) -> Result<(), Halt>
    requires { (C.view core.old).is_whole ≡ true }
    ensures goes { Goes (C.view core.old) (C.view core.new) (seen K.held K.faults K.refusals out.old) (seen K.held K.faults K.refusals out.new)
        (messages (C.view core.old).state session arrivals.old.items short) result }
    ensures whole { OnOk result ((C.view core.new).is_whole ≡ true) }
{
    turn(arrivals);
    'messages: while let Some(arrival) = arrivals.pop() {
        if !core.is_session_up(session) {
            return Ok(());
        }
        match take_message(alloc, core, session, arrival, printer, out) {
            Ok(()) => {}
            Err(halt) => return Err(halt),
        }
    }
    end_messages(alloc, core, session, short, printer, out)
}

/// Behind the messages of a session, its end, where a length below 10 follows them.
fn end_messages<C: Recorder, K: Sink>(
    alloc: Global,
    core: &mut C,
    session: u64,
    short: bool,
    printer: &mut Printer,
    out: &mut K,
) -> Result<(), Halt>
    requires { (C.view core.old).is_whole ≡ true }
    ensures goes { Goes (C.view core.old) (C.view core.new) (seen K.held K.faults K.refusals out.old) (seen K.held K.faults K.refusals out.new)
        (messages (C.view core.old).state session [] short) result }
    ensures whole { OnOk result ((C.view core.new).is_whole ≡ true) }
{
    if short && core.is_session_up(session) {
        let cause = SessionCause::ShortLength;
        return input(
            alloc,
            core,
            AT_ONCE,
            Event::LinkDown { session, cause },
            printer,
            out,
        );
    }
    Ok(())
}
