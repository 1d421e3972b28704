//! The lines of what happens: each answer is printed, and its lines are written.
ghost use Rattle.std.specs.Prelude.{◌≡◌, ◌≢◌, [], None, true, OnOk};
ghost use Rattle.gem_model.specs.Step.{step};
ghost use Rattle.gem_model.specs.Feed.{input};
ghost use Rattle.line_feeding.specs.Going.{Goes, seen};
ghost use Rattle.feeding.specs.Printing.{prints};

use driving::{AnswerHandler, Stop, Unhandled};
use gem_ids::{ModuleId, Moment};
use history_laws::Recorder;
use line_feeding::{Halt, outcome_text};
use outside::{Sink, write_all};
use std::alloc::Global;
use tool_events::{Answer, Event, SessionEnd};

/// Prints answers, and writes their lines to a sink.
#[derive(Drop)]
pub struct Printer {
    // Room that is used again from answer to answer, in which the lines are put together.
    text: Vec<u8>,
}

impl Printer {
    /// A printer, which has no room yet.
    pub fn new(alloc: Global) -> Printer {
        Printer {
            text: Vec::new(alloc),
        }
    }
}

impl<K: Sink> AnswerHandler<K> for Printer {
    ghost handles = { prints (seen K.held K.faults K.refusals) };

    fn handle(
        &mut self,
        alloc: Global,
        fetching: Option<ModuleId>,
        answer: Answer,
        ended: Option<SessionEnd>,
        out: &mut K,
    ) -> Result<(), Unhandled> {
        let Ok(()) = outcome_text(alloc, fetching, answer, ended, &mut self.text) else {
            return Err(Unhandled::NoMemory);
        };
        match write_all(out, self.text.as_slice()) {
            Ok(()) => Ok(()),
            Err(_) => Err(Unhandled::Refused),
        }
    }
}

/// Puts in an event at a moment, and writes the lines of what is answered. The event has a step.
pub fn input<C: Recorder, K: Sink>(
    alloc: Global,
    core: &mut C,
    at: Moment,
    event: Event,
    printer: &mut Printer,
    out: &mut K,
) -> Result<(), Halt>
    requires step { step (C.view core.old).state at.0 event ≢ None }
    requires whole { (C.view core.old).is_whole ≡ true }
    ensures goes { Goes (C.view core.old) (C.view core.new) (seen K.held K.faults K.refusals out.old) (seen K.held K.faults K.refusals out.new)
        (input (C.view core.old).state at.0 event) result }
    ensures whole { OnOk result ((C.view core.new).is_whole ≡ true) }
{
    match driving::input(alloc, core, at, event, printer, out) {
        Ok(()) => Ok(()),
        Err(Stop::Full) => Err(Halt::Full),
        Err(Stop::NoMemory) => Err(Halt::NoMemory),
        // What refuses an answer is the output.
        Err(Stop::Refused) => Err(Halt::Write),
    }
}
