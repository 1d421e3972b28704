//! One input after another goes to the engine, and what the tool asks is kept to be answered.
ghost use Rattle.std.specs.Prelude.{◌≡◌, true, OnOk};
ghost use Rattle.std.specs.List.{AllByRecursion};
ghost use Rattle.std.specs.VecDeque.{deque_items};
ghost use Rattle.batch_model.specs.Batch.{entered, all_entered};
ghost use Rattle.batching.specs.Making.{batch_seen, standing, Makes};
ghost use Rattle.batching.specs.Parts.{keeps, IsInput};

use crate::batch::{Batch, Stop};
use crate::host::primary_in;
use batch_model::Primary;
use driving::{AT_ONCE, AnswerHandler, Unhandled};
use gem_ids::ModuleId;
use history_laws::Recorder;
use std::alloc::Global;
use std::collections::VecDeque;
use tool_events::{Answer, Event, SessionEnd};

/// Keeps the messages of the tool that are to be answered, the oldest first.
#[derive(Drop)]
pub struct Keeper;

impl AnswerHandler<VecDeque<Primary>> for Keeper {
    ghost handles = { keeps deque_items };

    fn handle(
        &mut self,
        _alloc: Global,
        _fetching: Option<ModuleId>,
        answer: Answer,
        _ended: Option<SessionEnd>,
        asked: &mut VecDeque<Primary>,
    ) -> Result<(), Unhandled> {
        let Answer::Frame(frame) = answer else {
            return Ok(());
        };
        let Some(primary) = primary_in(frame.as_slice()) else {
            return Ok(());
        };
        match asked.push_back(primary) {
            Ok(()) => Ok(()),
            Err(_) => Err(Unhandled::NoMemory),
        }
    }
}

/// Posts an event; then the writer takes each frame that waits, and the modules fetch their commands. What is asked is kept.
pub fn enter<C: Recorder>(alloc: Global, batch: &mut Batch<C>, event: Event) -> Result<(), Stop>
    requires input { IsInput event }
    requires whole { (C.view batch.old.core).is_whole ≡ true }
    ensures made { Makes (C.view batch.old.core) (batch_seen C.view batch.new) (entered event (standing (batch_seen C.view batch.old))) result }
    ensures whole { OnOk result ((C.view batch.new.core).is_whole ≡ true) }
{
    match driving::input(
        alloc,
        &mut batch.core,
        AT_ONCE,
        event,
        &mut Keeper,
        &mut batch.asked,
    ) {
        Ok(()) => Ok(()),
        Err(driving::Stop::Full) => Err(Stop::Full),
        Err(driving::Stop::NoMemory) => Err(Stop::NoMemory),
        // It can't come: a keeper refuses no answer.
        Err(driving::Stop::Refused) => Err(Stop::NoMemory),
    }
}

/// Enters events, one after another.
pub fn enter_all<C: Recorder>(
    alloc: Global,
    batch: &mut Batch<C>,
    events: Vec<Event>,
) -> Result<(), Stop>
    requires inputs { AllByRecursion IsInput events.items }
    requires whole { (C.view batch.old.core).is_whole ≡ true }
    ensures made { Makes (C.view batch.old.core) (batch_seen C.view batch.new) (all_entered events.items (standing (batch_seen C.view batch.old))) result }
    ensures whole { OnOk result ((C.view batch.new.core).is_whole ≡ true) }
{
    for event in events {
        match enter(alloc, batch, event) {
            Ok(()) => {}
            Err(stop) => return Err(stop),
        }
    }
    Ok(())
}
