//! The host answers what the tool asks, and the modules do their commands.
ghost use Rattle.std.specs.Prelude.{◌≡◌, ◌∷◌, [], true, IfOk, OnOk};
ghost use Rattle.std.specs.List.{AllByRecursion};
ghost use Rattle.tool_events.specs.declared.event.Event.TheVariants as event;
ghost use Rattle.tool_events.specs.declared.event.Signal.TheVariants as signal;
ghost use Rattle.sim_modules.specs.Drawing.{drawn};
ghost use Rattle.batch_model.specs.Host.{answer_to, select_request, enable_request};
ghost use Rattle.batch_model.specs.Batch.{entered, told, answers, turn, begun, dones_by, most_dones, then_made};
ghost use Rattle.batching.specs.Making.{batch_seen, standing, Makes};
ghost use Rattle.batching.specs.Parts.{IsInput};

use crate::batch::{Batch, Stop};
use crate::host::{answer_to, enable_request, select_request};
use crate::keeper::{enter, enter_all};
use crate::modules::next_done;
use batch_model::{Fetched, Primary};
use history_laws::Recorder;
use hsms_frame::{Arrival, Frame};
use sim_modules::draw;
use std::alloc::{AllocError, Global};
use tool_events::{Config, Event, Signal};

/// No history takes so many answers.
const MOST_ANSWERS: u64 = 4_000_001;

/// So many commands are done for a carrier at most.
const MOST_DONES: u64 = 1000;

/// The session of a batch: its link comes up once.
pub const SESSION: u64 = 1;

// ---- answers

// A frame of the host, in the one session of a batch.
fn told(frame: Frame) -> Event
    ensures { result ≡ told frame }
{
    Event::Host {
        session: SESSION,
        arrival: Arrival::Frame(frame),
    }
}

// Answers a message of the tool.
fn answer<C: Recorder>(
    alloc: Global,
    batch: &mut Batch<C>,
    config: &Config,
    primary: Primary,
) -> Result<(), Stop>
    requires whole { (C.view batch.old.core).is_whole ≡ true }
    ensures made { Makes (C.view batch.old.core) (batch_seen C.view batch.new) (entered (told (answer_to config.now.device primary)) (standing (batch_seen C.view batch.old))) result }
    ensures whole { OnOk result ((C.view batch.new.core).is_whole ≡ true) }
{
    let Ok(frame) = answer_to(alloc, config.device, primary) else {
        return Err(Stop::NoMemory);
    };
    enter(alloc, batch, told(frame))
}

/// Answers each message that was taken, the oldest first, until none is left.
pub fn answer_all<C: Recorder>(
    alloc: Global,
    batch: &mut Batch<C>,
    config: &Config,
) -> Result<(), Stop>
    requires whole { (C.view batch.old.core).is_whole ≡ true }
    ensures made { Makes (C.view batch.old.core) (batch_seen C.view batch.new) (answers config.now (standing (batch_seen C.view batch.old))) result }
    ensures whole { OnOk result ((C.view batch.new.core).is_whole ≡ true) }
{
    let mut left = MOST_ANSWERS;
    'answers: while left > 0 {
        let Some(primary) = batch.asked.pop_front() else {
            return Ok(());
        };
        match answer(alloc, batch, config, primary) {
            Ok(()) => {}
            Err(stop) => return Err(stop),
        }
        left -= 1;
    }
    Ok(())
}

/// One input.
pub fn only(alloc: Global, event: Event) -> Result<Vec<Event>, AllocError>
    ensures { IfOk result (λ events. events.items ≡ event ∷ []) }
{
    let mut events = Vec::new(alloc);
    events.push(event)?;
    Ok(events)
}

/// Answers what the tool asked, and then enters these inputs.
pub fn turn<C: Recorder>(
    alloc: Global,
    batch: &mut Batch<C>,
    config: &Config,
    events: Vec<Event>,
) -> Result<(), Stop>
    requires inputs { AllByRecursion IsInput events.items }
    requires whole { (C.view batch.old.core).is_whole ≡ true }
    ensures made { Makes (C.view batch.old.core) (batch_seen C.view batch.new) (turn config.now events.items (standing (batch_seen C.view batch.old))) result }
    ensures whole { OnOk result ((C.view batch.new.core).is_whole ≡ true) }
{
    match answer_all(alloc, batch, config) {
        Ok(()) => enter_all(alloc, batch, events),
        Err(stop) => Err(stop),
    }
}

// The same for one input.
fn turn_one<C: Recorder>(
    alloc: Global,
    batch: &mut Batch<C>,
    config: &Config,
    event: Event,
) -> Result<(), Stop>
    requires input { IsInput event }
    requires whole { (C.view batch.old.core).is_whole ≡ true }
    ensures made { Makes (C.view batch.old.core) (batch_seen C.view batch.new) (turn config.now (event ∷ []) (standing (batch_seen C.view batch.old))) result }
    ensures whole { OnOk result ((C.view batch.new.core).is_whole ≡ true) }
{
    let Ok(events) = only(alloc, event) else {
        return Err(Stop::NoMemory);
    };
    turn(alloc, batch, config, events)
}

// ---- the beginning

// The session is selected.
fn select<C: Recorder>(alloc: Global, batch: &mut Batch<C>, config: &Config) -> Result<(), Stop>
    requires whole { (C.view batch.old.core).is_whole ≡ true }
    ensures made { Makes (C.view batch.old.core) (batch_seen C.view batch.new) (turn config.now (told select_request ∷ []) (standing (batch_seen C.view batch.old))) result }
    ensures whole { OnOk result ((C.view batch.new.core).is_whole ≡ true) }
{
    turn_one(alloc, batch, config, told(select_request(alloc)))
}

// All events are enabled.
fn enable<C: Recorder>(alloc: Global, batch: &mut Batch<C>, config: &Config) -> Result<(), Stop>
    requires whole { (C.view batch.old.core).is_whole ≡ true }
    ensures made { Makes (C.view batch.old.core) (batch_seen C.view batch.new) (turn config.now (told (enable_request config.now.device) ∷ []) (standing (batch_seen C.view batch.old))) result }
    ensures whole { OnOk result ((C.view batch.new.core).is_whole ≡ true) }
{
    let Ok(frame) = enable_request(alloc, config.device) else {
        return Err(Stop::NoMemory);
    };
    turn_one(alloc, batch, config, told(frame))
}

// The session is selected, and all events are enabled.
fn select_and_enable<C: Recorder>(
    alloc: Global,
    batch: &mut Batch<C>,
    config: &Config,
) -> Result<(), Stop>
    requires whole { (C.view batch.old.core).is_whole ≡ true }
    ensures made { Makes (C.view batch.old.core) (batch_seen C.view batch.new)
        (then_made (turn config.now (told select_request ∷ []) (standing (batch_seen C.view batch.old))) (turn config.now (told (enable_request config.now.device) ∷ []))) result }
    ensures whole { OnOk result ((C.view batch.new.core).is_whole ≡ true) }
{
    match select(alloc, batch, config) {
        Ok(()) => enable(alloc, batch, config),
        Err(stop) => Err(stop),
    }
}

/// A link comes up and is selected, and all events are enabled.
pub fn begin<C: Recorder>(alloc: Global, batch: &mut Batch<C>, config: &Config) -> Result<(), Stop>
    requires whole { (C.view batch.old.core).is_whole ≡ true }
    ensures made { Makes (C.view batch.old.core) (batch_seen C.view batch.new) (begun config.now (standing (batch_seen C.view batch.old))) result }
    ensures whole { OnOk result ((C.view batch.new.core).is_whole ≡ true) }
{
    match turn_one(alloc, batch, config, Event::LinkUp) {
        Ok(()) => select_and_enable(alloc, batch, config),
        Err(stop) => Err(stop),
    }
}

// ---- modules

// A number is drawn, and a module does its command.
fn do_one<C: Recorder>(alloc: Global, batch: &mut Batch<C>, done: Fetched) -> Result<(), Stop>
    requires whole { (C.view batch.old.core).is_whole ≡ true }
    ensures made { Makes (C.view batch.old.core) (batch_seen C.view batch.new)
        (entered (event.Signal (signal.Done done.number done.command)) (record (standing (batch_seen C.view batch.old)) { drawn_last = drawn batch.old.drawn })) result }
    ensures whole { OnOk result ((C.view batch.new.core).is_whole ≡ true) }
{
    batch.drawn = draw(batch.drawn);
    enter(
        alloc,
        batch,
        Event::Signal(Signal::Done(done.number, done.command)),
    )
}

/// While a module has an open command that was fetched, a number is drawn, and the module that it chooses does its command. What
/// the tool asks is answered first. So many commands are done at most.
pub fn work<C: Recorder>(alloc: Global, batch: &mut Batch<C>, config: &Config) -> Result<(), Stop>
    requires whole { (C.view batch.old.core).is_whole ≡ true }
    ensures made { Makes (C.view batch.old.core) (batch_seen C.view batch.new) (dones_by most_dones config.now (standing (batch_seen C.view batch.old))) result }
    ensures whole { OnOk result ((C.view batch.new.core).is_whole ≡ true) }
{
    let mut left = MOST_DONES;
    'dones: while left > 0 {
        match answer_all(alloc, batch, config) {
            Ok(()) => {}
            Err(stop) => return Err(stop),
        }
        let next = match next_done(alloc, batch) {
            Ok(Some(next)) => next,
            Ok(None) => return Ok(()),
            Err(_) => return Err(Stop::NoMemory),
        };
        match do_one(alloc, batch, next) {
            Ok(()) => {}
            Err(stop) => return Err(stop),
        }
        left -= 1;
    }
    Ok(())
}
