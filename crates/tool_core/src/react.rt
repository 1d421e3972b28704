//! What each event does to the plant.
ghost use Rattle.std.specs.Prelude.{◌≡◌, ◌+◌, ◌^◌, ◌<◌, ◌≤◌, ◌↔◌, IsTrue, IfOk, OnOk, true, false, None};
ghost use Rattle.tool_events.specs.declared.event.Event.TheVariants as event;
ghost use Rattle.tool_events.specs.Sizes.{event_bytes};
ghost use Rattle.hsms_link.specs.LinkTable.{link_act};
ghost use Rattle.gem_model.specs.State.{is_up};
ghost use Rattle.gem_model.specs.Verdict.{header_of};
ghost use Rattle.gem_model.specs.Step.{acts, step, step_from, hosted, linked};
ghost use Rattle.host_messages.specs.Short.{IsShort};
ghost use Rattle.core_shop.specs.Reactions.{done, Acts, outcome_of};
ghost use Rattle.gem_model.specs.Sizes.{counted};
ghost use Rattle.history_parts.specs.Additions.{completed_from, completed_by};
ghost use Rattle.tool_core.specs.Steps.{StepsFrom, Steps};

use core_host::header_of;
use core_settling::follow;
use core_shop::{Reaction, end_for, is_due, link_event};
use core_state::Plant;
use gem_ids::Moment;
use hsms_frame::Arrival;
use hsms_link::LinkAct;
use plant_parts::header_frame;
use std::alloc::{AllocError, Global};
use tool_events::{Answer, Event, OperCmd, SessionCause};

/// A message of the session that is up arrives.
fn message(
    plant: &mut Plant,
    alloc: Global,
    arrival: &Arrival,
    reaction: &mut Reaction,
) -> Result<(), AllocError>
    requires up { is_up plant.old ≡ true }
    requires short { IsShort arrival.now }
    requires fresh { reaction.old ≡ done }
    ensures { OnOk result (hosted (linked plant.old (header_of arrival.now)) arrival.now (link_act (header_of arrival.now) plant.old.link)
        ≡ outcome_of reaction.new plant.new) }
{
    let header = header_of(arrival);
    match plant.take_header(&header) {
        LinkAct::Reply(reply) => {
            let frame = header_frame(alloc, reply)?;
            plant.put(frame)?;
        }
        LinkAct::Data => {
            core_host::host(plant, alloc, arrival)?;
        }
        LinkAct::Ended => {
            let end = end_for(plant, alloc, SessionCause::Separated)?;
            reaction.answer = Answer::Ended;
            reaction.ended = Some(end);
        }
        LinkAct::Nothing => {}
    }
    Ok(())
}

/// A message of the host arrives.
fn host(
    plant: &mut Plant,
    alloc: Global,
    session: u64,
    arrival: &Arrival,
    reaction: &mut Reaction,
) -> Result<(), AllocError>
    requires short { IsShort arrival.now }
    requires fresh { reaction.old ≡ done }
    ensures { OnOk result (Acts plant.old.moment plant.old (event.Host session arrival.now) reaction.new plant.new) }
{
    if !plant.is_session_up(session) {
        reaction.answer = Answer::Ended;
        return Ok(());
    }
    message(plant, alloc, arrival, reaction)
}

/// The operator wants something.
fn operate(
    plant: &mut Plant,
    alloc: Global,
    command: &OperCmd,
    reaction: &mut Reaction,
) -> Result<(), AllocError>
    ensures { OnOk result (Acts plant.old.moment plant.old (event.Oper command.now) reaction.new plant.new) }
{
    *reaction = core_shop::operator(plant, alloc, command)?;
    Ok(())
}

/// What an event does before the tool settles, where the moment was raised from this one. False: it has to wait.
fn act(
    plant: &mut Plant,
    alloc: Global,
    before: Moment,
    event: &Event,
    reaction: &mut Reaction,
) -> Result<bool, AllocError>
    requires room { plant.old.link.session + 1 < 2 ^ 64 }
    requires short { event_bytes event.now ≤ 2 ^ 29 }
    requires fresh { reaction.old ≡ done }
    ensures acts { IfOk result (λ goes. goes ≡ true → Acts before.0 plant.old event.now reaction.new plant.new) }
    ensures waits { IfOk result (λ goes. goes ≡ false → acts before.0 plant.old event.now ≡ None) }
{
    match event {
        Event::Host { session, arrival } => host(plant, alloc, *session, arrival, reaction)?,
        Event::Oper(command) => operate(plant, alloc, command, reaction)?,
        Event::Signal(told) => core_shop::signal(plant, alloc, told)?,
        Event::Watch(port) => return Ok(plant.is_ready_to_unload(*port)),
        Event::Listen => return Ok(false),
        Event::LinkUp => return link_event(plant, alloc, before, event, reaction),
        Event::LinkDown { .. } => return link_event(plant, alloc, before, event, reaction),
        Event::Take { .. } => return link_event(plant, alloc, before, event, reaction),
        Event::Fetch(_) => return link_event(plant, alloc, before, event, reaction),
        Event::Tick => return link_event(plant, alloc, before, event, reaction),
    }
    Ok(true)
}

/// What an event does, where the moment was raised from this one: it acts, and then the tool settles, and it is told how many
/// control jobs were completed. False: it has to wait.
fn step(
    plant: &mut Plant,
    alloc: Global,
    before: Moment,
    event: &Event,
    reaction: &mut Reaction,
    completed: &mut u64,
) -> Result<bool, AllocError>
    requires room { plant.old.link.session + 1 < 2 ^ 64 }
    requires short { event_bytes event.now ≤ 2 ^ 29 }
    requires fresh { reaction.old ≡ done }
    ensures steps { IfOk result (λ goes. goes ≡ true → StepsFrom before.0 plant.old event.now reaction.new plant.new) }
    ensures completed { IfOk result (λ goes. goes ≡ true → completed.new ≡ counted (completed_from before.0 plant.old event.now)) }
    ensures waits { IfOk result (λ goes. goes ≡ false → step_from before.0 plant.old event.now ≡ None) }
{
    if plant.is_quitting() {
        reaction.answer = Answer::Ended;
        *completed = 0;
        return Ok(true);
    }
    if !act(plant, alloc, before, event, reaction)? {
        return Ok(false);
    }
    *completed = follow(plant, alloc)?;
    Ok(true)
}

/// What an event does that is posted at a moment. It is told in the reaction, which says before that the event was done, and so
/// is how many control jobs it completed. False: the event has to wait. After want of memory, and where it has to wait, nothing is
/// said of the plant. The text of an event has at most 536,870,912 bytes.
pub fn react(
    plant: &mut Plant,
    alloc: Global,
    at: Moment,
    event: &Event,
    reaction: &mut Reaction,
    completed: &mut u64,
) -> Result<bool, AllocError>
    requires room { plant.old.link.session + 1 < 2 ^ 64 }
    requires short { event_bytes event.now ≤ 2 ^ 29 }
    requires fresh { reaction.old ≡ done }
    ensures steps { IfOk result (λ goes. goes ≡ true → Steps plant.old at.0 event.now reaction.new plant.new) }
    ensures completed { IfOk result (λ goes. goes ≡ true → completed.new ≡ counted (completed_by plant.old at.0 event.now)) }
    ensures waits { IfOk result (λ goes. goes ≡ false → step plant.old at.0 event.now ≡ None) }
{
    let before = plant.moment();
    plant.raise(at);
    step(plant, alloc, before, event, reaction, completed)
}

/// Whether an event has to wait at this moment: a take that finds no frame, a fetch that finds no command, a look at the clock
/// that finds nothing due, a watch of a port that isn't READY TO UNLOAD, and a listen. Once the operator ended the run none has to.
pub fn must_wait(plant: &Plant, at: Moment, event: &Event) -> bool
    ensures { IsTrue result ↔ (step plant.now at.0 event.now ≡ None) }
{
    if plant.is_quitting() {
        return false;
    }
    match event {
        Event::Take { session } => plant.is_session_up(*session) && !plant.has_waiting(),
        Event::Tick => !is_due(plant, plant.moment(), plant.raised(at)),
        Event::Watch(port) => !plant.is_ready_to_unload(*port),
        Event::Fetch(m) => !plant.has_command(*m),
        Event::Listen => true,
        Event::LinkUp
        | Event::LinkDown { .. }
        | Event::Host { .. }
        | Event::Oper(_)
        | Event::Signal(_) => false,
    }
}
