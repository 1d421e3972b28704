//! What a link, its writer, a module that fetches and the clock do.

ghost use Rattle.std.specs.Prelude.{◌≡◌, ◌+◌, ◌<◌, ◌^◌, IfOk, OnOk, IsTrue, IsFalse, true, false, Some, None};
ghost use Rattle.tool_events.specs.declared.event.Event.TheVariants as event;
ghost use Rattle.gem_model.specs.Step.{acts, ticked};
ghost use Rattle.core_shop.specs.Reactions.{done, outcome_of, Acts, IsLinkEvent};

use crate::clock::{end_for, is_due, look};
use crate::reaction::Reaction;
use core_state::Plant;
use gem_ids::{ModuleId, Moment};
use std::alloc::{AllocError, Global};
use tool_events::{Answer, Event, SessionCause};

/// A link comes up. While one is up, nothing changes.
#[inline(never)]
fn link_up(plant: &mut Plant, reaction: &mut Reaction)
    requires room { plant.old.link.session + 1 < 2 ^ 64 }
    requires fresh { reaction.old ≡ done }
    ensures { Acts plant.old.moment plant.old event.LinkUp reaction.new plant.new }
{
    if plant.is_up() {
        reaction.answer = Answer::Ended;
        return;
    }
    let session = plant.session_count() + 1;
    plant.link_up(session);
    reaction.answer = Answer::Session(session);
}

/// The link of a session is lost, for this cause.
#[inline(never)]
fn link_down(
    plant: &mut Plant,
    alloc: Global,
    session: u64,
    cause: SessionCause,
    reaction: &mut Reaction,
) -> Result<(), AllocError>
    requires fresh { reaction.old ≡ done }
    ensures { OnOk result (Acts plant.old.moment plant.old (event.LinkDown session cause) reaction.new plant.new) }
{
    if !plant.is_session_up(session) {
        reaction.answer = Answer::Ended;
        return Ok(());
    }
    let end = end_for(plant, alloc, cause)?;
    reaction.ended = Some(end);
    Ok(())
}

/// The oldest frame that waits leaves. False: none waits, and nothing has changed.
fn take(plant: &mut Plant, session: u64, reaction: &mut Reaction) -> bool
    requires fresh { reaction.old ≡ done }
    ensures some { IsTrue result → Acts plant.old.moment plant.old (event.Take session) reaction.new plant.new }
    ensures none { IsFalse result → acts plant.old.moment plant.old (event.Take session) ≡ None }
    ensures stays { IsFalse result → plant.new ≡ plant.old }
{
    if !plant.is_session_up(session) {
        reaction.answer = Answer::Ended;
        return true;
    }
    match plant.take_frame() {
        Some(frame) => {
            reaction.answer = Answer::Frame(frame);
            true
        }
        None => false,
    }
}

/// A module fetches its open command. False: it has none that was not fetched, and nothing has changed.
#[inline(never)]
fn fetch(plant: &mut Plant, m: ModuleId, reaction: &mut Reaction) -> bool
    requires fresh { reaction.old ≡ done }
    ensures some { IsTrue result → Acts plant.old.moment plant.old (event.Fetch m) reaction.new plant.new }
    ensures none { IsFalse result → acts plant.old.moment plant.old (event.Fetch m) ≡ None }
    ensures stays { IsFalse result → plant.new ≡ plant.old }
{
    if !plant.has_command(m) {
        return false;
    }
    match plant.fetch(m) {
        Some(command) => {
            reaction.answer = Answer::Command(command);
            true
        }
        None => false,
    }
}

/// The clock is looked at, and the moment was raised from this one. False: nothing is due.
#[inline(never)]
fn tick(
    plant: &mut Plant,
    alloc: Global,
    before: Moment,
    reaction: &mut Reaction,
) -> Result<bool, AllocError>
    requires fresh { reaction.old ≡ done }
    ensures some { IfOk result (λ goes. goes ≡ true → ticked before.0 plant.old ≡ Some (outcome_of reaction.new plant.new)) }
    ensures none { IfOk result (λ goes. goes ≡ false → ticked before.0 plant.old ≡ None) }
    ensures stays { IfOk result (λ goes. goes ≡ false → plant.new ≡ plant.old) }
{
    if !is_due(plant, before, plant.moment()) {
        return Ok(false);
    }
    reaction.ended = look(plant, alloc)?;
    Ok(true)
}

/// What a link that comes or is lost, a writer that takes a frame, a module that fetches a command and a look at the clock do,
/// where the moment was raised from this one. It is told in the reaction, which says before that the event was done. False: the event
/// has to wait: no frame waits, no module has a command, nothing is due; then the plant has not changed. `AllocError`: memory ran out.
pub fn link_event(
    plant: &mut Plant,
    alloc: Global,
    before: Moment,
    event: &Event,
    reaction: &mut Reaction,
) -> Result<bool, AllocError>
    requires room { plant.old.link.session + 1 < 2 ^ 64 }
    requires link { IsLinkEvent event.now }
    requires fresh { reaction.old ≡ done }
    ensures acts { IfOk result (λ goes. goes ≡ true → Acts before.0 plant.old event.now reaction.new plant.new) }
    ensures waits { IfOk result (λ goes. goes ≡ false → acts before.0 plant.old event.now ≡ None) }
    ensures stays { IfOk result (λ goes. goes ≡ false → plant.new ≡ plant.old) }
{
    match event {
        Event::LinkUp => {
            link_up(plant, reaction);
            Ok(true)
        }
        Event::LinkDown { session, cause } => {
            link_down(plant, alloc, *session, *cause, reaction)?;
            Ok(true)
        }
        Event::Take { session } => Ok(take(plant, *session, reaction)),
        Event::Tick => tick(plant, alloc, before, reaction),
        Event::Fetch(m) => Ok(fetch(plant, *m, reaction)),
        Event::Listen | Event::Watch(_) => Ok(false),
        Event::Host { .. } | Event::Oper(_) | Event::Signal(_) => Ok(false),
    }
}
