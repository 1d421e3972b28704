//! A step of the plant, with what the core keeps of it.
ghost use Rattle.std.specs.Prelude.{◌≡◌, ◌+◌, ◌^◌, ◌<◌, ◌≤◌, ◌⊎◌, true, false, None, Ok, IfOk, OnOk, IfErr, IfSome, IfNone, IsErr, IsErrOf};
ghost use Rattle.tool_events.specs.declared.answer.PostFault.TheVariants as PostFault;
ghost use Rattle.tool_events.specs.Sizes.{event_bytes};
ghost use Rattle.gem_model.specs.State.{is_up};
ghost use Rattle.gem_model.specs.Step.{step};
ghost use Rattle.gem_model.specs.Sizes.{counted};
ghost use Rattle.history_parts.specs.Additions.{done_by, completed_by};
ghost use Rattle.history_parts.specs.Totals.{totals_at};
ghost use Rattle.core_shop.specs.Reactions.{done};
ghost use Rattle.tool_core.specs.Steps.{Steps};

use crate::react::react;
use core_shop::Reaction;
use core_state::Plant;
use gem_ids::Moment;
use history_parts::Totals;
use std::alloc::{AllocError, Global};
use tool_events::{Event, PostFault, Signal};

/// How many commands an event ends by Done, 0 or 1.
fn done_by(plant: &Plant, event: &Event) -> u64
    ensures { result ≡ done_by plant.now event.now }
{
    match event {
        Event::Signal(Signal::Done(m, n)) => {
            if plant.is_quitting() {
                return 0;
            }
            if plant.is_open(*m, *n) { 1 } else { 0 }
        }
        _ => 0,
    }
}

/// The counts behind an event that ended so many commands by Done and completed so many control jobs, by those before it and by
/// what the plant tells behind it.
fn totals_behind(before: &Totals, plant: &Plant, done: u64, completed: u64) -> Totals
    ensures { result ≡ totals_at plant.now (before.now.done + done) (before.now.completed + completed) }
{
    Totals {
        sessions: plant.session_count(),
        notes: plant.note_count(),
        answered: plant.answered_count(),
        dropped: plant.dropped_count(),
        done: before.done.saturating_add(done),
        completed: before.completed.saturating_add(completed),
        substrates: plant.registrations(),
    }
}

/// What the plant tells behind an event: how many sessions came, whether one is up, and the counts.
#[derive(Clone, Copy)]
pub struct Stepped {
    pub sessions: u64,
    pub is_up: bool,
    pub totals: Totals,
}

/// Does an event that is posted at a moment, behind these counts. What it did is told in the reaction, which says before that it was done.
/// `Again`: it has to wait. `NoMemory`: memory ran out. Then nothing is said of the plant. The text of an event has at most
/// 536,870,912 bytes.
pub fn take_event(
    plant: &mut Plant,
    alloc: Global,
    at: Moment,
    event: &Event,
    before: &Totals,
    reaction: &mut Reaction,
) -> Result<Stepped, PostFault>
    requires room { plant.old.link.session + 1 < 2 ^ 64 }
    requires short { event_bytes event.now ≤ 2 ^ 29 }
    requires fresh { reaction.old ≡ done }
    ensures steps { OnOk result (Steps plant.old at.0 event.now reaction.new plant.new) }
    ensures sessions { IfOk result (λ s. s.sessions ≡ plant.new.link.session) }
    ensures up { IfOk result (λ s. s.is_up ≡ is_up plant.new) }
    ensures totals { IfOk result (λ s. s.totals
        ≡ totals_at plant.new (before.now.done + done_by plant.old event.now) (before.now.completed + counted (completed_by plant.old at.0 event.now))) }
    ensures waits { IsErrOf result PostFault.Again → step plant.old at.0 event.now ≡ None }
    ensures fault { IfErr result (λ fault. (fault ≡ PostFault.Again) ⊎ (fault ≡ PostFault.NoMemory)) }
{
    let done = done_by(plant, event);
    let mut completed = 0;
    let reacted = react(plant, alloc, at, event, reaction, &mut completed);
    if let Some(fault) = fault_of(reacted) {
        return Err(fault);
    }
    Ok(Stepped {
        sessions: plant.session_count(),
        is_up: plant.is_up(),
        totals: totals_behind(before, plant, done, completed),
    })
}

/// Why an event is not taken: it has to wait, or memory ran out.
fn fault_of(reacted: Result<bool, AllocError>) -> Option<PostFault>
    ensures none { IfNone result (reacted ≡ Ok true) }
    ensures some { IfSome result (λ fault. ((fault ≡ PostFault.Again) × (reacted ≡ Ok false)) ⊎ ((fault ≡ PostFault.NoMemory) × IsErr reacted)) }
{
    match reacted {
        Ok(true) => None,
        Ok(false) => Some(PostFault::Again),
        Err(_) => Some(PostFault::NoMemory),
    }
}
