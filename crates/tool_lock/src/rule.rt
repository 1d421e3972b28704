//! What a seat of the table knows, and the rule of the table.

use crate::kept::Kept;
use atomic_table::TableRule;
use std::collections::LinkedList;
use std::snapshot::Snapshot;

/// What is known for the pass of one number: the opening state, its front, and the entries with its number in that. Contracts
/// alone have values of it.
pub struct Claim<E, G> {
    pub number: u32,
    pub start: G,
    pub front: LinkedList<E>,
    pub mine: LinkedList<E>,
}

/// A seat's part in the turns: it has no ticket, waits with one, or is served. Contracts alone have values of it.
pub enum Stage {
    Idle,
    Waits(u64),
    Serves(u64),
}

/// What a seat knows: the claims of the passes that it stands for, and its stage. Contracts alone have values of it.
pub struct View<E, G> {
    pub claims: LinkedList<Claim<E, G>>,
    pub stage: Stage,
}

/// What stays the same as long as the table is there: how many passes there are, and the value at the start.
#[derive(Drop)]
pub struct Key<V> {
    pub count: u32,
    pub start: Snapshot<V>,
}

/// The rule that each step on the table keeps.
pub struct Turns;

impl<V: Kept> TableRule<Option<V>, View<V::Entry, V::State>, Key<V>> for Turns {
    ghost use Rattle.tool_lock.specs.Turned.{Turned, keeps_history, first_view};

    ghost holds = { λ k. Turned (keeps_history V.history V.opening) V.number k.count };

    ghost first = { λ k. first_view (V.opening k.start.value) k.count };
}
