//! The lock.

ghost use Rattle.std.specs.Prelude.{◌≡◌, ◌<◌};

use crate::kept::Kept;
use crate::rule::{Key, Turns, View};
use atomic_table::Table;
use std::alloc::Global;

/// A value that passes take turns with. It is a table of three atomic words and one slot: the next ticket, the ticket that is
/// served, and the length of the history; and the value, which is out of the slot while a turn is taken.
#[derive(Drop)]
pub struct Turnstile<V: Kept + Drop> {
    pub(crate) table: Table<Option<V>, View<V::Entry, V::State>, Key<V>, Turns, Global>,
    ghost words: { table.shared.table_id.words ≡ 3 },
    ghost slots: { table.shared.table_id.slots ≡ 1 },
    ghost some: { 0 < table.shared.key.count },
}
