//! The right to take turns.

ghost use Rattle.std.specs.Prelude.{◌≡◌};
ghost use Rattle.tool_lock.specs.Calls.{RestsAs, IsOwn};

use crate::kept::Kept;
use crate::rule::View;
use atomic_table::Seat;

/// The right to take turns at the turnstile that made it. Contracts see its number, its front, which is the history at the
/// end of its last turn and empty before the first, and the entries that it appended.
#[derive(Drop)]
pub struct Pass<V: Kept> {
    pub(crate) seat: Seat<Option<V>, View<V::Entry, V::State>>,
    pub(crate) number: u32,
    ghost rests: { RestsAs number seat.me },
    ghost owns: { IsOwn V.number seat.me.0.claims },
}
