//! The kinds of step on the table's words that tell a seat something, and how claims are cut off and put together. Steps on
//! the slot tell what it held, and change no view.

ghost use Rattle.tool_lock.specs.Turned.{keeps_history, drew, looked, counted, left};

use crate::kept::Kept;
use crate::rule::View;
use atomic_table::{Join, Play, Split};

// The seat draws the next ticket.
pub(crate) struct Draw;

impl<V: Kept> Play<Option<V>, View<V::Entry, V::State>> for Draw {
    ghost then = { λ _. drew };
}

// The seat looks whether its ticket is served.
pub(crate) struct Look;

impl<V: Kept> Play<Option<V>, View<V::Entry, V::State>> for Look {
    ghost then = { λ _. looked (keeps_history V.history V.opening) V.number };
}

// The seat counts the entry that the value in its slot has beyond the front.
pub(crate) struct Count;

impl<V: Kept> Play<Option<V>, View<V::Entry, V::State>> for Count {
    ghost then = { λ _. counted (keeps_history V.history V.opening) V.number };
}

// The seat gives up its ticket and its slot, and the next ticket is served.
pub(crate) struct Leave;

impl<V: Kept> Play<Option<V>, View<V::Entry, V::State>> for Leave {
    ghost then = { λ _. left };
}

// The first claim of a seat is cut off, and goes to a seat of its own; the claims of a seat go to another, which leaves the
// first with none.
pub(crate) struct Claims;

impl<E, G> Split<View<E, G>> for Claims {
    ghost use Rattle.std.specs.Prelude.{drop, take};
    ghost use Rattle.tool_lock.specs.Turned.{view};
    ghost use Rattle.tool_lock.specs.declared.rule.Stage.TheVariants.{Idle};

    ghost left = { λ v. view (drop 1 v.claims) v.stage };

    ghost right = { λ v. view (take 1 v.claims) Idle };
}

impl<E, G> Join<View<E, G>> for Claims {
    ghost use Rattle.std.specs.Prelude.{[], ◌++◌};
    ghost use Rattle.tool_lock.specs.Turned.{view};
    ghost use Rattle.tool_lock.specs.declared.rule.Stage.TheVariants.{Idle};

    ghost both = { λ v w. view (v.claims ++ w.claims) v.stage };

    ghost spent = { view [] Idle };
}
