//! What is told of the substrates that have a place, as a list: each question goes through it.

ghost use Rattle.std.specs.Prelude.{◌≡◌};
ghost use Rattle.robot_moves.specs.Moves.{holder, is_empty, stage_of, goes_first, better, best_pick};

use crate::modules::Modules;
use crate::targets::is_useful;
use crate::view::PlaceView;
use crate::whereabouts::{Picks, Whereabouts};
use gem_ids::LocId;
use substrate::is_same;

// The list.
#[derive(Clone, Copy)]
pub(crate) struct Listed<'a> {
    pub(crate) views: &'a [PlaceView],
}

impl Whereabouts for Listed<'_> {
    ghost told = { λ l. l.views.now };

    fn holder(&self, loc: LocId) -> Option<PlaceView> {
        holder(self.views, loc)
    }

    fn is_empty(&self, loc: LocId) -> bool {
        is_empty(self.views, loc)
    }
}

impl Picks for Listed<'_> {
    fn best_pick(&self, modules: &Modules) -> Option<PlaceView> {
        best_pick(self.views, modules)
    }
}

// ---- who is where

// The substrate at a location.
fn holder(places: &[PlaceView], loc: LocId) -> Option<PlaceView>
    ensures { result ≡ holder loc places.now }
{
    for v in places {
        if is_same(v.at, loc) {
            return Some(*v);
        }
    }
    None
}

// Whether no substrate is at a location.
fn is_empty(places: &[PlaceView], loc: LocId) -> bool
    ensures { result ≡ is_empty loc places.now }
{
    for v in places {
        if is_same(v.at, loc) {
            return false;
        }
    }
    true
}

// ---- picks

// The useful pick of the greatest stage, then of the least number of registration.
fn best_pick(places: &[PlaceView], modules: &Modules) -> Option<PlaceView>
    ensures { result ≡ best_pick places.now modules.now }
{
    let listed = Listed { views: places };
    let mut best = None;
    for v in places {
        if is_useful(&listed, modules, v) {
            best = Some(better(best, v));
        }
    }
    best
}

// Of the best pick so far, where there is one, and the next, the one that goes first: that of the greater stage, then that of the
// lesser number of registration; of equal numbers the former.
fn better(best: Option<PlaceView>, v: &PlaceView) -> PlaceView
    ensures { result ≡ better best v.now }
{
    match best {
        Some(b) if goes_first(&b, v) => b,
        _ => *v,
    }
}

// Whether one goes first of two: its stage is greater, or it is the same, and the number of registration no greater.
fn goes_first(v: &PlaceView, w: &PlaceView) -> bool
    ensures { result ≡ goes_first v.now w.now }
{
    let stage = stage_of(v.at);
    let other = stage_of(w.at);
    other < stage || (other == stage && v.number <= w.number)
}

// The stage of a location. A chamber's number is a byte, so that its stage may be one more than a byte holds.
fn stage_of(at: LocId) -> u16
    ensures { result ≡ stage_of at }
{
    match at {
        LocId::Slot(..) | LocId::Arm => 0,
        LocId::Aligner => 1,
        LocId::Chamber(c) => 1 + c as u16,
    }
}
