//! Who is where, as the planner asks for it (this tool's profile, moves). The board of the places tells who is at a location; what
//! is told of a substrate is put together only where it is asked for.

ghost use Rattle.std.specs.Prelude.{◌≡◌, find};
ghost use Rattle.substrate.specs.Places.{ArePlaces, stands_at};
ghost use Rattle.floor_model.specs.Picks.{kept_as, told_of};

use crate::floor::ToolFloor;
use crate::planning::view_of;
use floor_model::Substrate;
use gem_ids::LocId;
use robot_moves::{PlaceView, Whereabouts};
use substrate::Registered;

impl Whereabouts for ToolFloor {
    ghost use Rattle.floor_model.specs.Views.{views};

    ghost told = { views };

    fn holder(&self, loc: LocId) -> Option<PlaceView> {
        self.told_of(self.registered_in(loc))
    }

    fn is_empty(&self, loc: LocId) -> bool {
        self.kept_as(self.registered_in(loc)).is_none()
    }
}

impl ToolFloor {
    // What is known of the places, for proofs.
    pub(crate) fn are_places(&self)
        ensures { ArePlaces self.now.places }
    {
        self.places.len();
    }

    // The substrate at a location, with its number.
    pub(crate) fn registered_in(&self, loc: LocId) -> Option<Registered>
        ensures value { result ≡ find (stands_at loc) self.now.places.held }
        ensures places { ArePlaces self.now.places }
    {
        match self.places.at(loc) {
            Some(name) => self.places.find(name),
            None => None,
        }
    }

    // What was found at a place, where it is of a carrier that is here.
    fn kept_as(&self, r: Option<Registered>) -> Option<Substrate>
        ensures { result ≡ kept_as r self.now }
    {
        match r {
            Some(r) => self.substrate(r.number),
            None => None,
        }
    }

    // What is told of it.
    fn told_of(&self, r: Option<Registered>) -> Option<PlaceView>
        ensures { result ≡ told_of r self.now }
    {
        let Some(r) = r else {
            return None;
        };
        match self.substrate(r.number) {
            Some(s) => Some(view_of(&r, &s, &self.jobs)),
            None => None,
        }
    }
}
