//! Whom a planner asks of the substrates that have a place.

ghost use Rattle.std.specs.Prelude.{◌≡◌, List};
ghost use Rattle.robot_moves.specs.Moves.{holder, is_empty, best_pick};
ghost use Rattle.robot_moves.specs.declared.view.PlaceView.{PlaceView};

use crate::modules::Modules;
use crate::view::PlaceView;
use gem_ids::LocId;

/// Tells who is where. It may have a list of what is told of the substrates that have a place, or look for what it is asked.
pub trait Whereabouts {
    /// What is told of each substrate that has a place.
    ghost told: { Self → List PlaceView };

    /// The substrate at a location, the first that is told of where there are several. `None` exactly where none is there.
    fn holder(&self, loc: LocId) -> Option<PlaceView>
        ensures { result ≡ holder loc (told self.now) };

    /// Whether no substrate is at a location.
    fn is_empty(&self, loc: LocId) -> bool
        ensures { result ≡ is_empty loc (told self.now) };
}

/// Tells who is where, and whom the robot is best to pick.
pub trait Picks: Whereabouts {
    /// The useful pick of the greatest stage (chambers by number, aligner, slot), then of the least number of registration, with these
    /// modules. `None` exactly where no pick is useful.
    fn best_pick(&self, modules: &Modules) -> Option<PlaceView>
        ensures { result ≡ best_pick (Self.told self.now) modules.now };
}
