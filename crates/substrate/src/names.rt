//! What becomes of the substrates that have a place, as they are kept by their names.

ghost use Rattle.std.specs.Prelude.{◌≡◌, slice_get, option_map};
ghost use Rattle.substrate.specs.Places.{substrate_named, moves_to, moved, without};

use crate::registered::Registered;
use gem_ids::{LocId, SubstrateId};
use records::{Change, Names};

// A substrate goes to a place.
#[derive(Drop)]
struct MovesTo {
    to: LocId,
}

impl Change<Registered> for MovesTo {
    ghost does = { λ m r. moves_to m.to r };

    fn apply(&self, substrate: &mut Registered) {
        substrate.at = self.to;
    }
}

// The substrate of this name is at this place now.
pub(crate) fn move_to(names: &mut Names<Registered>, sub: SubstrateId, to: LocId)
    ensures { names.new ≡ moved sub to names.old }
{
    if let Some(place) = names.place_named(sub.text()) {
        names.change_at(place, &MovesTo { to });
    }
}

// The substrate of a name isn't there any more; the others keep their order. It gives the place where it was.
pub(crate) fn forget(names: &mut Names<Registered>, sub: SubstrateId) -> Option<LocId>
    ensures found { result ≡ option_map (λ r. r.at) (substrate_named sub names.old) }
    ensures after { names.new ≡ without sub names.old }
{
    let Some(index) = names.place_named(sub.text()) else {
        return None;
    };
    let place = place_at(names, index);
    names.remove_at(index);
    place
}

// The place of the substrate at a place of the list.
fn place_at(names: &Names<Registered>, index: usize) -> Option<LocId>
    ensures { result ≡ option_map (λ r. r.at) (slice_get names.now index) }
{
    match names.get(index) {
        Some(substrate) => Some(substrate.at),
        None => None,
    }
}
