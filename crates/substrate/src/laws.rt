//! Laws of the places, for proofs to cite. Each function is empty: what it ensures holds of the definitions.

ghost use Rattle.std.specs.Prelude.{◌≡◌, ◌<◌, ◌≤◌, ℕ, List, Some, true};
ghost use Rattle.gem_ids.specs.declared.numbers.LocId.{LocId};
ghost use Rattle.substrate.specs.Places.{PlaceMap, substrate_named, substrate_at, has_place, ArePlaces};
ghost use Rattle.substrate.specs.declared.registered.Registered.{Registered};

/// A substrate that is found by its name is the one that is found at its place, and the one that is found at a place is
/// found there by its name: each has one place, and no place has two.
pub fn each_substrate_has_one_place()
    ensures there { (p : PlaceMap) (sub : List ℕ) (r : Registered) → ArePlaces p → substrate_named sub p.held ≡ Some r → substrate_at r.at p.held ≡ Some sub }
    ensures alone { (p : PlaceMap) (sub : List ℕ) (loc : LocId) → ArePlaces p → substrate_at loc p.held ≡ Some sub → has_place sub loc p.held ≡ true }
{}

/// The number of a substrate that has a place was given, and is no number that will be.
pub fn each_number_was_given()
    ensures { (p : PlaceMap) (sub : List ℕ) (r : Registered) → ArePlaces p → substrate_named sub p.held ≡ Some r → (0 < r.number) × (r.number ≤ p.given) }
{}
