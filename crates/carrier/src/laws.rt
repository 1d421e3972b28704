//! Laws of the carriers, for proofs to cite. What a function ensures that is empty holds of the definitions.

ghost use Rattle.std.specs.Prelude.{◌≡◌, ◌<◌, ℕ, List, length, Some, slice_get, true};
ghost use Rattle.gem_tables.specs.Table.{update_at};
ghost use Rattle.carrier.specs.Carriers.{carrier_named, place_of, change_named, are_named_apart, most_carriers, most_absent};
ghost use Rattle.carrier.specs.declared.carrier.Carrier.{Carrier};

use crate::carriers::{MOST_ABSENT, MOST_CARRIERS};

/// The most carriers that are known: the constant is that of the definitions.
pub fn the_most_carriers_are_those_of_the_profile() -> usize
    ensures { result ≡ most_carriers }
{
    MOST_CARRIERS
}

/// The most of them that aren't present: the constant is that of the definitions.
pub fn the_most_absent_are_those_of_the_profile() -> usize
    ensures { result ≡ most_absent }
{
    MOST_ABSENT
}

/// The place of a name is that of the carrier of the name; and where each name is that of one carrier, a change of the
/// carrier of the name is one at its place.
pub fn the_place_of_a_name_is_that_of_its_carrier()
    ensures within { (name : List ℕ) (carriers : List Carrier) (place : ℕ) → place_of name carriers ≡ Some place → place < length carriers }
    ensures carrier { (name : List ℕ) (carriers : List Carrier) (place : ℕ) → place_of name carriers ≡ Some place → slice_get carriers place ≡ carrier_named name carriers }
    ensures change { (name : List ℕ) (carriers : List Carrier) (place : ℕ) (change : Carrier → Carrier) → place_of name carriers ≡ Some place → are_named_apart carriers ≡ true → update_at place change carriers ≡ change_named name change carriers }
{}
