//! A substrate that has a place.

ghost use Rattle.substrate.specs.Places.{name_of, number_of};

use gem_ids::{LocId, SubstrateId, Text80};
use records::{Named, Numbered};

/// A substrate that has a place: its name, its number of registration, and the place.
#[derive(Clone, Copy)]
pub struct Registered {
    pub sub: SubstrateId,
    pub number: u64,
    pub at: LocId,
}

impl Named for Registered {
    ghost name = { name_of };

    fn text(&self) -> Text80 {
        self.sub.text()
    }

    fn name_bytes(&self) -> &[u8] {
        self.sub.as_bytes()
    }
}

impl Numbered for Registered {
    ghost number = { number_of };

    fn number(&self) -> u64 {
        self.number
    }
}
