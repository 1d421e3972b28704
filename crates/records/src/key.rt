//! The name of a record as the key of a map.

ghost use Rattle.std.specs.Str.{bytes_eq};
ghost use Rattle.std.specs.Hash as fed;
ghost use Rattle.std.specs.Cmp.{on_equiv, on_per, partial_equiv_from_equiv};
ghost use Rattle.std.specs.Cmp.Lexicographic.{nat_list_eq_equiv};
ghost use Rattle.records.specs.Keys.{same_input};

use gem_ids::Text80;
use std::hash::{Hash, Hasher};

// A name by which a record is looked up.
#[derive(Clone, Copy)]
pub(crate) struct Key {
    pub(crate) name: Text80,
}

impl PartialEq for Key {
    ghost eq = { λ x y. bytes_eq x.name y.name };

    ghost laws = { on_per (λ k. k.name) (partial_equiv_from_equiv nat_list_eq_equiv) };

    fn eq(&self, other: &Key) -> bool {
        self.name.as_bytes() == other.name.as_bytes()
    }
}

impl Eq for Key {
    ghost laws = { on_equiv (λ k. k.name) nat_list_eq_equiv };
}

impl Hash for Key {
    ghost hash_input = { λ k. fed.slice fed.u8 k.name };

    ghost respects_eq = { λ x y. same_input x.name y.name };

    fn hash<H: Hasher>(&self, state: &mut H) {
        self.name.as_bytes().hash(state);
    }
}
