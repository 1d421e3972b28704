//! The locations of a tool.

ghost use Rattle.std.specs.Prelude.{◌≡◌};
ghost use Rattle.substrate.specs.Locations.{is_same, is_location, is_work_place};

use gem_ids::LocId;

/// Whether two names of places are of the same place.
pub fn is_same(one: LocId, other: LocId) -> bool
    ensures { result ≡ is_same one other }
{
    match (one, other) {
        (LocId::Slot(p, k), LocId::Slot(q, m)) => p.0 == q.0 && k.0 == m.0,
        (LocId::Aligner, LocId::Aligner) => true,
        (LocId::Arm, LocId::Arm) => true,
        (LocId::Chamber(c), LocId::Chamber(d)) => c == d,
        _ => false,
    }
}

// Whether a place is one of a tool with so many load ports and chambers.
pub(crate) fn is_location(ports: u8, chambers: u8, loc: LocId) -> bool
    ensures { result ≡ is_location ports chambers loc }
{
    match loc {
        LocId::Slot(p, k) => 1 <= p.0 && p.0 <= ports && (1 <= k.0 && k.0 <= 25),
        LocId::Aligner | LocId::Arm => true,
        LocId::Chamber(c) => 1 <= c && c <= chambers,
    }
}

/// Whether the place is the aligner, the arm or a chamber.
pub fn is_work_place(loc: LocId) -> bool
    ensures { result ≡ is_work_place loc }
{
    match loc {
        LocId::Slot(_, _) => false,
        LocId::Aligner | LocId::Arm | LocId::Chamber(_) => true,
    }
}
