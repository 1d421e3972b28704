//! The names of places (this tool's profile, object names).

ghost use Rattle.std.specs.Prelude.{◌≡◌};
ghost use Rattle.floor_model.specs.Floor.{place_name};

use gem_ids::{LocId, Text80};

// The name of a place; the empty text for one that no tool has.
pub(crate) fn place_name(loc: LocId) -> Text80
    ensures { result ≡ place_name loc }
{
    match loc {
        LocId::Slot(p, k) => {
            if p.0 < 10 && k.0 < 100 {
                Text80::read(&[b'P', b'0' + p.0, b'.', b'0' + k.0 / 10, b'0' + k.0 % 10]).unwrap()
            } else {
                Text80::empty()
            }
        }
        LocId::Aligner => Text80::read(b"AL").unwrap(),
        LocId::Arm => Text80::read(b"ARM").unwrap(),
        LocId::Chamber(c) => {
            if c < 10 {
                Text80::read(&[b'C', b'0' + c]).unwrap()
            } else {
                Text80::empty()
            }
        }
    }
}
