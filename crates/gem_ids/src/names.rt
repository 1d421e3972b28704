ghost use Rattle.std.specs.Prelude.{◌≡◌, ℕ, ◌≤◌, ◌↔◌, List, length, IsSome, IfSome};
ghost use Rattle.gem_ids.specs.Texts.{IsText};
ghost use Rattle.gem_ids.specs.Names.{HasLength, name_in_slot};

use crate::numbers::SlotNo;
use crate::text::Text80;
use std::marker::{Model, PhantomData};

/// The name of a thing of kind `K`, a text of `LEAST` to `MOST` bytes (this tool's profile, names). Contracts see it
/// as the list of its bytes. Names of two kinds are of two types, and are never mistaken for one another.
#[derive(Clone, Copy, Debug, PartialEq, Eq)]
pub struct Name<K, const LEAST: usize, const MOST: usize> {
    text: Text80,
    kind: PhantomData<K>,
}

impl<K, const LEAST: usize, const MOST: usize> Model for Name<K, LEAST, MOST> {
    ghost use Rattle.std.specs.Prelude.{ℕ, List};
    ghost use Rattle.gem_ids.specs.Names.{HasLength};

    ghost Value = { List ℕ };

    ghost view = { λ n. n.text };

    ghost invariant = { λ n. HasLength LEAST MOST n.text };

    ghost inverse = { λ bytes. record { text = bytes; kind = record {} } };
}

impl<K, const LEAST: usize, const MOST: usize> Name<K, LEAST, MOST> {
    /// The name of these bytes. None where the text has fewer than `LEAST` bytes, or more than `MOST`.
    pub fn read(t: Text80) -> Option<Name<K, LEAST, MOST>>
        ensures name { IfSome result (λ name. name ≡ t) }
        ensures some { IsSome result ↔ HasLength LEAST MOST t }
    {
        if t.len() < LEAST || t.len() > MOST {
            return None;
        }
        Some(Name {
            text: t,
            kind: PhantomData,
        })
    }

    /// The bytes of the name.
    pub fn as_bytes(&self) -> &[u8]
        ensures value { result.now ≡ self.now }
        ensures name { HasLength LEAST MOST self.now }
        ensures text { IsText self.now }
    {
        self.text.as_bytes()
    }

    /// The name as a text.
    pub fn text(self) -> Text80
        ensures value { result ≡ self }
        ensures name { HasLength LEAST MOST self }
    {
        self.text
    }
}

/// The kind of `CarrierId`.
#[derive(Clone, Copy, PartialEq, Eq)]
pub struct CarrierKind;

/// The kind of `JobId`.
#[derive(Clone, Copy, PartialEq, Eq)]
pub struct JobKind;

/// The kind of `SubstrateId`.
#[derive(Clone, Copy, Debug, PartialEq, Eq)]
pub struct SubstrateKind;

/// The name of a carrier, 1 to 64 bytes (SEMI E87, carrier).
pub type CarrierId = Name<CarrierKind, 1, 64>;

/// The name of a process job or a control job, 1 to 64 bytes.
pub type JobId = Name<JobKind, 1, 64>;

/// The name of a substrate, 4 to 67 bytes.
pub type SubstrateId = Name<SubstrateKind, 4, 67>;

/// The name that this tool gives the substrate in a slot of a carrier, the slot being 1 to 25: the carrier's name, a
/// point, and the slot in two digits.
pub fn substrate_id(carrier: CarrierId, slot: SlotNo) -> SubstrateId
    requires first { 1 ≤ slot.0 }
    requires last { slot.0 ≤ 25 }
    ensures { result ≡ name_in_slot carrier slot.0 }
{
    let mut text = carrier.text();
    text.push(b'.');
    text.push(b'0' + slot.0 / 10);
    text.push(b'0' + slot.0 % 10);
    Name {
        text,
        kind: PhantomData,
    }
}
