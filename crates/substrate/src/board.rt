//! Who is at each place.

ghost use Rattle.std.specs.Prelude.{◌≡◌, ◌<◌, ◌≤◌, ◌*◌, true, slice_get, length, replicate, Some, None, IfOk, option_map, option_copied, is_some};
ghost use Rattle.substrate.specs.Locations.{is_location};
ghost use Rattle.substrate.specs.Board.{spot_of, spot_count, location_numbered, name_at, with_name, HasSpots};

use gem_ids::{LocId, PortNo, SlotNo, SubstrateId};
use std::alloc::{AllocError, Global};
use std::marker::Model;

// The places of a tool, one behind the other: the slots port by port, the aligner, the arm and the chambers; each with the name
// of the substrate that is there.
#[derive(Drop)]
pub(crate) struct Board {
    ports: u8,
    chambers: u8,
    names: Vec<Option<SubstrateId>>,
}

impl Model for Board {
    ghost use Rattle.substrate.specs.Board.{Spots, spots, HasSpots};

    ghost Value = { Spots };

    ghost view = { λ b. spots b.ports b.chambers b.names.items };

    ghost invariant = { λ b. HasSpots (spots b.ports b.chambers b.names.items) };
}

impl Board {
    // Nobody is anywhere. Takes room for all places.
    pub(crate) fn new(alloc: Global, ports: u8, chambers: u8) -> Result<Board, AllocError>
        ensures ports { IfOk result (λ b. b.ports ≡ ports) }
        ensures chambers { IfOk result (λ b. b.chambers ≡ chambers) }
        ensures names { IfOk result (λ b. b.names ≡ replicate (spot_count ports chambers) None) }
    {
        let names = vec![in alloc; None; ports as usize * 25 + 2 + chambers as usize]?;
        Ok(Board {
            ports,
            chambers,
            names,
        })
    }

    // Whether a place is one of the tool.
    pub(crate) fn has(&self, loc: LocId) -> bool
        ensures { result ≡ is_location self.now.ports self.now.chambers loc }
    {
        crate::location::is_location(self.ports, self.chambers, loc)
    }

    // Who is at a place of the tool.
    pub(crate) fn name_at(&self, loc: LocId) -> Option<&SubstrateId>
        requires { is_location self.now.ports self.now.chambers loc ≡ true }
        ensures { name_at loc self.now ≡ Some (option_copied result) }
    {
        self.names[self.spot_of(loc)].as_ref()
    }

    // How many places there are.
    pub(crate) fn len(&self) -> usize
        ensures { result ≡ spot_count self.now.ports self.now.chambers }
    {
        self.names.len()
    }

    // How many slots there are.
    pub(crate) fn slot_count(&self) -> usize
        ensures { result ≡ self.now.ports * 25 }
    {
        self.ports as usize * 25
    }

    // Whether someone is at the place of a spot, counted from 0.
    pub(crate) fn is_taken(&self, spot: usize) -> bool
        requires { spot < spot_count self.now.ports self.now.chambers }
        ensures { option_map is_some (slice_get self.now.names spot) ≡ Some result }
    {
        self.names[spot].is_some()
    }

    // The place of a number, counted from 1.
    pub(crate) fn location(&self, number: usize) -> LocId
        requires there { 1 ≤ number }
        requires within { number ≤ spot_count self.now.ports self.now.chambers }
        ensures { result ≡ location_numbered self.now.ports number }
    {
        let spot = number - 1;
        let slots = self.ports as usize * 25;
        if spot < slots {
            LocId::Slot(PortNo((1 + spot / 25) as u8), SlotNo((1 + spot % 25) as u8))
        } else if spot == slots {
            LocId::Aligner
        } else if spot == slots + 1 {
            LocId::Arm
        } else {
            let chamber = spot - (slots + 1);
            prove!(chamber <= self.chambers as usize);
            LocId::Chamber(chamber as u8)
        }
    }

    // This one is at a place of the tool now, or none.
    pub(crate) fn put(&mut self, loc: LocId, name: Option<SubstrateId>)
        requires { is_location self.old.ports self.old.chambers loc ≡ true }
        ensures { self.new ≡ with_name loc name self.old }
    {
        let spot = self.spot_of(loc);
        self.names[spot] = name;
    }

    // Where a place of the tool stands.
    fn spot_of(&self, loc: LocId) -> usize
        requires { is_location self.now.ports self.now.chambers loc ≡ true }
        ensures spot { result ≡ spot_of self.now.ports loc }
        ensures within { result < length self.now.names }
    {
        let ports = self.ports as usize;
        match loc {
            LocId::Slot(p, k) => (p.0 as usize - 1) * 25 + (k.0 as usize - 1),
            LocId::Aligner => ports * 25,
            LocId::Arm => ports * 25 + 1,
            LocId::Chamber(c) => ports * 25 + 1 + c as usize,
        }
    }
}
