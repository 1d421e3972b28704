//! Which substrate has which place.

ghost use Rattle.std.specs.Prelude.{◌≡◌, ◌+◌, ◌<◌, [], length, slice_get, nat_lt, true, Some, None, Err, IfOk, IfErr, option_copied};
ghost use Rattle.substrate.specs.Locations.{is_location};
ghost use Rattle.substrate.specs.Board.{spot_count};
ghost use Rattle.substrate.specs.Places.{PlaceMap, is_taken_at, is_any_at_work, found_location, substrate_named, substrate_at, is_known, is_taken, has_place, registered, fault_of, register_fault, can_shift, shifted, removed, most_substrates, no_places, ArePlaces};
ghost use Rattle.substrate.specs.declared.fault.PlaceFault.{PlaceFault};
ghost use Rattle.substrate.specs.declared.fault.PlaceFault.TheVariants.{NoMemory};

use crate::board::Board;
use crate::fault::PlaceFault;
use crate::location::is_same;
use crate::names::{forget, move_to};
use crate::registered::Registered;
use gem_ids::{LocId, SubstrateId};
use records::Names;
use std::alloc::{AllocError, Global};
use std::marker::Model;

/// The most substrates that have a place (this tool's profile, limits).
pub const MOST_SUBSTRATES: usize = 400;

/// Which substrate has which place, of a tool with so many load ports of 25 slots, an aligner, a robot with one arm, and so
/// many chambers (SEMI E90, substrate location). Contracts see the numbers of ports and chambers, the list of the substrates
/// that have a place in the order of their registration, and the last number of registration that was given. Each name and
/// each place is that of one substrate. Only `new` and `register` take memory. A substrate is found by its name and by its
/// place without going through the others.
#[derive(Drop)]
pub struct Places {
    names: Names<Registered>,
    board: Board,
    given: u64,
}

impl Model for Places {
    ghost use Rattle.substrate.specs.Places.{PlaceMap, ArePlaces};
    ghost use Rattle.substrate.specs.Tied.{map_of, AreTied};

    ghost Value = { PlaceMap };

    ghost view = { λ p. map_of p.names p.board p.given };

    ghost invariant = { λ p. AreTied p.names p.board p.given };
}

impl Places {
    /// No substrate has a place. Takes room for all places and 400 substrates. `AllocError` where there is none.
    pub fn new(alloc: Global, ports: u8, chambers: u8) -> Result<Places, AllocError>
        ensures { IfOk result (λ places. places ≡ no_places ports chambers) }
    {
        let names = Names::new(alloc, MOST_SUBSTRATES)?;
        let board = Board::new(alloc, ports, chambers)?;
        Ok(Places {
            names,
            board,
            given: 0,
        })
    }

    // ---- what they say

    /// How many substrates have a place, 0 to 400.
    pub fn len(&self) -> usize
        ensures len { result ≡ length self.now.held }
        ensures places { ArePlaces self.now }
    {
        self.names.len()
    }

    /// The last number of a registration that was given, 0 where none was: so many substrates were registered since the first state.
    pub fn given(&self) -> u64
        ensures { result ≡ self.now.given }
    {
        self.given
    }

    /// The substrate at a place of their list, counted from 0, which goes by their numbers. `None` exactly where there is none.
    pub fn get(&self, index: usize) -> Option<Registered>
        ensures value { result ≡ slice_get self.now.held index }
        ensures places { ArePlaces self.now }
    {
        self.names.get(index).copied()
    }

    /// The substrate of a name, with its number and its place. `None` exactly where none of the name has a place.
    pub fn find(&self, sub: SubstrateId) -> Option<Registered>
        ensures value { result ≡ substrate_named sub self.now.held }
        ensures places { ArePlaces self.now }
    {
        self.names.named(sub.text()).copied()
    }

    /// The substrate at a location. `None` exactly where none is there.
    pub fn at(&self, loc: LocId) -> Option<SubstrateId>
        ensures value { result ≡ substrate_at loc self.now.held }
        ensures places { ArePlaces self.now }
    {
        self.name_at(loc).copied()
    }

    /// The same, to be read where it is kept.
    pub fn name_at(&self, loc: LocId) -> Option<&SubstrateId>
        ensures value { option_copied result ≡ substrate_at loc self.now.held }
        ensures places { ArePlaces self.now }
    {
        if self.board.has(loc) {
            self.board.name_at(loc)
        } else {
            None
        }
    }

    /// How many locations the tool has.
    pub fn location_count(&self) -> usize
        ensures { result ≡ spot_count self.now.ports self.now.chambers }
    {
        self.board.len()
    }

    /// The location of a number, counted from 1: the slots port by port, then the aligner, the arm and the chambers (this tool's
    /// profile, settling). `None` exactly where there is none.
    pub fn location(&self, number: usize) -> Option<LocId>
        ensures { result ≡ found_location number self.now }
    {
        if 1 <= number && number <= self.board.len() {
            Some(self.board.location(number))
        } else {
            None
        }
    }

    /// Whether a substrate is at the location of a number, counted from 1.
    pub fn is_taken_at(&self, number: usize) -> bool
        ensures { result ≡ is_taken_at number self.now }
    {
        if 1 <= number && number <= self.board.len() {
            self.board.is_taken(number - 1)
        } else {
            false
        }
    }

    /// Whether a substrate is at the aligner, on the arm or in a chamber. It does not go through the substrates.
    pub fn is_any_at_work(&self) -> bool
        ensures { result ≡ is_any_at_work self.now }
    {
        for spot in self.board.slot_count()..self.board.len() {
            if self.is_taken_at(spot + 1) {
                return true;
            }
        }
        false
    }

    /// Whether a location is one of the tool.
    pub fn has(&self, loc: LocId) -> bool
        ensures { result ≡ is_location self.now.ports self.now.chambers loc }
    {
        self.board.has(loc)
    }

    // ---- what happens to them

    /// Registers a substrate at a location of the tool, and gives the number of its registration: the next, from 1. No number
    /// is given twice, however many substrates are removed. `Taken` comes exactly where another is there, and tells which;
    /// else `NameTaken` exactly where a substrate of the name has a place; else `NoSpace(400)` exactly where 400 have one.
    /// `NoMemory` comes for want of memory, and where the last number of a `u64` was given. Any fault changes nothing.
    pub fn register(&mut self, sub: SubstrateId, loc: LocId) -> Result<u64, PlaceFault>
        requires { is_location self.old.ports self.old.chambers loc ≡ true }
        ensures number { IfOk result (λ number. number ≡ self.old.given + 1) }
        ensures registered { IfOk result (λ _. self.new ≡ registered sub loc self.old) }
        ensures unchanged { IfErr result (λ _. self.new ≡ self.old) }
        ensures refused { (fault : PlaceFault) → register_fault sub loc self.old.held ≡ Some fault → result ≡ Err fault }
        ensures memory { register_fault sub loc self.old.held ≡ None → IfErr result (λ fault. fault ≡ NoMemory) }
    {
        match self.register_fault(sub, loc) {
            Some(fault) => Err(fault),
            None => self.add(sub, loc),
        }
    }

    // Why a substrate can't be registered at a location, whatever memory there is.
    fn register_fault(&self, sub: SubstrateId, loc: LocId) -> Option<PlaceFault>
        ensures { result ≡ register_fault sub loc self.now.held }
    {
        match self.name_at(loc) {
            Some(who) => Some(PlaceFault::Taken(*who)),
            None => self.name_fault(sub),
        }
    }

    // Why it can't be registered at an empty location.
    fn name_fault(&self, sub: SubstrateId) -> Option<PlaceFault>
        ensures { result ≡ fault_of None (is_known sub self.now.held) (nat_lt (length self.now.held) most_substrates) }
    {
        if self.is_known(sub) {
            Some(PlaceFault::NameTaken)
        } else if self.len() < MOST_SUBSTRATES {
            None
        } else {
            Some(PlaceFault::NoSpace(MOST_SUBSTRATES as u32))
        }
    }

    // Whether a substrate of a name has a place.
    fn is_known(&self, sub: SubstrateId) -> bool
        ensures { result ≡ is_known sub self.now.held }
    {
        self.names.named(sub.text()).is_some()
    }

    // Registers a substrate for which nothing but memory can be wanting.
    fn add(&mut self, sub: SubstrateId, loc: LocId) -> Result<u64, PlaceFault>
        requires location { is_location self.old.ports self.old.chambers loc ≡ true }
        requires free { register_fault sub loc self.old.held ≡ None }
        ensures number { IfOk result (λ number. number ≡ self.old.given + 1) }
        ensures registered { IfOk result (λ _. self.new ≡ registered sub loc self.old) }
        ensures unchanged { IfErr result (λ _. self.new ≡ self.old) }
        ensures memory { IfErr result (λ fault. fault ≡ NoMemory) }
    {
        if self.given == u64::MAX {
            return Err(PlaceFault::NoMemory);
        }
        let number = self.given + 1;
        match self.names.push(Registered {
            sub,
            number,
            at: loc,
        }) {
            Ok(()) => {
                self.board.put(loc, Some(sub));
                self.given = number;
                Ok(number)
            }
            Err(_) => Err(PlaceFault::NoMemory),
        }
    }

    /// Moves a substrate from one location to another: true exactly where it is at the one and the other is empty. False
    /// changes nothing. Takes no memory.
    pub fn shift(&mut self, sub: SubstrateId, from: LocId, to: LocId) -> bool
        requires start { is_location self.old.ports self.old.chambers from ≡ true }
        requires end { is_location self.old.ports self.old.chambers to ≡ true }
        ensures shifts { result ≡ can_shift sub from to self.old.held }
        ensures after { self.new ≡ shifted sub from to self.old }
    {
        let can = self.can_shift(sub, from, to);
        if can {
            move_to(&mut self.names, sub, to);
            self.board.put(from, None);
            self.board.put(to, Some(sub));
        }
        can
    }

    // Whether a substrate can move from one location to another.
    fn can_shift(&self, sub: SubstrateId, from: LocId, to: LocId) -> bool
        ensures { result ≡ can_shift sub from to self.now.held }
    {
        self.is_at(sub, from) && !self.is_taken(to)
    }

    // Whether a substrate is at a location.
    fn is_taken(&self, loc: LocId) -> bool
        ensures { result ≡ is_taken loc self.now.held }
    {
        self.name_at(loc).is_some()
    }

    // Whether the substrate of a name is at a location.
    fn is_at(&self, sub: SubstrateId, loc: LocId) -> bool
        ensures { result ≡ has_place sub loc self.now.held }
    {
        match self.names.named(sub.text()) {
            Some(substrate) => is_same(substrate.at, loc),
            None => false,
        }
    }

    /// Removes a substrate from its location: true exactly where one of the name has a location, and then it has none any more
    /// (SEMI E90: it is taken away, or lost). Its number stays given. False changes nothing. Takes no memory.
    pub fn remove(&mut self, sub: SubstrateId) -> bool
        ensures removes { result ≡ is_known sub self.old.held }
        ensures after { self.new ≡ removed sub self.old }
    {
        match forget(&mut self.names, sub) {
            Some(place) => {
                self.board.put(place, None);
                true
            }
            None => false,
        }
    }
}
