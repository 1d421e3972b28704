//! The substrates of the carriers that are here.

ghost use Rattle.std.specs.Prelude.{◌≡◌, ◌==◌, ◌&&◌, ◌∷◌, ◌++◌, [], length, filter, map, not, option_map, option_copied, slice_get, IfOk, IfErr};
ghost use Rattle.std.specs.List.{list_any};
ghost use Rattle.std.specs.Str.{bytes_eq};
ghost use Rattle.substrate.specs.Tables.{transport_number};
ghost use Rattle.substrate.specs.Record.{is_needing};
ghost use Rattle.floor_model.specs.Floor.{substrate_numbered, change_numbered};
ghost use Rattle.floor_model.specs.Machines.{substrate_moves};
ghost use Rattle.floor_model.specs.Substrates.{is_of};
ghost use Rattle.floor_model.specs.Modules.{aligned, stepped};
ghost use Rattle.floor_model.specs.Jobs.{joined, freed};

use crate::changing::{Aligns, Fires, Frees, IsOf, Joins, Steps};
use floor_model::Substrate;
use gem_ids::SubstrateId;
use process_job::ProcessJob;
use records::Book;
use shop_floor::ShopFloor;
use std::alloc::{AllocError, Global};
use std::marker::Model;
use substrate::MOST_SUBSTRATES;

// The substrates of the carriers that are here, in the order of their registration, which contracts see as the list of them.
#[derive(Drop)]
pub(crate) struct Substrates {
    book: Book<Substrate>,
}

impl Model for Substrates {
    ghost use Rattle.std.specs.Prelude.{List};
    ghost use Rattle.floor_model.specs.declared.tracked.Substrate.{Substrate};

    ghost Value = { List Substrate };

    ghost view = { λ s. s.book.kept };
}

impl Substrates {
    // None is here. Takes room for as many as have a place at most.
    pub(crate) fn new(alloc: Global) -> Result<Substrates, AllocError>
        ensures { IfOk result (λ substrates. substrates ≡ []) }
    {
        let book = Book::new(alloc, MOST_SUBSTRATES)?;
        Ok(Substrates { book })
    }

    // All of them.
    pub(crate) fn as_slice(&self) -> &[Substrate]
        ensures { result.now ≡ self.now }
    {
        self.book.as_slice()
    }

    // How many there are.
    pub(crate) fn len(&self) -> usize
        ensures { result ≡ length self.now }
    {
        self.book.len()
    }

    // The substrate of a place, counted from 0.
    pub(crate) fn get(&self, place: usize) -> Option<&Substrate>
        ensures { option_map (λ s. s.now) result ≡ slice_get self.now place }
    {
        self.book.get(place)
    }

    // The substrate of a number of registration.
    pub(crate) fn numbered(&self, number: u64) -> Option<Substrate>
        ensures { result ≡ substrate_numbered number self.now }
    {
        self.known(number).copied()
    }

    // The same, to be read where it is kept.
    pub(crate) fn known(&self, number: u64) -> Option<&Substrate>
        ensures { option_copied result ≡ substrate_numbered number self.now }
    {
        self.book.numbered(number)
    }

    // Whether one is AT WORK.
    pub(crate) fn is_any_at_work(&self) -> bool
        ensures { result ≡ list_any (λ s. transport_number s.states.transport == 1) self.now }
    {
        self.book
            .as_slice()
            .iter()
            .any(|s| s.states.transport.number() == 1)
    }

    // Whether one of this name NEEDS PROCESSING.
    pub(crate) fn needs_processing(&self, sub: SubstrateId) -> bool
        ensures { result ≡ list_any (λ s. is_needing s.states.processing && bytes_eq sub s.sub) self.now }
    {
        self.book.as_slice().iter().any(|s| s.states.processing.is_needing()
            && sub.as_bytes() == s.sub.as_bytes())
    }

    // One is registered, behind the others. On want of memory nothing has changed.
    pub(crate) fn push(&mut self, new: Substrate) -> Result<(), AllocError>
        ensures ok { IfOk result (λ _. self.new ≡ self.old ++ new ∷ []) }
        ensures err { IfErr result (λ _. self.new ≡ self.old) }
    {
        self.book.push_growing(new)
    }

    // A row of table 12 or 13 fires at the substrate of a number.
    pub(crate) fn fire(&mut self, number: u64, table: u8, row: u8)
        ensures { self.new ≡ change_numbered number (substrate_moves table row) self.old }
    {
        self.book.change_numbered(number, &Fires { table, row });
    }

    // The substrate of a number is aligned.
    pub(crate) fn align(&mut self, number: u64)
        ensures { self.new ≡ change_numbered number aligned self.old }
    {
        self.book.change_numbered(number, &Aligns);
    }

    // The next step of the route of the substrate of a number is done.
    pub(crate) fn step(&mut self, number: u64)
        ensures { self.new ≡ change_numbered number stepped self.old }
    {
        self.book.change_numbered(number, &Steps);
    }

    // Those that a process job names become its members, where they can.
    pub(crate) fn join(&mut self, job: &ProcessJob, shop: &ShopFloor)
        ensures { self.new ≡ map (joined job.now shop.now) self.old }
    {
        self.book.change_each(&Joins { job, shop });
    }

    // The members of the process job of a number are in no job.
    pub(crate) fn free(&mut self, number: u64)
        ensures { self.new ≡ map (freed number) self.old }
    {
        self.book.change_each(&Frees { job: number });
    }

    // The substrates of the carrier of a number are forgotten.
    pub(crate) fn forget(&mut self, carrier: u64)
        ensures { self.new ≡ filter (λ s. not (is_of carrier s)) self.old }
    {
        self.book.forget_where(&IsOf { carrier });
    }
}
