//! Substrates are registered with the map of their carrier, and go with it (this tool's profile, carriers and substrates).

ghost use Rattle.std.specs.Prelude.{◌≡◌, ◌≤◌, ◌++◌, ◌∷◌, [], true, false, drop, length, slice_get, IfOk, OnOk, Some};
ghost use Rattle.gem_ids.specs.Names.{name_in_slot};
ghost use Rattle.gem_tables.specs.Table.{firing};
ghost use Rattle.floor_model.specs.Substrates.{registers_at, registers_slot, registers_slots, registers_at_port, registration_rows, emptied, removed_of, without_carrier};

use crate::floor::ToolFloor;
use carrier::Carrier;
use floor_model::Substrate;
use gem_ids::{LocId, PortNo, SlotNo, SubstrateId, substrate_id};
use gem_tables::{Firing, Table};
use std::alloc::{AllocError, Global};
use substrate::{PlaceFault, SubstrateRecord};

// The code of a slot, by its place, counted from 0.
fn code_at(slots: &[u8], place: usize) -> Option<u8>
    ensures { result ≡ slice_get slots.now place }
{
    slots.get(place).copied()
}

// The rows of the substrate of a number come behind these.
fn push_rows(number: u64, rows: &mut Vec<Firing>) -> Result<(), AllocError>
    ensures { OnOk result (rows.new.items ≡ (rows.old.items ++ firing 12 number 1 ∷ []) ++ firing 13 number 1 ∷ []) }
{
    rows.push(Firing::of(Table::Transport, number, 1))?;
    rows.push(Firing::of(Table::Processing, number, 1))?;
    Ok(())
}

impl ToolFloor {
    // ---- registration

    // A substrate of the carrier of a number is registered at a place, where it can be.
    fn register_at(&mut self, sub: SubstrateId, carrier: u64, loc: LocId) -> Result<(), AllocError>
        ensures { IfOk result (λ _. self.new ≡ registers_at sub carrier loc self.old) }
    {
        if !self.places.has(loc) {
            return Ok(());
        }
        match self.places.register(sub, loc) {
            Ok(number) => self.substrates.push(Substrate {
                number,
                sub,
                carrier,
                slot: loc,
                states: SubstrateRecord::new(),
                aligned: false,
                steps: 0,
                job: 0,
            }),
            Err(PlaceFault::NoMemory) => Err(AllocError),
            Err(_) => Ok(()),
        }
    }

    // What a slot of a carrier at a port holds is registered, where its code is 3, correctly occupied.
    fn register_slot(
        &mut self,
        carrier: &Carrier,
        port: PortNo,
        slot: u8,
        code: u8,
    ) -> Result<(), AllocError>
        requires first { 1 ≤ slot }
        requires last { slot ≤ 25 }
        ensures { IfOk result (λ _. self.new ≡ registers_slot carrier.now port slot code self.old) }
    {
        if code == 3 {
            let slot = SlotNo(slot);
            return self.register_at(
                substrate_id(carrier.name, slot),
                carrier.number,
                LocId::Slot(port, slot),
            );
        }
        Ok(())
    }

    // The substrates of a carrier at a port are registered, in the order of its slots.
    fn register_slots(&mut self, carrier: &Carrier, port: PortNo) -> Result<(), AllocError>
        ensures { IfOk result (λ _. self.new ≡ registers_slots carrier.now port 1 25 carrier.now.map self.old) }
    {
        for place in 0..25 {
            if let Some(code) = code_at(&carrier.map, place) {
                self.register_slot(carrier, port, (place + 1) as u8, code)?;
            }
        }
        Ok(())
    }

    // The substrates of a carrier at its port are registered.
    pub(crate) fn register(&mut self, carrier: &Carrier) -> Result<(), AllocError>
        ensures { IfOk result (λ _. self.new ≡ registers_at_port carrier.now.port carrier.now self.old) }
    {
        match carrier.port {
            Some(port) => self.register_slots(carrier, port),
            None => Ok(()),
        }
    }

    // The rows of the substrates behind so many.
    pub(crate) fn registration_rows(
        &self,
        alloc: Global,
        known: usize,
    ) -> Result<Vec<Firing>, AllocError>
        ensures { IfOk result (λ rows. rows.items ≡ registration_rows (drop known self.now.substrates)) }
    {
        let mut rows = Vec::new(alloc);
        for place in known..self.substrate_count() {
            if let Some(substrate) = self.substrate_at(place) {
                push_rows(substrate.number, &mut rows)?;
            }
        }
        Ok(rows)
    }

    // ---- removal

    // The substrates of the carrier of a number have no place any more.
    fn empty_slots(&mut self, carrier: u64)
        ensures { self.new ≡ record self.old { places = removed_of carrier self.old.substrates self.old.places } }
    {
        // from the last on, which the places can take off without moving others up
        let count = self.substrate_count();
        for done in 0..count {
            self.empty_slot(carrier, count - 1 - done);
        }
    }

    // The substrate of a place in their list has no place any more, where there is one and it is of the carrier of a number.
    fn empty_slot(&mut self, carrier: u64, place: usize)
        ensures { self.new ≡ record self.old { places = emptied carrier (slice_get self.old.substrates place) self.old.places } }
    {
        if let Some(substrate) = self.substrates.get(place) {
            if substrate.carrier == carrier {
                self.places.remove(substrate.sub);
            }
        }
    }

    // The substrates of the carrier of a number are removed and forgotten.
    pub(crate) fn take_along(&mut self, carrier: u64)
        ensures { self.new ≡ without_carrier (Some carrier) self.old }
    {
        self.empty_slots(carrier);
        self.substrates.forget(carrier);
    }
}
