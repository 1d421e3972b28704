//! Which rows of tables 10 to 13 start, and which are ready by themselves (this tool's profile, tables 10 to 13 and settling).

ghost use Rattle.std.specs.Prelude.{◌≡◌, ◌<◌, ◌+◌, ◌∷◌, [], true, false, length, map, Some, None};
ghost use Rattle.gem_tables.specs.Names.{table_number};
ghost use Rattle.gem_tables.specs.Table.{first_itself, is_one_of};
ghost use Rattle.gem_tables.specs.Machine.{first_ready, ready_in};
ghost use Rattle.carrier.specs.Tables.{access_number, accessing_table};
ghost use Rattle.carrier.specs.Carriers.{carrier_numbered};
ghost use Rattle.substrate.specs.Tables.{occupancy_number, occupancy_table, transport_number, transport_table, processing_number, processing_table};
ghost use Rattle.shop_floor.specs.Floor.{number_of as carrier_number};
ghost use Rattle.floor_model.specs.Floor.{ToolFloor, location_at, location_numbers, substrate_numbered, number_of};
ghost use Rattle.floor_model.specs.Wants.{accessing_wants, location_wants, substrate_wants, stopping_row, ending_row};
ghost use Rattle.floor_model.specs.Machines.{floor_machines, floor_starts, location_ready};
ghost use Rattle.tool_floor.specs.Located.{first_accessing, first_location, first_transport, first_processing, NoSubstrates, NoShop};

use crate::floor::ToolFloor;
use carrier::{Accessing, Carrier};
use floor_model::Substrate;
use gem_tables::{Firing, Table};
use substrate::{LocationRecord, Occupancy, Processing, Transport};

impl ToolFloor {
    // ---- accessing

    // Whether a row of table 10 starts.
    #[inline(never)]
    pub(crate) fn starts_at_carrier(&self, x: Firing) -> bool
        requires { x.row.table ≡ 10 }
        ensures { result ≡ floor_starts x self.now }
    {
        match self.shop.carrier_numbered(x.object) {
            Some(carrier) => {
                let mut states = carrier.states;
                states.fire(x.row.table, x.row.row) && self.accessing_wants(x.row.row, carrier)
            }
            None => false,
        }
    }

    // The row of table 10 that is ready at a carrier.
    fn accessing_row(&self, carrier: &Carrier) -> Option<u8>
        ensures { carrier_numbered carrier.now.number self.now.shop.carriers ≡ Some carrier.now → result ≡ ready_in floor_machines 10 carrier.now.number self.now }
    {
        match carrier.states.access {
            Accessing::NotAccessed => {
                if self.has_outside(carrier.number) {
                    Some(1)
                } else {
                    None
                }
            }
            Accessing::InAccess => {
                if self.is_quiet(carrier) {
                    Some(if carrier.stopped { 3 } else { 2 })
                } else {
                    None
                }
            }
            _ => None,
        }
    }

    // The row of table 10 that is ready at the first carrier at which one is.
    #[inline(never)]
    pub(crate) fn ready_accessing(&self) -> Option<Firing>
        ensures { result ≡ first_ready 10 (λ carrier. ready_in floor_machines 10 carrier self.now) (map carrier_number self.now.shop.carriers) }
    {
        for place in 0..self.carrier_count() {
            if let Some(carrier) = self.carrier_at(place) {
                if let Some(row) = self.accessing_row(carrier) {
                    return Some(Firing::of(Table::Accessing, carrier.number, row));
                }
            }
        }
        None
    }

    // The same, where it may be known that there is none.
    pub(crate) fn ready_accessing_where(&self, shop_rests: bool) -> Option<Firing>
        requires { shop_rests ≡ true → NoShop self.now }
        ensures { result ≡ first_accessing self.now }
    {
        if shop_rests {
            None
        } else {
            self.ready_accessing()
        }
    }

    // ---- locations

    // The state of the location of a number.
    pub(crate) fn location(&self, number: u64) -> Option<LocationRecord>
        ensures { result ≡ location_at number self.now.locations }
    {
        if number == 0 || number > self.locations.len() as u64 {
            None
        } else {
            self.locations.get(number as usize - 1).copied()
        }
    }

    // Whether a row of table 11 starts.
    pub(crate) fn starts_at_location(&self, x: Firing) -> bool
        requires { x.row.table ≡ 11 }
        ensures { result ≡ floor_starts x self.now }
    {
        match self.location(x.object) {
            Some(location) => {
                let mut states = location;
                states.fire(x.row.row) && self.location_wants(x.row.row, x.object as usize)
            }
            None => false,
        }
    }

    // The row of table 11 that is ready at the location of a number.
    fn location_row(&self, number: u64) -> Option<u8>
        ensures { result ≡ location_ready number (location_at number self.now.locations) self.now }
    {
        match self.location(number) {
            Some(location) => match (location.occupancy, self.places.is_taken_at(number as usize)) {
                (Occupancy::Unoccupied, true) => Some(1),
                (Occupancy::Occupied, false) => Some(2),
                _ => None,
            },
            None => None,
        }
    }

    // Whether the state of the location at a place in their list, counted from 0, isn't what the places tell.
    fn is_changed_at(&self, place: usize) -> bool
        requires { place < length self.now.locations }
        ensures { result ≡ false → location_ready (place + 1) (location_at (place + 1) self.now.locations) self.now ≡ None }
    {
        match self.locations[place].occupancy {
            Occupancy::Unoccupied => self.places.is_taken_at(place + 1),
            Occupancy::Occupied => !self.places.is_taken_at(place + 1),
        }
    }

    // The row of table 11 that is ready at the first location at which one is.
    #[inline(never)]
    pub(crate) fn ready_location(&self) -> Option<Firing>
        ensures { result ≡ first_ready 11 (λ number. location_ready number (location_at number self.now.locations) self.now) (location_numbers 1 self.now.locations) }
    {
        for place in 0..self.location_count() {
            if self.is_changed_at(place) {
                let number = place as u64 + 1;
                if let Some(row) = self.location_row(number) {
                    return Some(Firing::of(Table::Location, number, row));
                }
            }
        }
        None
    }

    // The same, where it may be known that there is none.
    pub(crate) fn ready_location_where(&self, locations_rest: bool) -> Option<Firing>
        requires { locations_rest ≡ true → first_location self.now ≡ None }
        ensures { result ≡ first_location self.now }
    {
        if locations_rest {
            None
        } else {
            self.ready_location()
        }
    }

    // ---- substrates

    // Whether a row of table 12 or 13 starts.
    pub(crate) fn starts_at_substrate(&self, x: Firing) -> bool
        requires { is_one_of (12 ∷ 13 ∷ []) x.row.table ≡ true }
        ensures { result ≡ floor_starts x self.now }
    {
        match self.substrates.known(x.object) {
            Some(substrate) => {
                let registered = x.row.row == 1;
                let mut states = substrate.states;
                (registered || states.fire(x.row.table, x.row.row))
                    && self.substrate_wants(x.row, substrate)
            }
            None => false,
        }
    }

    // The row of table 12 that is ready at a substrate.
    fn transport_row(&self, s: &Substrate) -> Option<u8>
        ensures { result ≡ first_itself transport_number (λ want. substrate_wants want s.now self.now) transport_table s.now.states.transport }
    {
        match s.states.transport {
            Transport::AtSource => { if self.is_outside(s) { Some(2) } else { None } }
            Transport::AtWork => { if self.is_in_slot(s) { Some(3) } else { None } }
            Transport::AtDestination => None,
        }
    }

    // The row of table 13 that is ready at a substrate.
    fn processing_row(&self, s: &Substrate) -> Option<u8>
        ensures { result ≡ first_itself processing_number (λ want. substrate_wants want s.now self.now) processing_table s.now.states.processing }
    {
        match s.states.processing {
            Processing::NeedsProcessing => {
                if self.is_processed(s) {
                    Some(2)
                } else {
                    self.ending_row(s)
                }
            }
            Processing::InProcess => self.stopping_row(s),
            _ => None,
        }
    }

    // The row of table 13 by which a substrate that NEEDS PROCESSING ends with its process job.
    fn ending_row(&self, s: &Substrate) -> Option<u8>
        ensures { result ≡ ending_row s.now self.now }
    {
        if self.is_skipped(s) {
            Some(5)
        } else {
            self.stopping_row(s)
        }
    }

    // The row of table 13 by which a substrate outside ends with its process job.
    fn stopping_row(&self, s: &Substrate) -> Option<u8>
        ensures { result ≡ stopping_row s.now self.now }
    {
        // the few jobs are asked first, since most end nothing
        if !self.is_of_stopping(s) && !self.is_of_aborting(s) {
            return None;
        }
        if self.is_outside_of_stopping(s) {
            Some(6)
        } else if self.is_outside_of_aborting(s) {
            Some(7)
        } else {
            None
        }
    }

    // The row of table 12 or 13 that is ready at a substrate.
    fn substrate_row(&self, table: Table, s: &Substrate) -> Option<u8>
        requires { is_one_of (12 ∷ 13 ∷ []) (table_number table) ≡ true }
        ensures { substrate_numbered s.now.number self.now.substrates ≡ Some s.now → result ≡ ready_in floor_machines (table_number table) s.now.number self.now }
    {
        match table {
            Table::Transport => self.transport_row(s),
            _ => self.processing_row(s),
        }
    }

    // The row of table 12 that is ready at the first substrate at which one is.
    #[inline(never)]
    pub(crate) fn ready_transport(&self) -> Option<Firing>
        ensures { result ≡ first_ready 12 (λ n. ready_in floor_machines 12 n self.now) (map number_of self.now.substrates) }
    {
        // a row is ready only at one that is outside, or that is AT WORK
        if !self.places.is_any_at_work() && !self.substrates.is_any_at_work() {
            return None;
        }
        self.ready_substrate(Table::Transport)
    }

    // The row of table 13 that is ready at the first substrate at which one is.
    #[inline(never)]
    pub(crate) fn ready_processing(&self) -> Option<Firing>
        ensures { result ≡ first_ready 13 (λ n. ready_in floor_machines 13 n self.now) (map number_of self.now.substrates) }
    {
        // the few modules and jobs are asked first, since each substrate would have to ask all of them
        if !self.is_any_due() && !self.is_any_ending() {
            return None;
        }
        self.ready_substrate(Table::Processing)
    }

    // The same of each table, where it may be known that there is none.
    pub(crate) fn ready_transport_where(&self, substrates_rest: bool) -> Option<Firing>
        requires { substrates_rest ≡ true → NoSubstrates self.now }
        ensures { result ≡ first_transport self.now }
    {
        if substrates_rest {
            None
        } else {
            self.ready_transport()
        }
    }

    pub(crate) fn ready_processing_where(&self, substrates_rest: bool) -> Option<Firing>
        requires { substrates_rest ≡ true → NoSubstrates self.now }
        ensures { result ≡ first_processing self.now }
    {
        if substrates_rest {
            None
        } else {
            self.ready_processing()
        }
    }

    // The row of table 12 or 13 that is ready at the first substrate at which one is.
    #[inline(never)]
    fn ready_substrate(&self, table: Table) -> Option<Firing>
        requires { is_one_of (12 ∷ 13 ∷ []) (table_number table) ≡ true }
        ensures { result ≡ first_ready (table_number table) (λ n. ready_in floor_machines (table_number table) n self.now) (map number_of self.now.substrates) }
    {
        for place in 0..self.substrate_count() {
            if let Some(substrate) = self.substrate_at(place) {
                if let Some(row) = self.substrate_row(table, substrate) {
                    return Some(Firing::of(table, substrate.number, row));
                }
            }
        }
        None
    }
}
