//! Which rows of tables 4 to 10 start, and which are ready by themselves (after SEMI E87; this tool's profile, tables 4 to 10).

ghost use Rattle.std.specs.Prelude.{◌≡◌, ◌==◌, ◌&&◌, ◌||◌, true, [], ◌∷◌, map, Some};
ghost use Rattle.load_port.specs.Tables.{transfer_number, transfer_table, access_table, reservation_number, reservation_table, association_number, association_table};
ghost use Rattle.carrier.specs.Tables.{id_number, id_table, map_number, map_table, access_number, accessing_table};
ghost use Rattle.carrier.specs.Wants.{carrier_wants, is_verified};
ghost use Rattle.carrier.specs.Record.{carrier_starts};
ghost use Rattle.carrier.specs.Carriers.{carrier_numbered};
ghost use Rattle.gem_tables.specs.Names.{table_number};
ghost use Rattle.gem_tables.specs.Table.{first_itself, row_of, wants_found, is_one_of};
ghost use Rattle.gem_tables.specs.Machine.{first_ready, ready_in};
ghost use Rattle.shop_floor.specs.Floor.{Floor, numbers_from, number_of};
ghost use Rattle.shop_floor.specs.Rows.{port_wants};
ghost use Rattle.shop_floor.specs.Machines.{floor_machines, floor_starts};

use crate::asking::{directed, has_finished, is_elsewhere, is_own, port_no};
use crate::floor::ShopFloor;
use carrier::{Carrier, CarrierRecord, Carriers, IdState, MapState};
use gem_ids::PortNo;
use gem_tables::{Firing, RowId, Table};
use load_port::{Association, Port, Transfer};

// ---- what a row wants

// Whether what a row wants is so of the port of this number.
fn port_wants(row: RowId, number: PortNo, port: &Port, carriers: &Carriers) -> bool
    ensures transfer { row.table ≡ 4 → result ≡ wants_found (λ want. port_wants want number.0 port.now carriers.now) (row_of transfer_table row.row) }
    ensures access { row.table ≡ 5 → result ≡ wants_found (λ want. port_wants want number.0 port.now carriers.now) (row_of access_table row.row) }
    ensures reservation { row.table ≡ 6 → result ≡ wants_found (λ want. port_wants want number.0 port.now carriers.now) (row_of reservation_table row.row) }
    ensures association { row.table ≡ 7 → result ≡ wants_found (λ want. port_wants want number.0 port.now carriers.now) (row_of association_table row.row) }
{
    match (Table::of(row.table), row.row) {
        (Some(Table::Transfer), 4) => has_finished(number, carriers),
        (Some(Table::Reservation), 3) => port.states.transfer.is_occupied(),
        (Some(Table::Association), 1) => directed(number, carriers).is_some(),
        (Some(Table::Association), 3) => port.arrival.is_some(),
        (Some(Table::Association), 4) => port.arrival.is_some() && !is_own(port),
        (Some(Table::Association), 5) => is_own(port),
        (Some(Table::Association), 7) => is_elsewhere(number, port, carriers),
        _ => true,
    }
}

// ---- the ports

// The row of table 4 that is ready at the port of this number.
fn transfer_row(number: PortNo, port: &Port, carriers: &Carriers) -> Option<u8>
    ensures { result ≡ first_itself transfer_number (λ want. port_wants want number.0 port.now carriers.now) transfer_table port.now.states.transfer }
{
    if matches!(port.states.transfer, Transfer::TransferBlocked) && has_finished(number, carriers) {
        Some(4)
    } else {
        None
    }
}

// The row of table 6 that is ready at a port.
fn reservation_row(number: PortNo, port: &Port, carriers: &Carriers) -> Option<u8>
    ensures { result ≡ first_itself reservation_number (λ want. port_wants want number.0 port.now carriers.now) reservation_table port.now.states.reservation }
{
    if port.states.reservation.is_reserved() && port.states.transfer.is_occupied() {
        Some(3)
    } else {
        None
    }
}

// The row of table 7 that is ready at the port of this number.
fn association_row(number: PortNo, port: &Port, carriers: &Carriers) -> Option<u8>
    ensures { result ≡ first_itself association_number (λ want. port_wants want number.0 port.now carriers.now) association_table port.now.states.association }
{
    let associated = matches!(port.states.association, Association::Associated);
    if port.arrival.is_some() {
        if !associated {
            Some(3)
        } else if is_own(port) {
            Some(5)
        } else {
            Some(4)
        }
    } else if associated && is_elsewhere(number, port, carriers) {
        Some(7)
    } else {
        None
    }
}

// ---- the carriers

// The row of table 8 that is ready at a carrier.
fn id_row(carrier: &Carrier) -> Option<u8>
    ensures { result ≡ first_itself id_number (λ want. carrier_wants want carrier.now) id_table carrier.now.states.id }
{
    if matches!(carrier.states.id, IdState::NotRead) && carrier.present {
        if carrier.bound && carrier.is_read {
            Some(2)
        } else {
            Some(3)
        }
    } else {
        None
    }
}

// The row of table 9 that is ready at a carrier.
fn map_row(carrier: &Carrier) -> Option<u8>
    ensures { result ≡ first_itself map_number (λ want. carrier_wants want carrier.now) map_table carrier.now.states.map }
{
    if matches!(carrier.states.map, MapState::NotRead) && is_verified(carrier) {
        if carrier.is_usable() && carrier.is_host_map() {
            Some(1)
        } else {
            Some(2)
        }
    } else {
        None
    }
}

// Whether the carrier is present, and its id is VERIFIED.
fn is_verified(carrier: &Carrier) -> bool
    ensures { result ≡ is_verified carrier.now }
{
    carrier.present && matches!(carrier.states.id, IdState::Verified)
}

// The row of table 8 or 9 that is ready at a carrier.
fn carrier_row(table: Table, carrier: &Carrier) -> Option<u8>
    requires { is_one_of (8 ∷ 9 ∷ []) (table_number table) ≡ true }
    ensures { (f : Floor) → carrier_numbered carrier.now.number f.carriers ≡ Some carrier.now → result ≡ ready_in floor_machines (table_number table) carrier.now.number f }
{
    match table {
        Table::CarrierId => id_row(carrier),
        _ => map_row(carrier),
    }
}

// Whether what a row wants is so of a carrier.
fn carrier_wants(row: RowId, carrier: &Carrier) -> bool
    ensures id { row.table ≡ 8 → result ≡ wants_found (λ want. carrier_wants want carrier.now) (row_of id_table row.row) }
    ensures map { row.table ≡ 9 → result ≡ wants_found (λ want. carrier_wants want carrier.now) (row_of map_table row.row) }
    ensures accessing { row.table ≡ 10 → result ≡ wants_found (λ want. carrier_wants want carrier.now) (row_of accessing_table row.row) }
{
    match (Table::of(row.table), row.row) {
        (Some(Table::CarrierId), 2) => carrier.present && carrier.bound && carrier.is_read,
        (Some(Table::CarrierId), 3) => carrier.present,
        (Some(Table::SlotMap), 1) => {
            is_verified(carrier) && carrier.is_usable() && carrier.is_host_map()
        }
        (Some(Table::SlotMap), 2) => is_verified(carrier),
        // what they want of substrates and process jobs is told above
        (Some(Table::Accessing), 1 | 2 | 3) => false,
        _ => true,
    }
}

// Whether a row of a table of carriers starts at these states, or is the one that creates a carrier.
fn starts_or_creates(row: RowId, mut states: CarrierRecord) -> bool
    ensures { result ≡ (((row.table == 8) && (row.row == 1)) || carrier_starts row.table row.row states) }
{
    (row.is_of(Table::CarrierId) && row.row == 1) || states.fire(row.table, row.row)
}

// ---- the floor

impl ShopFloor {
    // Whether a row of a table of ports starts.
    pub(crate) fn starts_at_port(&self, x: Firing) -> bool
        requires { is_one_of (4 ∷ 5 ∷ 6 ∷ 7 ∷ []) x.row.table ≡ true }
        ensures { result ≡ floor_starts x self.now }
    {
        match self.ports.numbered(x.object) {
            Some(port) => {
                let number = port_no(x.object);
                let mut states = port.states;
                states.fire(x.row.table, x.row.row)
                    && port_wants(x.row, number, port, &self.carriers)
            }
            None => false,
        }
    }

    // Whether a row of a table of carriers starts.
    pub(crate) fn starts_at_carrier(&self, x: Firing) -> bool
        requires { is_one_of (8 ∷ 9 ∷ 10 ∷ []) x.row.table ≡ true }
        ensures { result ≡ floor_starts x self.now }
    {
        match self.carriers.numbered(x.object) {
            Some(carrier) => {
                starts_or_creates(x.row, carrier.states) && carrier_wants(x.row, carrier)
            }
            None => false,
        }
    }

    // The row of table 4, 6 or 7 that is ready at the port of this number.
    fn port_row(&self, table: Table, number: u64) -> Option<u8>
        requires { is_one_of (4 ∷ 6 ∷ 7 ∷ []) (table_number table) ≡ true }
        ensures { result ≡ ready_in floor_machines (table_number table) number self.now }
    {
        match self.ports.numbered(number) {
            Some(port) => {
                let number = port_no(number);
                match table {
                    Table::Transfer => transfer_row(number, port, &self.carriers),
                    Table::Reservation => reservation_row(number, port, &self.carriers),
                    _ => association_row(number, port, &self.carriers),
                }
            }
            None => None,
        }
    }

    // The row of table 4, 6 or 7 that is ready at the first port at which one is.
    pub(crate) fn ready_port(&self, table: Table) -> Option<Firing>
        requires { is_one_of (4 ∷ 6 ∷ 7 ∷ []) (table_number table) ≡ true }
        ensures { result ≡ first_ready (table_number table) (λ port. ready_in floor_machines (table_number table) port self.now) (numbers_from 1 self.now.ports) }
    {
        for place in 0..self.port_count() {
            let number = place as u64 + 1;
            if let Some(row) = self.port_row(table, number) {
                return Some(Firing::of(table, number, row));
            }
        }
        None
    }

    // The row of table 8 or 9 that is ready at the first carrier at which one is.
    pub(crate) fn ready_carrier(&self, table: Table) -> Option<Firing>
        requires { is_one_of (8 ∷ 9 ∷ []) (table_number table) ≡ true }
        ensures { result ≡ first_ready (table_number table) (λ carrier. ready_in floor_machines (table_number table) carrier self.now) (map number_of self.now.carriers) }
    {
        for place in 0..self.carrier_count() {
            if let Some(carrier) = self.carrier(place) {
                if let Some(row) = carrier_row(table, carrier) {
                    return Some(Firing::of(table, carrier.number, row));
                }
            }
        }
        None
    }
}
