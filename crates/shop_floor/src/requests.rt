//! What the host asks of a carrier (SEMI E87, S3F17; this tool's profile, S3F17 and direct rows).

ghost use Rattle.std.specs.Prelude.{◌≡◌, ℕ, suc, ◌+◌, ◌≤◌, false, [], ◌∷◌, ◌++◌, List, length, option_to_list, Some, IfOk, IfErr};
ghost use Rattle.gem_tables.specs.Names.{table_number};
ghost use Rattle.gem_tables.specs.Table.{firing};
ghost use Rattle.load_port.specs.declared.port.Port.{Port};
ghost use Rattle.carrier.specs.declared.action.CarrierWord.TheVariants.{Bind, Notify};
ghost use Rattle.carrier.specs.Carriers.{is_known, carrier_named, change_named, directed_to, found_or_created, next_number, most_carriers};
ghost use Rattle.shop_floor.specs.Floor.{floor_of};
ghost use Rattle.shop_floor.specs.Requests.{word_written, maps_told, carrier_rows, creation_of, port_or_none, port_number_of, unbinding, proceeding, cancelling};

use crate::rows::{create, find_or_create};
use arrayvec::ArrayVec;
use carrier::{Carrier, CarrierAction, CarrierWord, Carriers};
use gem_ids::{CarrierId, PortNo, Text80};
use gem_tables::{Firing, Table};
use std::alloc::AllocError;

// ---- what is written

// What an action writes on the carrier of a name that fits. On want of memory nothing has changed.
pub(crate) fn write(
    a: &CarrierAction,
    id: CarrierId,
    carriers: &mut Carriers,
    next: &mut u64,
) -> Result<(), AllocError>
    requires name { id ≡ a.now.id }
    requires bind { a.now.word ≡ Bind → is_known a.now.id carriers.old ≡ false → suc (length carriers.old) ≤ most_carriers }
    requires unknown { a.now.word ≡ Notify → is_known a.now.id carriers.old ≡ false }
    requires notify { a.now.word ≡ Notify → suc (length carriers.old) ≤ most_carriers }
    ensures ok { (ports : List Port) → IfOk result (λ _. floor_of ports carriers.new next.new ≡ word_written a.now.word a.now (floor_of ports carriers.old next.old)) }
    ensures err { (ports : List Port) → IfErr result (λ _. floor_of ports carriers.new next.new ≡ floor_of ports carriers.old next.old) }
    ensures needed { IfErr result (λ _. is_known a.now.id carriers.old ≡ false) }
{
    match a.word {
        CarrierWord::Bind => return bind(id, PortNo(a.port), carriers, next),
        CarrierWord::Notify => return create(id, carriers, next),
        CarrierWord::CancelNotify => carriers.forget(id),
        CarrierWord::Proceed => tell(id, a.map, carriers),
        CarrierWord::CancelBind | CarrierWord::Cancel | CarrierWord::Unknown => {}
    }
    Ok(())
}

// Bind makes the carrier known, and directs it to its port.
fn bind(
    id: CarrierId,
    port: PortNo,
    carriers: &mut Carriers,
    next: &mut u64,
) -> Result<(), AllocError>
    requires room { is_known id carriers.old ≡ false → suc (length carriers.old) ≤ most_carriers }
    ensures ok { IfOk result (λ _. carriers.new ≡ change_named id (directed_to port.0) (found_or_created next.old id carriers.old)) }
    ensures counted { IfOk result (λ _. next.new ≡ next_number next.old id carriers.old) }
    ensures err { IfErr result (λ _. carriers.new ≡ carriers.old) }
    ensures uncounted { IfErr result (λ _. next.new ≡ next.old) }
    ensures needed { IfErr result (λ _. is_known id carriers.old ≡ false) }
{
    match find_or_create(id, carriers, next) {
        Ok(()) => {}
        Err(fault) => return Err(fault),
    }
    carriers.direct(id, port);
    Ok(())
}

// ProceedWithCarrier tells the map that is given.
fn tell(id: CarrierId, map: Option<[u8; 25]>, carriers: &mut Carriers)
    ensures { carriers.new ≡ maps_told map id carriers.old }
{
    if let Some(slots) = map {
        carriers.tell_map(id, slots);
    }
}

// ---- the rows that it fires

// The rows of an action that can be done, in their order, where the next carrier gets this number.
pub(crate) fn carrier_rows(a: &CarrierAction, carriers: &Carriers, next: u64) -> ArrayVec<Firing, 3>
    ensures { (ports : List Port) → result.items ≡ carrier_rows a.now (floor_of ports carriers.now next) }
{
    match a.word {
        CarrierWord::Bind => listed(
            creation_of(a.id, carriers, next),
            Some(at_port(Table::Reservation, 1, a.port)),
            Some(at_port(Table::Association, 1, a.port)),
        ),
        CarrierWord::CancelBind => unbinding(port_number_of(a.id, carriers)),
        CarrierWord::Proceed => listed(None, None, proceeding(a.id, carriers)),
        CarrierWord::Cancel => listed(None, None, cancelling(a.id, carriers)),
        CarrierWord::Notify => listed(None, None, creation_of(a.id, carriers, next)),
        CarrierWord::CancelNotify | CarrierWord::Unknown => ArrayVec::new(),
    }
}

// These rows, as far as they are there, in their order.
fn listed(
    first: Option<Firing>,
    second: Option<Firing>,
    third: Option<Firing>,
) -> ArrayVec<Firing, 3>
    ensures { result.items ≡ option_to_list first ++ (option_to_list second ++ option_to_list third) }
{
    let mut rows = ArrayVec::new();
    if let Some(row) = first {
        rows.push(row);
    }
    if let Some(row) = second {
        rows.push(row);
    }
    if let Some(row) = third {
        rows.push(row);
    }
    rows
}

// A row of a table at the port of this number.
fn at_port(table: Table, row: u8, port: u8) -> Firing
    ensures { result ≡ firing (table_number table) port row }
{
    Firing::of(table, port as u64, row)
}

// The row that creates the carrier of a name with this number, where it isn't known.
fn creation_of(name: Text80, carriers: &Carriers, next: u64) -> Option<Firing>
    ensures { (ports : List Port) → option_to_list result ≡ creation_of name (floor_of ports carriers.now next) }
{
    if carriers.is_known(name) {
        return None;
    }
    Some(Firing::of(Table::CarrierId, next, 1))
}

// The number of the port of the carrier of a name, 0 for none.
fn port_number_of(name: Text80, carriers: &Carriers) -> u8
    ensures { result ≡ port_number_of (carrier_named name carriers.now) }
{
    match carriers.named(name) {
        Some(carrier) => port_or_none(carrier.port),
        None => 0,
    }
}

// The number of a port, 0 for none.
fn port_or_none(port: Option<PortNo>) -> u8
    ensures { result ≡ port_or_none port }
{
    match port {
        Some(number) => number.0,
        None => 0,
    }
}

// Rows 6.2 and 7.2 at the port of this number.
fn unbinding(port: u8) -> ArrayVec<Firing, 3>
    ensures { result.items ≡ unbinding port }
{
    listed(
        None,
        Some(at_port(Table::Reservation, 2, port)),
        Some(at_port(Table::Association, 2, port)),
    )
}

// The row of the carrier of a name that proceeds.
fn proceeding(name: Text80, carriers: &Carriers) -> Option<Firing>
    ensures { option_to_list result ≡ proceeding (carrier_named name carriers.now) }
{
    match carriers.named(name) {
        Some(carrier) => Some(proceeding_row(carrier)),
        None => None,
    }
}

// The row of a carrier that proceeds.
fn proceeding_row(carrier: &Carrier) -> Firing
    ensures { result ∷ [] ≡ proceeding (Some carrier.now) }
{
    if carrier.states.id.is_waiting() {
        Firing::of(Table::CarrierId, carrier.number, 4)
    } else {
        Firing::of(Table::SlotMap, carrier.number, 3)
    }
}

// The row of the carrier of a name that is cancelled.
fn cancelling(name: Text80, carriers: &Carriers) -> Option<Firing>
    ensures { option_to_list result ≡ cancelling (carrier_named name carriers.now) }
{
    match carriers.named(name) {
        Some(carrier) => Some(cancelling_row(carrier)),
        None => None,
    }
}

// The row of a carrier that is cancelled.
fn cancelling_row(carrier: &Carrier) -> Firing
    ensures { result ∷ [] ≡ cancelling (Some carrier.now) }
{
    if carrier.states.id.is_waiting() {
        Firing::of(Table::CarrierId, carrier.number, 5)
    } else if carrier.states.map.is_waiting() {
        Firing::of(Table::SlotMap, carrier.number, 4)
    } else {
        Firing::of(Table::Accessing, carrier.number, 4)
    }
}
