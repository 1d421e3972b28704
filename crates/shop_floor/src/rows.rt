//! What the rows of tables 4 to 10 do (after SEMI E87; this tool's profile, tables 4 to 10). Each function has the ports, the
//! carriers and the number of the next carrier at hand, and its contract speaks of all of them together.

ghost use Rattle.std.specs.Prelude.{◌≡◌, ℕ, suc, ◌+◌, ◌≤◌, true, false, [], ◌∷◌, length, IsTrue, IsFalse, IfOk, IfErr};
ghost use Rattle.gem_tables.specs.Table.{firing, row_of, is_one_of};
ghost use Rattle.load_port.specs.Tables.{association_table};
ghost use Rattle.load_port.specs.Ports.{most_ports, port_numbered};
ghost use Rattle.carrier.specs.Carriers.{is_known, with_created, found_or_created, next_number, most_carriers};
ghost use Rattle.shop_floor.specs.Floor.{Floor, floor_of, last_number};
ghost use Rattle.shop_floor.specs.Rows.{binding, forgetting, forgets, arriving, without_owner, owner, arrival_at, is_new, found_does, found_creates, creation_of_arrival};
ghost use Rattle.shop_floor.specs.Machines.{floor_starts, floor_fired, creates, creation_rows};
ghost use Rattle.shop_floor.specs.Valid.{IsFloor};

use crate::asking::{arrival_at, directed, is_new_at, owner_at, port_no};
use arrayvec::ArrayVec;
use carrier::Carriers;
use gem_ids::CarrierId;
use gem_tables::{Firing, Table};
use load_port::Ports;
use std::alloc::AllocError;

/// The most rows of objects that one row creates: one, of a carrier.
pub const MOST_CREATED: usize = 1;

// ---- the carriers

// A carrier that isn't known is created with the next number. On want of memory nothing has changed: it comes where that is
// the last number alone, since no other follows it.
pub(crate) fn create(
    name: CarrierId,
    carriers: &mut Carriers,
    next: &mut u64,
) -> Result<(), AllocError>
    requires unknown { is_known name carriers.old ≡ false }
    requires room { suc (length carriers.old) ≤ most_carriers }
    ensures ok { IfOk result (λ _. carriers.new ≡ with_created next.old name carriers.old) }
    ensures counted { IfOk result (λ _. next.new ≡ next.old + 1) }
    ensures err { IfErr result (λ _. carriers.new ≡ carriers.old) }
    ensures uncounted { IfErr result (λ _. next.new ≡ next.old) }
    ensures used_up { IfErr result (λ _. next.old ≡ last_number) }
{
    if *next == u64::MAX {
        return Err(AllocError);
    }
    match carriers.create(*next, name) {
        Ok(()) => {
            *next += 1;
            Ok(())
        }
        Err(_) => unreachable!(),
    }
}

// The carrier of a name is created with the next number where it isn't known. On want of memory nothing has changed.
pub(crate) fn find_or_create(
    name: CarrierId,
    carriers: &mut Carriers,
    next: &mut u64,
) -> Result<(), AllocError>
    requires room { is_known name carriers.old ≡ false → suc (length carriers.old) ≤ most_carriers }
    ensures ok { IfOk result (λ _. carriers.new ≡ found_or_created next.old name carriers.old) }
    ensures counted { IfOk result (λ _. next.new ≡ next_number next.old name carriers.old) }
    ensures err { IfErr result (λ _. carriers.new ≡ carriers.old) }
    ensures uncounted { IfErr result (λ _. next.new ≡ next.old) }
    ensures needed { IfErr result (λ _. is_known name carriers.old ≡ false) }
    ensures used_up { IfErr result (λ _. next.old ≡ last_number) }
{
    if carriers.is_known(name.text()) {
        return Ok(());
    }
    create(name, carriers, next)
}

// The carrier of a name, where there is one, is forgotten.
fn forget(name: Option<CarrierId>, carriers: &mut Carriers)
    ensures { carriers.new ≡ forgets name carriers.old }
{
    if let Some(name) = name {
        carriers.forget(name);
    }
}

// ---- table 7

// Row 1: the carrier that was directed to the port of a number belongs to it, and is bound to it.
fn bind(port: u64, ports: &mut Ports, carriers: &mut Carriers)
    requires { port ≤ most_ports }
    ensures { (next : ℕ) → floor_of ports.new carriers.new next ≡ binding port (floor_of ports.old carriers.old next) }
{
    let name = match directed(port_no(port), carriers) {
        Some(carrier) => carrier.name,
        None => return,
    };
    ports.own(port, Some(name));
    carriers.bind(name);
}

// Rows 2 and 6: the carrier of the port of a number is forgotten.
fn forget_owner(port: u64, ports: &mut Ports, carriers: &mut Carriers)
    ensures { (next : ℕ) → floor_of ports.new carriers.new next ≡ forgetting port (floor_of ports.old carriers.old next) }
{
    let owner = owner_at(port, ports);
    ports.own(port, None);
    forget(owner, carriers);
}

// Rows 3 and 5: what came to the port of a number belongs to it, and is present there with its map. On want of memory nothing
// has changed; it is wanted where what came isn't known.
fn arrive(
    port: u64,
    ports: &mut Ports,
    carriers: &mut Carriers,
    next: &mut u64,
) -> Result<(), AllocError>
    requires there { port ≤ most_ports }
    requires room { is_new (arrival_at (port_numbered port ports.old)) carriers.old ≡ true → suc (length carriers.old) ≤ most_carriers }
    ensures ok { IfOk result (λ _. floor_of ports.new carriers.new next.new ≡ arriving port (floor_of ports.old carriers.old next.old)) }
    ensures err { IfErr result (λ _. floor_of ports.new carriers.new next.new ≡ floor_of ports.old carriers.old next.old) }
    ensures needed { IfErr result (λ _. is_new (arrival_at (port_numbered port ports.old)) carriers.old ≡ true) }
    ensures used_up { IfErr result (λ _. next.old ≡ last_number) }
{
    match arrival_at(port, ports) {
        Some(arrival) => {
            match find_or_create(arrival.name, carriers, next) {
                Ok(()) => {}
                Err(fault) => return Err(fault),
            }
            ports.settle(port, arrival.name);
            carriers.come(arrival.name, port_no(port), arrival.is_read, arrival.map);
            Ok(())
        }
        None => Ok(()),
    }
}

// Row 4: what came to the port of a number belongs to it, and the carrier that did is forgotten.
fn replace(
    port: u64,
    ports: &mut Ports,
    carriers: &mut Carriers,
    next: &mut u64,
) -> Result<(), AllocError>
    requires there { port ≤ most_ports }
    requires room { suc (length (forgets (owner (port_numbered port ports.old)) carriers.old)) ≤ most_carriers }
    ensures ok { IfOk result (λ _. floor_of ports.new carriers.new next.new ≡ arriving port (without_owner port (floor_of ports.old carriers.old next.old))) }
    ensures needed { IfErr result (λ _. is_new (arrival_at (port_numbered port ports.old)) (forgets (owner (port_numbered port ports.old)) carriers.old) ≡ true) }
    ensures used_up { IfErr result (λ _. next.old ≡ last_number) }
{
    forget(owner_at(port, ports), carriers);
    arrive(port, ports, carriers, next)
}

// What a row of table 7 does besides the state of its port.
fn associate(
    row: u8,
    port: u64,
    ports: &mut Ports,
    carriers: &mut Carriers,
    next: &mut u64,
) -> Result<(), AllocError>
    requires valid { IsFloor (floor_of ports.old carriers.old next.old) }
    requires starts { floor_starts (firing 7 port row) (floor_of ports.old carriers.old next.old) ≡ true }
    ensures ok { IfOk result (λ _. floor_of ports.new carriers.new next.new ≡ found_does (row_of association_table row) port (floor_of ports.old carriers.old next.old)) }
    ensures needed { IfErr result (λ _. creates (firing 7 port row) (floor_of ports.old carriers.old next.old) ≡ true) }
    ensures used_up { IfErr result (λ _. next.old ≡ last_number) }
{
    match row {
        1 => bind(port, ports, carriers),
        2 | 6 => forget_owner(port, ports, carriers),
        3 | 5 => return arrive(port, ports, carriers, next),
        4 => return replace(port, ports, carriers, next),
        7 => ports.own(port, None),
        _ => {}
    }
    Ok(())
}

// ---- creation

// The rows of the carrier that a row creates, asked before it fires.
pub(crate) fn creations(
    x: Firing,
    ports: &Ports,
    carriers: &Carriers,
    next: u64,
) -> ArrayVec<Firing, MOST_CREATED>
    ensures { result.items ≡ creation_rows x (floor_of ports.now carriers.now next) }
{
    let mut rows = ArrayVec::new();
    if x.row.is_of(Table::Association)
        && is_arrival_row(x.row.row)
        && is_new_at(x.object, ports, carriers)
    {
        rows.push(Firing::of(Table::CarrierId, next, 1));
    }
    rows
}

// Whether it is a row of table 7 that lets a carrier come.
fn is_arrival_row(row: u8) -> bool
    ensures yes { IsTrue result → (port : ℕ) (f : Floor) → found_creates (row_of association_table row) port f ≡ creation_of_arrival (arrival_at (port_numbered port f.ports)) f }
    ensures no { IsFalse result → (port : ℕ) (f : Floor) → found_creates (row_of association_table row) port f ≡ [] }
{
    row == 3 || row == 4 || row == 5
}

// ---- all tables

// Whether a row creates a carrier for which no number is left.
#[tactic(auto, using(crate::proofs::Comes::some_row))]
fn lacks_number(x: Firing, ports: &Ports, carriers: &Carriers, next: u64) -> bool
    ensures yes { IsTrue result → creates x (floor_of ports.now carriers.now next) ≡ true }
    ensures no { IsFalse result → creates x (floor_of ports.now carriers.now next) ≡ true → suc next ≤ last_number }
{
    if next != u64::MAX {
        return false;
    }
    !creations(x, ports, carriers, next).is_empty()
}

// A row fires that starts. On want of memory nothing has changed: it comes where the row creates a carrier for which no number
// is left.
pub(crate) fn fire(
    x: Firing,
    ports: &mut Ports,
    carriers: &mut Carriers,
    next: &mut u64,
) -> Result<(), AllocError>
    requires valid { IsFloor (floor_of ports.old carriers.old next.old) }
    requires starts { floor_starts x (floor_of ports.old carriers.old next.old) ≡ true }
    ensures ok { IfOk result (λ _. floor_of ports.new carriers.new next.new ≡ floor_fired x (floor_of ports.old carriers.old next.old)) }
    ensures err { IfErr result (λ _. floor_of ports.new carriers.new next.new ≡ floor_of ports.old carriers.old next.old) }
    ensures needed { IfErr result (λ _. creates x (floor_of ports.old carriers.old next.old) ≡ true) }
{
    if lacks_number(x, ports, carriers, *next) {
        return Err(AllocError);
    }
    if x.row.is_of(Table::Association) {
        match associate(x.row.row, x.object, ports, carriers, next) {
            Ok(()) => {}
            Err(_) => unreachable!(),
        }
        ports.fire(x.object, x.row.table, x.row.row);
    } else if is_of_port(x.row.table) {
        ports.fire(x.object, x.row.table, x.row.row);
    } else if is_of_carrier(x.row.table) {
        carriers.fire(x.object, x.row.table, x.row.row);
    }
    Ok(())
}

// Whether it is a table of the ports.
fn is_of_port(table: u8) -> bool
    ensures { result ≡ is_one_of (4 ∷ 5 ∷ 6 ∷ 7 ∷ []) table }
{
    matches!(
        Table::of(table),
        Some(Table::Transfer | Table::Access | Table::Reservation | Table::Association)
    )
}

// Whether it is a table of the carriers.
fn is_of_carrier(table: u8) -> bool
    ensures { result ≡ is_one_of (8 ∷ 9 ∷ 10 ∷ []) table }
{
    matches!(
        Table::of(table),
        Some(Table::CarrierId | Table::SlotMap | Table::Accessing)
    )
}
