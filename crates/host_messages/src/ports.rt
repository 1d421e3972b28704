//! The rows of actions on carriers and ports that are accepted (SEMI E87, S3F17, S3F25 and S3F27), by the shop floor before the
//! message.
ghost use Rattle.std.specs.Prelude.{◌≡◌, ◌≤◌, length, IfOk};
ghost use Rattle.shop_floor.specs.Floor.{numbers_from};
ghost use Rattle.shop_floor.specs.Requests.{carrier_rows, port_rows, at_ports, mode_row, or_all};

use crate::rows::Rows;
use arrayvec::ArrayVec;
use carrier::CarrierAction;
use gem_tables::{Firing, Table};
use load_port::PortAction;
use plant_parts::{at_ports, mode_row};
use shop_floor::ShopFloor;
use std::alloc::{AllocError, Global};

/// The direct rows of an action on a carrier that is accepted. `AllocError`: there is no memory for those behind the first.
pub fn accepted_carrier_rows(
    shop: &ShopFloor,
    alloc: Global,
    action: &CarrierAction,
) -> Result<Rows, AllocError>
    ensures { IfOk result (λ rows. rows ≡ carrier_rows action.now shop.now) }
{
    Rows::of(alloc, shop.carrier_rows(action).as_slice())
}

// The numbers of the ports.
fn port_numbers(shop: &ShopFloor) -> ArrayVec<u8, 4>
    ensures { result.items ≡ numbers_from 1 shop.now.ports }
{
    let mut numbers = ArrayVec::from([1, 2, 3, 4]);
    numbers.truncate(port_count(shop));
    numbers
}

// How many ports there are.
fn port_count(shop: &ShopFloor) -> usize
    ensures count { result ≡ length shop.now.ports }
    ensures few { result ≤ 4 }
{
    shop.port_count()
}

// The rows by which the access mode of these ports changes, or that of all where there is none.
fn access_rows(
    shop: &ShopFloor,
    alloc: Global,
    mode: u8,
    ports: &[u8],
) -> Result<Vec<Firing>, AllocError>
    ensures { IfOk result (λ rows. rows.items ≡ at_ports 5 (mode_row mode) (or_all ports.now shop.now)) }
{
    if ports.is_empty() {
        let numbers = port_numbers(shop);
        at_ports(alloc, Table::Access, mode_row(mode), numbers.as_slice())
    } else {
        at_ports(alloc, Table::Access, mode_row(mode), ports)
    }
}

// The rows of an action on ports that is accepted.
fn listed_rows(
    shop: &ShopFloor,
    alloc: Global,
    action: &PortAction,
) -> Result<Vec<Firing>, AllocError>
    ensures { IfOk result (λ rows. rows.items ≡ port_rows action.now shop.now) }
{
    match action {
        PortAction::Reserve(port) => at_ports(alloc, Table::Reservation, 1, &[*port]),
        PortAction::CancelReserve(port) => at_ports(alloc, Table::Reservation, 2, &[*port]),
        PortAction::Access(mode, ports) => access_rows(shop, alloc, *mode, ports.as_slice()),
        PortAction::Unknown => Ok(Vec::new(alloc)),
    }
}

/// The direct rows of an action on ports that is accepted. `AllocError`: there is no memory for them.
pub fn accepted_port_rows(
    shop: &ShopFloor,
    alloc: Global,
    action: &PortAction,
) -> Result<Rows, AllocError>
    ensures { IfOk result (λ rows. rows ≡ port_rows action.now shop.now) }
{
    let rows = listed_rows(shop, alloc, action)?;
    Ok(Rows::from_vec(rows))
}
