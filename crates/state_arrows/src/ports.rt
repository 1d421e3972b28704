//! Tables 4 to 7: load ports.

ghost use Rattle.std.specs.Prelude.{◌≡◌, true, IfOk};
ghost use Rattle.gem_tables.specs.Table.{starts, after};
ghost use Rattle.load_port.specs.Tables.{transfer_number, transfer_table, access_number, access_table, reservation_number, reservation_table, association_number, association_table};
ghost use Rattle.state_arrows.specs.Arrows.{answered, are_same, are_apart};
ghost use Rattle.state_arrows.specs.Tables.{transfer_arrows, access_arrows, reservation_arrows, association_arrows};

use crate::arrow::{Arrow, arrow_where};
use crate::asked::Asked;
use crate::gathered::gather;
use gem_tables::Table;
use load_port::{Access, Association, PortRecord, Reservation, Transfer};
use std::alloc::{AllocError, Global};

impl Asked for Transfer {
    ghost answer = { λ row s. answered transfer_number (starts transfer_number transfer_table) (after transfer_number transfer_table) row s };

    fn ask(&self, row: u8) -> Option<Arrow> {
        let mut end = PortRecord::new();
        end.transfer = *self;
        let starts = end.fire(Table::Transfer.number(), row);
        arrow_where(starts, row, self.number(), end.transfer.number())
    }
}

impl Asked for Access {
    ghost answer = { λ row s. answered access_number (starts access_number access_table) (after access_number access_table) row s };

    fn ask(&self, row: u8) -> Option<Arrow> {
        let mut end = PortRecord::new();
        end.access = *self;
        let starts = end.fire(Table::Access.number(), row);
        arrow_where(starts, row, self.number(), end.access.number())
    }
}

impl Asked for Reservation {
    ghost answer = { λ row s. answered reservation_number (starts reservation_number reservation_table) (after reservation_number reservation_table) row s };

    fn ask(&self, row: u8) -> Option<Arrow> {
        let mut end = PortRecord::new();
        end.reservation = *self;
        let starts = end.fire(Table::Reservation.number(), row);
        arrow_where(starts, row, self.number(), end.reservation.number())
    }
}

impl Asked for Association {
    ghost answer = { λ row s. answered association_number (starts association_number association_table) (after association_number association_table) row s };

    fn ask(&self, row: u8) -> Option<Arrow> {
        let mut end = PortRecord::new();
        end.association = *self;
        let starts = end.fire(Table::Association.number(), row);
        arrow_where(starts, row, self.number(), end.association.number())
    }
}

/// The arrows of table 4.
pub(crate) fn transfer(alloc: Global) -> Result<Vec<Arrow>, AllocError>
    ensures same { IfOk result (λ arrows. are_same arrows.items transfer_arrows ≡ true) }
    ensures once { IfOk result (λ arrows. are_apart arrows.items ≡ true) }
{
    let states = [
        Transfer::OutOfService,
        Transfer::TransferBlocked,
        Transfer::ReadyToLoad,
        Transfer::ReadyToUnload,
    ];
    gather(alloc, None, 5, &states)
}

/// The arrows of table 5.
pub(crate) fn access(alloc: Global) -> Result<Vec<Arrow>, AllocError>
    ensures same { IfOk result (λ arrows. are_same arrows.items access_arrows ≡ true) }
    ensures once { IfOk result (λ arrows. are_apart arrows.items ≡ true) }
{
    gather(alloc, None, 2, &[Access::Manual, Access::Auto])
}

/// The arrows of table 6.
pub(crate) fn reservation(alloc: Global) -> Result<Vec<Arrow>, AllocError>
    ensures same { IfOk result (λ arrows. are_same arrows.items reservation_arrows ≡ true) }
    ensures once { IfOk result (λ arrows. are_apart arrows.items ≡ true) }
{
    gather(
        alloc,
        None,
        3,
        &[Reservation::NotReserved, Reservation::Reserved],
    )
}

/// The arrows of table 7.
pub(crate) fn association(alloc: Global) -> Result<Vec<Arrow>, AllocError>
    ensures same { IfOk result (λ arrows. are_same arrows.items association_arrows ≡ true) }
    ensures once { IfOk result (λ arrows. are_apart arrows.items ≡ true) }
{
    gather(
        alloc,
        None,
        7,
        &[Association::NotAssociated, Association::Associated],
    )
}
