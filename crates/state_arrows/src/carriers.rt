//! Tables 8 to 10: carriers.

ghost use Rattle.std.specs.Prelude.{◌≡◌, true, IfOk};
ghost use Rattle.gem_tables.specs.Table.{starts, after};
ghost use Rattle.carrier.specs.Tables.{id_number, id_table, map_number, map_table, access_number, accessing_table};
ghost use Rattle.state_arrows.specs.Arrows.{answered, are_same, are_apart};
ghost use Rattle.state_arrows.specs.Tables.{carrier_id_arrows, slot_map_arrows, accessing_arrows};

use crate::arrow::{Arrow, arrow_where, creation};
use crate::asked::Asked;
use crate::gathered::gather;
use carrier::{Accessing, CarrierRecord, IdState, MapState};
use gem_tables::Table;
use std::alloc::{AllocError, Global};

impl Asked for IdState {
    ghost answer = { λ row s. answered id_number (starts id_number id_table) (after id_number id_table) row s };

    fn ask(&self, row: u8) -> Option<Arrow> {
        let mut end = CarrierRecord::new();
        end.id = *self;
        let starts = end.fire(Table::CarrierId.number(), row);
        arrow_where(starts, row, self.number(), end.id.number())
    }
}

impl Asked for MapState {
    ghost answer = { λ row s. answered map_number (starts map_number map_table) (after map_number map_table) row s };

    fn ask(&self, row: u8) -> Option<Arrow> {
        let mut end = CarrierRecord::new();
        end.map = *self;
        let starts = end.fire(Table::SlotMap.number(), row);
        arrow_where(starts, row, self.number(), end.map.number())
    }
}

impl Asked for Accessing {
    ghost answer = { λ row s. answered access_number (starts access_number accessing_table) (after access_number accessing_table) row s };

    fn ask(&self, row: u8) -> Option<Arrow> {
        let mut end = CarrierRecord::new();
        end.access = *self;
        let starts = end.fire(Table::Accessing.number(), row);
        arrow_where(starts, row, self.number(), end.access.number())
    }
}

/// The arrows of table 8, with that of the row that creates a carrier.
pub(crate) fn carrier_id(alloc: Global) -> Result<Vec<Arrow>, AllocError>
    ensures same { IfOk result (λ arrows. are_same arrows.items carrier_id_arrows ≡ true) }
    ensures once { IfOk result (λ arrows. are_apart arrows.items ≡ true) }
{
    let states = [
        IdState::NotRead,
        IdState::WaitingForHost,
        IdState::Verified,
        IdState::VerificationFailed,
    ];
    gather(
        alloc,
        creation(CarrierRecord::new().id.number()),
        5,
        &states,
    )
}

/// The arrows of table 9.
pub(crate) fn slot_map(alloc: Global) -> Result<Vec<Arrow>, AllocError>
    ensures same { IfOk result (λ arrows. are_same arrows.items slot_map_arrows ≡ true) }
    ensures once { IfOk result (λ arrows. are_apart arrows.items ≡ true) }
{
    let states = [
        MapState::NotRead,
        MapState::WaitingForHost,
        MapState::Verified,
        MapState::VerificationFailed,
    ];
    gather(alloc, None, 4, &states)
}

/// The arrows of table 10.
pub(crate) fn accessing(alloc: Global) -> Result<Vec<Arrow>, AllocError>
    ensures same { IfOk result (λ arrows. are_same arrows.items accessing_arrows ≡ true) }
    ensures once { IfOk result (λ arrows. are_apart arrows.items ≡ true) }
{
    let states = [
        Accessing::NotAccessed,
        Accessing::InAccess,
        Accessing::Complete,
        Accessing::Stopped,
    ];
    gather(alloc, None, 4, &states)
}
