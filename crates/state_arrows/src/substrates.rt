//! Tables 11 to 13: locations and substrates; and table 16: modules.

ghost use Rattle.std.specs.Prelude.{◌≡◌, true, IfOk, Option, Some, None, if◌then◌else◌};
ghost use Rattle.gem_tables.specs.Table.{starts, after};
ghost use Rattle.substrate.specs.Tables.{occupancy_number, occupancy_table, transport_number, transport_table, processing_number, processing_table};
ghost use Rattle.robot_moves.specs.Tables.{state_number, move_table};
ghost use Rattle.state_arrows.specs.Arrows.{answered, are_same, are_apart};
ghost use Rattle.state_arrows.specs.Tables.{location_arrows, transport_arrows, processing_arrows, module_arrows};

use crate::arrow::{Arrow, arrow_where, creation};
use crate::asked::Asked;
use crate::gathered::gather;
use gem_tables::Table;
use robot_moves::ModuleState;
use std::alloc::{AllocError, Global};
use substrate::{LocationRecord, Occupancy, Processing, SubstrateRecord, Transport};

impl Asked for Occupancy {
    ghost answer = { λ row s. answered occupancy_number (starts occupancy_number occupancy_table) (after occupancy_number occupancy_table) row s };

    fn ask(&self, row: u8) -> Option<Arrow> {
        let mut end = LocationRecord { occupancy: *self };
        let starts = end.fire(row);
        arrow_where(starts, row, self.number(), end.occupancy.number())
    }
}

impl Asked for Transport {
    ghost answer = { λ row s. answered transport_number (starts transport_number transport_table) (after transport_number transport_table) row s };

    fn ask(&self, row: u8) -> Option<Arrow> {
        let mut end = SubstrateRecord::new();
        end.transport = *self;
        let starts = end.fire(Table::Transport.number(), row);
        arrow_where(starts, row, self.number(), end.transport.number())
    }
}

impl Asked for Processing {
    ghost answer = { λ row s. answered processing_number (starts processing_number processing_table) (after processing_number processing_table) row s };

    fn ask(&self, row: u8) -> Option<Arrow> {
        let mut end = SubstrateRecord::new();
        end.processing = *self;
        let starts = end.fire(Table::Processing.number(), row);
        arrow_where(starts, row, self.number(), end.processing.number())
    }
}

// The number of a module's state.
fn number_of(state: ModuleState) -> u8
    ensures { result ≡ state_number state }
{
    match state {
        ModuleState::Idle => 0,
        ModuleState::Busy => 1,
        ModuleState::Down => 2,
    }
}

// The state behind a row of table 16. `None` exactly where the row doesn't start in this one. What the code of modules does goes by this
// table too: a command is given by rows 1 to 4, Done is rows 5 to 7, Failed row 8, the signal Down row 9, and `up` row 10.
fn behind(state: ModuleState, row: u8) -> Option<ModuleState>
    ensures { result ≡ (if starts state_number move_table row state then Some (after state_number move_table row state) else None) }
{
    match (row, state) {
        (1..=4, ModuleState::Idle) => Some(ModuleState::Busy),
        (5..=7, ModuleState::Busy) => Some(ModuleState::Idle),
        (8, ModuleState::Busy) => Some(ModuleState::Down),
        (9, ModuleState::Idle | ModuleState::Busy) => Some(ModuleState::Down),
        (10, ModuleState::Down) => Some(ModuleState::Idle),
        _ => None,
    }
}

impl Asked for ModuleState {
    ghost answer = { λ row s. answered state_number (starts state_number move_table) (after state_number move_table) row s };

    fn ask(&self, row: u8) -> Option<Arrow> {
        match behind(*self, row) {
            Some(end) => arrow_where(true, row, number_of(*self), number_of(end)),
            None => None,
        }
    }
}

/// The arrows of table 11.
pub(crate) fn location(alloc: Global) -> Result<Vec<Arrow>, AllocError>
    ensures same { IfOk result (λ arrows. are_same arrows.items location_arrows ≡ true) }
    ensures once { IfOk result (λ arrows. are_apart arrows.items ≡ true) }
{
    gather(
        alloc,
        None,
        2,
        &[Occupancy::Unoccupied, Occupancy::Occupied],
    )
}

/// The arrows of table 12, with that of the row of a registration.
pub(crate) fn transport(alloc: Global) -> Result<Vec<Arrow>, AllocError>
    ensures same { IfOk result (λ arrows. are_same arrows.items transport_arrows ≡ true) }
    ensures once { IfOk result (λ arrows. are_apart arrows.items ≡ true) }
{
    let states = [
        Transport::AtSource,
        Transport::AtWork,
        Transport::AtDestination,
    ];
    gather(
        alloc,
        creation(SubstrateRecord::new().transport.number()),
        3,
        &states,
    )
}

/// The arrows of table 13, with that of the row of a registration.
pub(crate) fn processing(alloc: Global) -> Result<Vec<Arrow>, AllocError>
    ensures same { IfOk result (λ arrows. are_same arrows.items processing_arrows ≡ true) }
    ensures once { IfOk result (λ arrows. are_apart arrows.items ≡ true) }
{
    let states = [
        Processing::NeedsProcessing,
        Processing::InProcess,
        Processing::Processed,
        Processing::Aborted,
        Processing::Stopped,
        Processing::Rejected,
        Processing::Lost,
        Processing::Skipped,
    ];
    gather(
        alloc,
        creation(SubstrateRecord::new().processing.number()),
        8,
        &states,
    )
}

/// The arrows of table 16.
pub(crate) fn modules(alloc: Global) -> Result<Vec<Arrow>, AllocError>
    ensures same { IfOk result (λ arrows. are_same arrows.items module_arrows ≡ true) }
    ensures once { IfOk result (λ arrows. are_apart arrows.items ≡ true) }
{
    let states = [ModuleState::Idle, ModuleState::Busy, ModuleState::Down];
    gather(alloc, None, 10, &states)
}
