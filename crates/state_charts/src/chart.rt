//! The pictures by their names.

ghost use Rattle.std.specs.Prelude.{◌≡◌, true, IfOk};
ghost use Rattle.picture_svg.specs.Arrows.{arrows_in};
ghost use Rattle.state_arrows.specs.Arrows.{are_same, are_apart};
ghost use Rattle.state_charts.specs.Shown.{AreNamesOf, arrows_of_chart};

use crate::draw::draw;
use crate::layout::Layout;
use crate::{layouts, table_three};
use state_arrows::{Arrow, StateTable, arrows};
use std::alloc::{AllocError, Global};

/// A picture: of one of the tables whose rows lead from state to state; of how the spool fills and how it is emptied; or of what becomes of
/// a note (table 3).
#[derive(Clone, Copy, PartialEq, Eq)]
pub enum Chart {
    Table(StateTable),
    SpoolLoad,
    SpoolUnload,
    Notes,
}

// The names of the pictures, in the order of their tables.
const NAMES: [(&str, Chart); 18] = [
    ("communication", Chart::Table(StateTable::Communication)),
    ("control", Chart::Table(StateTable::Control)),
    ("spool_load", Chart::SpoolLoad),
    ("spool_unload", Chart::SpoolUnload),
    ("notes", Chart::Notes),
    ("transfer", Chart::Table(StateTable::Transfer)),
    ("access", Chart::Table(StateTable::Access)),
    ("reservation", Chart::Table(StateTable::Reservation)),
    ("association", Chart::Table(StateTable::Association)),
    ("carrier_id", Chart::Table(StateTable::CarrierId)),
    ("slot_map", Chart::Table(StateTable::SlotMap)),
    ("accessing", Chart::Table(StateTable::Accessing)),
    ("location", Chart::Table(StateTable::Location)),
    ("transport", Chart::Table(StateTable::Transport)),
    ("processing", Chart::Table(StateTable::Processing)),
    ("process_job", Chart::Table(StateTable::ProcessJob)),
    ("control_job", Chart::Table(StateTable::ControlJob)),
    ("module", Chart::Table(StateTable::Module)),
];

/// The pictures with their names, in the order of their tables.
pub fn names() -> &'static [(&'static str, Chart)] {
    &NAMES
}

/// The picture of a name: `communication`, `control`, `spool_load`, `spool_unload`, `notes`, `transfer`, `access`, `reservation`,
/// `association`, `carrier_id`, `slot_map`, `accessing`, `location`, `transport`, `processing`, `process_job`, `control_job` or `module`.
/// `None` where there is none of this name.
pub fn chart_named(name: &str) -> Option<Chart> {
    for (known, chart) in NAMES.iter() {
        if *known == name {
            return Some(*chart);
        }
    }
    None
}

// The layout of a table.
fn table_layout(table: StateTable) -> Layout {
    match table {
        StateTable::Communication => layouts::COMMUNICATION,
        StateTable::Control => layouts::CONTROL,
        StateTable::Transfer => layouts::TRANSFER,
        StateTable::Access => layouts::ACCESS,
        StateTable::Reservation => layouts::RESERVATION,
        StateTable::Association => layouts::ASSOCIATION,
        StateTable::CarrierId => layouts::CARRIER_ID,
        StateTable::SlotMap => layouts::SLOT_MAP,
        StateTable::Accessing => layouts::ACCESSING,
        StateTable::Location => layouts::LOCATION,
        StateTable::Transport => layouts::TRANSPORT,
        StateTable::Processing => layouts::PROCESSING,
        StateTable::ProcessJob => layouts::PROCESS_JOB,
        StateTable::ControlJob => layouts::CONTROL_JOB,
        StateTable::Module => layouts::MODULE,
    }
}

// The layout of a picture.
fn layout_of(chart: Chart) -> Layout {
    match chart {
        Chart::Table(table) => table_layout(table),
        Chart::SpoolLoad => layouts::SPOOL_LOAD,
        Chart::SpoolUnload => layouts::SPOOL_UNLOAD,
        Chart::Notes => layouts::NOTES,
    }
}

// The arrows of a picture.
fn chart_arrows(alloc: Global, chart: Chart) -> Result<Vec<Arrow>, AllocError>
    ensures same { IfOk result (λ arrows. are_same arrows.items (arrows_of_chart chart) ≡ true) }
    ensures once { IfOk result (λ arrows. are_apart arrows.items ≡ true) }
{
    match chart {
        Chart::Table(table) => arrows(alloc, table),
        Chart::SpoolLoad => table_three::spool_load(alloc),
        Chart::SpoolUnload => table_three::spool_unload(alloc),
        Chart::Notes => table_three::notes(alloc),
    }
}

/// The picture as SVG text. Each arrow of its table is drawn in it once, under its name (docs/profile/charts.md), and no other is. Of
/// arrows that start in each state of a frame, or have the same ends, the line of the first is seen. `AllocError` where there is no memory.
pub fn draw_chart(alloc: Global, chart: Chart) -> Result<Vec<u8>, AllocError>
    ensures { IfOk result (λ text. AreNamesOf (arrows_of_chart chart) (arrows_in text.items)) }
{
    let arrows = chart_arrows(alloc, chart)?;
    draw(alloc, &layout_of(chart), &arrows)
}
