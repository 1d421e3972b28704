//! The tables, and their arrows.

ghost use Rattle.std.specs.Prelude.{◌≡◌, true, IfOk};
ghost use Rattle.state_arrows.specs.Arrows.{are_same, are_apart};
ghost use Rattle.state_arrows.specs.Tables.{arrows_of};

use crate::arrow::Arrow;
use crate::{carriers, jobs, link, ports, substrates};
use std::alloc::{AllocError, Global};

/// The transition tables whose rows lead from state to state: communication and control (tables 1 and 2), the states of a load port (4
/// to 7), of a carrier (8 to 10), of a location (11), of a substrate (12 and 13), of a process job (14) and of a control job (15), and
/// those of a module (16).
#[derive(Clone, Copy, PartialEq, Eq)]
pub enum StateTable {
    Communication,
    Control,
    Transfer,
    Access,
    Reservation,
    Association,
    CarrierId,
    SlotMap,
    Accessing,
    Location,
    Transport,
    Processing,
    ProcessJob,
    ControlJob,
    Module,
}

/// The arrows of a table. They are those of the table as it is printed: each of them is a row that starts in the state from which it comes
/// and leads where it leads, each row has one from each state in which it starts, and none stands twice. A row by which an object is created
/// comes from no state, and one with which a process job ends leads to none. States are told by their numbers, as variables print them;
/// those of a control job by the number of its state, and 6 more where it is ending by stop, 12 more where it is by abort. `AllocError`
/// where there is no memory.
pub fn arrows(alloc: Global, table: StateTable) -> Result<Vec<Arrow>, AllocError>
    ensures same { IfOk result (λ arrows. are_same arrows.items (arrows_of table) ≡ true) }
    ensures once { IfOk result (λ arrows. are_apart arrows.items ≡ true) }
{
    match table {
        StateTable::Communication => link::communication(alloc),
        StateTable::Control => link::control(alloc),
        StateTable::Transfer => ports::transfer(alloc),
        StateTable::Access => ports::access(alloc),
        StateTable::Reservation => ports::reservation(alloc),
        StateTable::Association => ports::association(alloc),
        StateTable::CarrierId => carriers::carrier_id(alloc),
        StateTable::SlotMap => carriers::slot_map(alloc),
        StateTable::Accessing => carriers::accessing(alloc),
        StateTable::Location => substrates::location(alloc),
        StateTable::Transport => substrates::transport(alloc),
        StateTable::Processing => substrates::processing(alloc),
        StateTable::ProcessJob => jobs::process_jobs(alloc),
        StateTable::ControlJob => jobs::control_jobs(alloc),
        StateTable::Module => substrates::modules(alloc),
    }
}
