//! What the equipment tells of the load ports (SEMI E87) and of the modules (this tool's profile, moves).

ghost use Rattle.std.specs.Prelude.{◌≡◌, OnOk, true, false};
ghost use Rattle.gem_tables.specs.Names.{table_number};
ghost use Rattle.gem_tables.specs.Table.{firing};
ghost use Rattle.shop_floor.specs.Requests.{at_port, removal};
ghost use Rattle.gem_model.specs.Fire.{fire_listed};
ghost use Rattle.robot_moves.specs.Modules.{is_open, is_up};
ghost use Rattle.floor_model.specs.Signals.{done_rows, closing_rows};
ghost use Rattle.gem_model.specs.Noting.{sets_alarm};
ghost use Rattle.gem_model.specs.Signals.{lacks_port, port_row_starts, port_alarm, with_arrival, placed, removed, module_of, module_alarm, module_done, module_failed, module_down, signalled};

use core_state::Plant;
use gem_ids::{CarrierId, CmdNo, ModuleId, PortNo};
use gem_rows::{UNEXPECTED_ANSWER, module_alarm, port_alarm};
use gem_tables::{Firing, Table};
use std::alloc::{AllocError, Global};
use tool_events::Signal;

// A row of a table at a port.
fn at_port(table: Table, row: u8, port: PortNo) -> Firing
    ensures { result ≡ firing (table_number table) port.0 row }
{
    Firing::of(table, u64::from(port.0), row)
}

/// Whether a row of a port's transfer starts there.
fn transfer_starts(plant: &Plant, row: u8, port: PortNo) -> bool
    ensures { result ≡ port_row_starts row port.0 plant.now }
{
    plant.row_starts(at_port(Table::Transfer, row, port))
}

/// A port doesn't expect what is told of it: its alarm is set.
fn unexpected(plant: &mut Plant, alloc: Global, port: PortNo) -> Result<(), AllocError>
    ensures { OnOk result (plant.new ≡ sets_alarm (port_alarm port.0) plant.old) }
{
    plant.set_alarm(alloc, port_alarm(port))
}

/// What came to a port that the tool has, which is READY TO LOAD, is written, and its row fires.
fn place_there(
    plant: &mut Plant,
    alloc: Global,
    port: PortNo,
    id: Option<CarrierId>,
    map: [u8; 25],
) -> Result<(), AllocError>
    requires { lacks_port port.0 plant.old ≡ false }
    ensures { OnOk result (plant.new ≡ fire_listed (at_port 4 3 port.0) (with_arrival port.0 id map plant.old)) }
{
    plant.write_arrival(port, id, map);
    plant.fire_listed(alloc, &[at_port(Table::Transfer, 3, port)])?;
    Ok(())
}

/// A carrier is placed at a port that the tool has: its rows fire where the port is READY TO LOAD, and else the port's alarm is
/// set.
fn place(
    plant: &mut Plant,
    alloc: Global,
    port: PortNo,
    id: Option<CarrierId>,
    map: [u8; 25],
) -> Result<(), AllocError>
    requires { lacks_port port.0 plant.old ≡ false }
    ensures { OnOk result (plant.new ≡ placed port.0 id map plant.old) }
{
    if !transfer_starts(plant, 3, port) {
        return unexpected(plant, alloc, port);
    }
    place_there(plant, alloc, port, id, map)
}

/// The rows of a removal fire, each where it starts.
fn remove_there(plant: &mut Plant, alloc: Global, port: PortNo) -> Result<(), AllocError>
    ensures { OnOk result (plant.new ≡ fire_listed (removal port.0) plant.old) }
{
    plant.fire_listed(
        alloc,
        &[
            at_port(Table::Transfer, 5, port),
            at_port(Table::Association, 6, port),
        ],
    )?;
    Ok(())
}

/// A carrier is removed from a port that the tool has: its rows fire where the port is READY TO UNLOAD, and else the port's
/// alarm is set.
fn remove(plant: &mut Plant, alloc: Global, port: PortNo) -> Result<(), AllocError>
    requires { lacks_port port.0 plant.old ≡ false }
    ensures { OnOk result (plant.new ≡ removed port.0 plant.old) }
{
    if !transfer_starts(plant, 5, port) {
        return unexpected(plant, alloc, port);
    }
    remove_there(plant, alloc, port)
}

// ---- modules

/// The rows of Done of the open command of a module fire.
fn finish(plant: &mut Plant, alloc: Global, m: ModuleId) -> Result<(), AllocError>
    ensures { OnOk result (plant.new ≡ fire_listed (done_rows m.0 plant.old.floor) plant.old) }
{
    let rows = plant.done_rows(m);
    plant.fire_listed(alloc, rows.as_slice())
}

/// A module did a command: the row of its task fires where the command is its open one, and else the alarm of the answer is set.
fn done(plant: &mut Plant, alloc: Global, m: ModuleId, n: CmdNo) -> Result<(), AllocError>
    ensures { OnOk result (plant.new ≡ module_done m.0 n.0 plant.old) }
{
    if !plant.is_open(m, n) {
        return plant.set_alarm(alloc, UNEXPECTED_ANSWER);
    }
    finish(plant, alloc, m)
}

/// The alarm of a module is set, and then it goes down by this row of the table of moves, 8 or 9.
fn take_down(plant: &mut Plant, alloc: Global, row: u8, m: ModuleId) -> Result<(), AllocError>
    ensures { OnOk result (plant.new ≡ fire_listed (closing_rows row m.0 plant.old.floor) (sets_alarm (module_alarm m.0) plant.old)) }
{
    let rows = plant.closing_rows(row, m);
    plant.set_alarm(alloc, module_alarm(m))?;
    plant.fire_listed(alloc, rows.as_slice())
}

/// A module failed at a command: its alarm is set and it goes down where the command is its open one, and else the alarm of the
/// answer is set.
fn fail(plant: &mut Plant, alloc: Global, m: ModuleId, n: CmdNo) -> Result<(), AllocError>
    ensures { OnOk result (plant.new ≡ module_failed m.0 n.0 plant.old) }
{
    if !plant.is_open(m, n) {
        return plant.set_alarm(alloc, UNEXPECTED_ANSWER);
    }
    take_down(plant, alloc, 8, m)
}

/// A module went down: its alarm is set, and it goes down, where it was not Down.
fn go_down(plant: &mut Plant, alloc: Global, m: ModuleId) -> Result<(), AllocError>
    ensures { OnOk result (plant.new ≡ module_down m.0 plant.old) }
{
    if !plant.is_module_up(m) {
        return Ok(());
    }
    take_down(plant, alloc, 9, m)
}

// ---- all of them

/// What the equipment tells: a carrier was placed at a port, or taken away from one; a module did a command, failed at one, or
/// went down. A signal of a port or a module that the tool lacks changes nothing (docs/profile/carriers.md and moves.md).
/// `AllocError`: memory ran out.
#[inline(never)]
pub fn signal(plant: &mut Plant, alloc: Global, told: &Signal) -> Result<(), AllocError>
    ensures { OnOk result (plant.new ≡ signalled told.now plant.old) }
{
    match told {
        Signal::Placed { port, id, map } => {
            if !plant.has_port(*port) {
                return Ok(());
            }
            place(plant, alloc, *port, *id, *map)
        }
        Signal::Removed(port) => {
            if !plant.has_port(*port) {
                return Ok(());
            }
            remove(plant, alloc, *port)
        }
        Signal::Done(m, n) => {
            if !plant.has_module(*m) {
                return Ok(());
            }
            done(plant, alloc, *m, *n)
        }
        Signal::Failed(m, n) => {
            if !plant.has_module(*m) {
                return Ok(());
            }
            fail(plant, alloc, *m, *n)
        }
        Signal::Down(m) => {
            if !plant.has_module(*m) {
                return Ok(());
            }
            go_down(plant, alloc, *m)
        }
    }
}
