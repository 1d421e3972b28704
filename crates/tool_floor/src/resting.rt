//! The floor of the tool, with what is known of the rows of it that are ready by themselves.

ghost use Rattle.std.specs.Prelude.{◌≡◌, ◌==◌, ◌<◌, true, false, None, Some, is_some, Err, IfOk, IfErr, IfSome, IsTrue};
ghost use Rattle.gem_tables.specs.Names.{table_number};
ghost use Rattle.load_port.specs.Caack.{is_done_code};
ghost use Rattle.load_port.specs.Ports.{is_no_port};
ghost use Rattle.robot_moves.specs.Modules.{module_at, unfetched};
ghost use Rattle.shop_floor.specs.Requests.{carrier_written, came};
ghost use Rattle.process_job.specs.Creating.{create_fault as process_fault};
ghost use Rattle.process_job.specs.declared.fault.JobFault.{JobFault};
ghost use Rattle.process_job.specs.declared.fault.JobFault.TheVariants as process_faults;
ghost use Rattle.control_job.specs.Jobs.{waiting_named, headed};
ghost use Rattle.tool_jobs.specs.Creating.{with_process, with_control, control_fault};
ghost use Rattle.tool_jobs.specs.declared.fault.ControlFault.{ControlFault};
ghost use Rattle.tool_jobs.specs.declared.fault.ControlFault.TheVariants as control_faults;
ghost use Rattle.floor_model.specs.Floor.{with_shop, with_jobs, fetched};
ghost use Rattle.floor_model.specs.Machines.{floor_starts, floor_fired, floor_least, creation_rows};
ghost use Rattle.floor_model.specs.Jobs.{carrier_code};
ghost use Rattle.tool_floor.specs.Located.{leaves_places, is_of_shop};

use crate::floor::{AtRest, ToolFloor};
use carrier::CarrierAction;
use gem_ids::{JobId, ModuleId, PortNo};
use gem_tables::{Firing, RowId, Table};
use load_port::Arrival;
use process_job::{JobFault, JobSpec};
use std::alloc::{AllocError, Global};
use std::marker::Model;
use tool_jobs::ControlFault;
use tool_tasks::Command;

/// The floor of the tool for one who asks again and again which row is ready by itself: where none was, it is not looked again before
/// something changes, and the many locations, the substrates, and the load ports with the carriers are not asked before something of
/// them may have changed. Contracts see it as the floor. Each call is that of `ToolFloor`, which `floor` gives for what only reads.
#[derive(Drop)]
pub struct RestingFloor {
    floor: ToolFloor,
    rests: bool,
    locations_rest: bool,
    substrates_rest: bool,
    shop_rests: bool,
}

// Whether a row leaves which substrate has which place, and the states of the locations.
fn leaves_places(row: RowId) -> bool
    ensures { result ≡ leaves_places row.table row.row }
{
    match Table::of(row.table) {
        Some(Table::Association) => row.row != 6,
        Some(Table::SlotMap) => row.row != 1 && row.row != 3,
        Some(Table::Processing) => row.row != 8,
        Some(Table::Location | Table::Moves) => false,
        _ => true,
    }
}

// Whether a row changes the load ports and the carriers alone.
fn is_of_shop(row: RowId) -> bool
    ensures { result ≡ is_of_shop row.table row.row }
{
    match Table::of(row.table) {
        Some(Table::Association) => row.row != 6,
        Some(Table::SlotMap) => row.row != 1 && row.row != 3,
        Some(
            Table::Transfer
            | Table::Access
            | Table::Reservation
            | Table::CarrierId
            | Table::Accessing,
        ) => true,
        _ => false,
    }
}

// Whether a row changes the states of the locations alone.
fn is_of_locations(row: RowId) -> bool
    ensures { result ≡ (row.table == 11) }
{
    row.is_of(Table::Location)
}

// Whether the least row that is ready is of a later table than this one, or there is none.
fn is_past(table: Table, least: &Option<Firing>) -> bool
    ensures { IsTrue result → IfSome least.now (λ x. table_number table < x.row.table) }
{
    match least {
        Some(x) => table.number() < x.row.table,
        None => true,
    }
}

impl Model for RestingFloor {
    ghost use Rattle.floor_model.specs.Floor.{ToolFloor};
    ghost use Rattle.tool_floor.specs.Located.{AreKnown};

    ghost Value = { ToolFloor };

    ghost view = { λ r. r.floor };

    ghost invariant = { λ r. AreKnown r.rests r.locations_rest r.substrates_rest r.shop_rests r.floor };
}

impl RestingFloor {
    /// This floor, of which nothing is known yet.
    pub fn new(floor: ToolFloor) -> RestingFloor
        ensures { result ≡ floor }
    {
        RestingFloor {
            floor,
            rests: false,
            locations_rest: false,
            substrates_rest: false,
            shop_rests: false,
        }
    }

    /// The floor, to be read.
    pub fn floor(&self) -> &ToolFloor
        ensures { result.now ≡ self.now }
    {
        &self.floor
    }

    /// The least row that is ready by itself, as `ToolFloor::least` says. The floor stays.
    pub fn least(&mut self) -> Option<Firing>
        ensures least { result ≡ floor_least self.old }
        ensures unchanged { self.new ≡ self.old }
    {
        if self.rests {
            return None;
        }
        let least = self.floor.least_where(AtRest {
            locations: self.locations_rest,
            substrates: self.substrates_rest,
            shop: self.shop_rests,
        });
        self.locations_rest = self.locations_rest || is_past(Table::Location, &least);
        self.substrates_rest = self.substrates_rest || is_past(Table::Processing, &least);
        self.shop_rests = self.shop_rests || is_past(Table::Accessing, &least);
        self.rests = least.is_none();
        least
    }

    /// A row fires that starts, as `ToolFloor::fire` says. `AllocError`: there is no memory for what it creates, or the last number was
    /// given; but for a row of the slot map, nothing has changed.
    pub fn fire(&mut self, alloc: Global, x: Firing) -> Result<Vec<Firing>, AllocError>
        requires { floor_starts x self.old ≡ true }
        ensures ok { IfOk result (λ _. self.new ≡ floor_fired x self.old) }
        ensures follow { IfOk result (λ rows. rows.items ≡ creation_rows x self.old) }
        ensures err { (x.row.table == 9) ≡ false → IfErr result (λ _. self.new ≡ self.old) }
    {
        let locations_rest = self.locations_rest && leaves_places(x.row);
        let substrates_rest = self.substrates_rest && is_of_shop(x.row);
        let shop_rests = self.shop_rests && is_of_locations(x.row);
        self.rests = false;
        self.locations_rest = false;
        self.substrates_rest = false;
        self.shop_rests = false;
        let rows = self.floor.fire(alloc, x)?;
        self.locations_rest = locations_rest;
        self.substrates_rest = substrates_rest;
        self.shop_rests = shop_rests;
        Ok(rows)
    }

    /// What an action on a carrier writes that can be done, as `ToolFloor::write` says. `AllocError`: there is no memory for a carrier,
    /// or the last number was given; nothing has changed.
    pub fn write(&mut self, a: &CarrierAction) -> Result<(), AllocError>
        requires { is_done_code (carrier_code a.now self.old) ≡ true }
        ensures ok { IfOk result (λ _. self.new ≡ with_shop (carrier_written a.now self.old.shop) self.old) }
        ensures err { IfErr result (λ _. self.new ≡ self.old) }
    {
        self.rests = false;
        self.shop_rests = false;
        self.floor.write(a)
    }

    /// This came to a port, and isn't told of yet.
    pub fn come(&mut self, port: PortNo, arrival: Arrival)
        requires { is_no_port port.0 self.old.shop.ports ≡ false }
        ensures { self.new ≡ with_shop (came port.0 arrival self.old.shop) self.old }
    {
        self.rests = false;
        self.shop_rests = false;
        self.floor.come(port, arrival);
    }

    /// The open command of a module that was not fetched yet, as `ToolFloor::fetch` says.
    pub fn fetch(&mut self, m: ModuleId) -> Option<Command>
        ensures command { result ≡ unfetched (module_at m.0 self.old.modules) }
        ensures after { self.new ≡ fetched m.0 self.old }
    {
        self.rests = false;
        self.substrates_rest = false;
        self.shop_rests = false;
        self.floor.fetch(m)
    }

    /// Creates a process job that was asked for, as `ToolFloor::create_process` says.
    pub fn create_process(&mut self, job: JobSpec) -> Result<(), JobFault>
        ensures created { IfOk result (λ _. self.new ≡ with_jobs (with_process job self.old.jobs) self.old) }
        ensures unchanged { IfErr result (λ _. self.new ≡ self.old) }
        ensures refused { (fault : JobFault) → process_fault job self.old.jobs.process ≡ Some fault → result ≡ Err fault }
        ensures memory { process_fault job self.old.jobs.process ≡ None → IfErr result (λ fault. fault ≡ process_faults.NoMemory) }
    {
        self.rests = false;
        self.substrates_rest = false;
        self.shop_rests = false;
        self.floor.create_process(job)
    }

    /// Creates a control job of these process jobs, as `ToolFloor::create_control` says.
    pub fn create_control(
        &mut self,
        alloc: Global,
        id: JobId,
        jobs: &[JobId],
        auto: bool,
    ) -> Result<(), ControlFault>
        ensures created { IfOk result (λ _. self.new ≡ with_jobs (with_control id jobs.now auto self.old.jobs) self.old) }
        ensures unchanged { IfErr result (λ _. self.new ≡ self.old) }
        ensures refused { (fault : ControlFault) → control_fault id jobs.now self.old.jobs ≡ Some fault → result ≡ Err fault }
        ensures memory { control_fault id jobs.now self.old.jobs ≡ None → IfErr result (λ fault. fault ≡ control_faults.NoMemory) }
    {
        self.rests = false;
        self.substrates_rest = false;
        self.shop_rests = false;
        self.floor.create_control(alloc, id, jobs, auto)
    }

    /// The QUEUED control job of a name goes first in the queue, as `ToolFloor::head_of_queue` says.
    pub fn head_of_queue(&mut self, id: JobId) -> bool
        ensures queued { result ≡ is_some (waiting_named id self.old.jobs.control.jobs) }
        ensures headed { self.new ≡ with_jobs (record self.old.jobs { control = headed id self.old.jobs.control }) self.old }
    {
        self.rests = false;
        self.substrates_rest = false;
        self.shop_rests = false;
        self.floor.head_of_queue(id)
    }
}
