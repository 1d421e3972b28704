//! Where the substrates are, and what the rows of carriers, locations and substrates want (this tool's profile, tables 10 to 13).

ghost use Rattle.std.specs.Prelude.{◌≡◌, ◌<◌, ◌&&◌, not, slice_get, Some, None};
ghost use Rattle.std.specs.List.{list_any};
ghost use Rattle.gem_tables.specs.Table.{row_of, wants_found};
ghost use Rattle.carrier.specs.Tables.{accessing_table};
ghost use Rattle.substrate.specs.Record.{is_needing};
ghost use Rattle.substrate.specs.Tables.{occupancy_table, transport_table, processing_table};
ghost use Rattle.floor_model.specs.Naming.{task_processes, processes};
ghost use Rattle.floor_model.specs.Substrates.{is_outside, is_in_slot, is_removed, is_of};
ghost use Rattle.floor_model.specs.Jobs.{is_stopping, is_aborting};
ghost use Rattle.floor_model.specs.Wants.{has_outside, is_back, are_back, is_quiet, accessing_wants, location_wants, is_skipped, is_between, is_outside_of, substrate_wants};
ghost use Rattle.tool_floor.specs.Due.{is_due_at};

use crate::floor::ToolFloor;
use carrier::Carrier;
use floor_model::Substrate;
use gem_ids::SubstrateId;
use gem_tables::{RowId, Table};
use robot_moves::Module;
use substrate::is_work_place;
use tool_tasks::Task;

// Whether a task processes the substrate of this name.
fn task_processes(sub: SubstrateId, task: &Task) -> bool
    ensures { result ≡ task_processes sub task.now }
{
    match task {
        Task::Process { sub: name, .. } => name.as_bytes() == sub.as_bytes(),
        _ => false,
    }
}

// Whether a module has an open command that does.
fn processes(sub: SubstrateId, module: &Module) -> bool
    ensures { result ≡ processes sub module.now }
{
    match module {
        Module::Busy { command, .. } => task_processes(sub, &command.task),
        _ => false,
    }
}

impl ToolFloor {
    // ---- of a substrate

    // Whether the substrate is at the aligner, on the arm or in a chamber.
    pub(crate) fn is_outside(&self, s: &Substrate) -> bool
        ensures { result ≡ is_outside s.now self.now.places }
    {
        // mostly it is in its slot, which is told without its name being looked up
        if !is_work_place(s.slot) && self.is_in_slot(s) {
            return false;
        }
        match self.places.find(s.sub) {
            Some(found) => is_work_place(found.at),
            None => false,
        }
    }

    // Whether it is in its slot.
    pub(crate) fn is_in_slot(&self, s: &Substrate) -> bool
        ensures { result ≡ is_in_slot s.now self.now.places }
    {
        // who is there is cheaper to ask than where it is, which takes a lookup of its name
        match self.places.name_at(s.slot) {
            Some(name) => name.as_bytes() == s.sub.as_bytes(),
            None => false,
        }
    }

    // Whether it has no place any more.
    pub(crate) fn is_removed(&self, s: &Substrate) -> bool
        ensures { result ≡ is_removed s.now self.now.places }
    {
        self.places.find(s.sub).is_none()
    }

    // Whether an open command of a module processes it.
    #[inline(never)]
    pub(crate) fn is_processed(&self, s: &Substrate) -> bool
        ensures { result ≡ list_any (processes s.now.sub) self.now.modules }
    {
        for place in 0..self.module_count() {
            if let Some(module) = self.module_at(place) {
                if processes(s.sub, &module) {
                    return true;
                }
            }
        }
        false
    }

    // Whether a task processes a substrate that NEEDS PROCESSING.
    fn is_task_due(&self, task: &Task) -> bool
        ensures { result ≡ list_any (λ s. is_needing s.states.processing && task_processes s.sub task.now) self.now.substrates }
    {
        match task {
            Task::Process { sub, .. } => self.substrates.needs_processing(*sub),
            _ => false,
        }
    }

    // Whether a module has an open command that does.
    fn is_module_due(&self, module: &Module) -> bool
        ensures { result ≡ list_any (λ s. is_needing s.states.processing && processes s.sub module.now) self.now.substrates }
    {
        match module {
            Module::Busy { command, .. } => self.is_task_due(&command.task),
            _ => false,
        }
    }

    // Whether the module of a place, counted from 0, has, where there is one.
    fn is_due_at(&self, place: usize) -> bool
        requires { place < 255 }
        ensures { result ≡ is_due_at (slice_get self.now.modules place) self.now.substrates }
    {
        // most are Idle, which is told without a copy of the module
        if self.is_idle_at(place) {
            return false;
        }
        self.is_told_due_at(place)
    }

    // The same, by a copy of the module.
    #[inline(never)]
    fn is_told_due_at(&self, place: usize) -> bool
        requires { place < 255 }
        ensures { result ≡ is_due_at (slice_get self.now.modules place) self.now.substrates }
    {
        match self.module_at(place) {
            Some(module) => self.is_module_due(&module),
            None => false,
        }
    }

    // Whether one of the modules has.
    pub(crate) fn is_any_due(&self) -> bool
        ensures { result ≡ list_any (λ m. list_any (λ s. is_needing s.states.processing && processes s.sub m) self.now.substrates) self.now.modules }
    {
        for place in 0..self.module_count() {
            if self.is_due_at(place) {
                return true;
            }
        }
        false
    }

    // ---- of a carrier

    // Whether a substrate is of the carrier of this number, and outside.
    fn is_outside_of(&self, carrier: u64, s: &Substrate) -> bool
        ensures { result ≡ (is_of carrier s.now && is_outside s.now self.now.places) }
    {
        s.carrier == carrier && self.is_outside(s)
    }

    // Whether a substrate is in its slot, or removed, where it is of the carrier of this number.
    fn is_back(&self, carrier: u64, s: &Substrate) -> bool
        ensures { result ≡ is_back carrier self.now.places s.now }
    {
        s.carrier != carrier || (self.is_in_slot(s) || self.is_removed(s))
    }

    // Whether a substrate of the carrier of this number is outside.
    pub(crate) fn has_outside(&self, carrier: u64) -> bool
        ensures { result ≡ has_outside carrier self.now }
    {
        if !self.places.is_any_at_work() {
            return false;
        }
        for place in 0..self.substrate_count() {
            if let Some(s) = self.substrate_at(place) {
                if self.is_outside_of(carrier, s) {
                    return true;
                }
            }
        }
        false
    }

    // Whether a carrier is quiet: no process job names it, and each of its substrates is in its slot or removed.
    #[inline(never)]
    pub(crate) fn is_quiet(&self, c: &Carrier) -> bool
        ensures { result ≡ is_quiet c.now self.now }
    {
        !self.is_any_of_carrier(c.name.text()) && self.are_back(c.number)
    }

    // Whether each substrate of the carrier of this number is in its slot or removed.
    fn are_back(&self, carrier: u64) -> bool
        ensures { result ≡ are_back carrier self.now }
    {
        for place in 0..self.substrate_count() {
            if let Some(s) = self.substrate_at(place) {
                if !self.is_back(carrier, s) {
                    return false;
                }
            }
        }
        true
    }

    // ---- what rows want

    // Whether what a row of table 10 wants is so of a carrier.
    pub(crate) fn accessing_wants(&self, row: u8, c: &Carrier) -> bool
        ensures { result ≡ wants_found (λ want. accessing_wants want c.now self.now) (row_of accessing_table row) }
    {
        match row {
            1 => self.has_outside(c.number),
            2 => self.is_quiet(c) && !c.stopped,
            3 => self.is_quiet(c) && c.stopped,
            _ => true,
        }
    }

    // Whether what a row of table 11 wants is so of the location of a number.
    pub(crate) fn location_wants(&self, row: u8, number: usize) -> bool
        ensures { result ≡ wants_found (λ want. location_wants want number self.now.places) (row_of occupancy_table row) }
    {
        match row {
            1 => self.places.is_taken_at(number),
            2 => !self.places.is_taken_at(number),
            _ => true,
        }
    }

    // Whether a substrate is in its slot, its process job is STOPPING or ABORTING, and no open command names it.
    #[inline(never)]
    pub(crate) fn is_skipped(&self, s: &Substrate) -> bool
        ensures { result ≡ is_skipped s.now self.now }
    {
        (self.is_of_stopping(s) || self.is_of_aborting(s))
            && (self.is_in_slot(s) && !self.is_named(s.sub))
    }

    // Whether no open Process command names a substrate where it is IN PROCESS.
    fn is_between(&self, s: &Substrate) -> bool
        ensures { result ≡ is_between s.now self.now }
    {
        !(s.states.processing.is_in_process() && self.is_processed(s))
    }

    // Whether a substrate is outside, its process job is STOPPING, and no open Process command names it where it is IN PROCESS.
    #[inline(never)]
    pub(crate) fn is_outside_of_stopping(&self, s: &Substrate) -> bool
        ensures { result ≡ is_outside_of is_stopping s.now self.now }
    {
        (self.is_outside(s) && self.is_of_stopping(s)) && self.is_between(s)
    }

    // The same of one that is ABORTING.
    #[inline(never)]
    pub(crate) fn is_outside_of_aborting(&self, s: &Substrate) -> bool
        ensures { result ≡ is_outside_of is_aborting s.now self.now }
    {
        (self.is_outside(s) && self.is_of_aborting(s)) && self.is_between(s)
    }

    // Whether what a row of table 12 or 13 wants is so of a substrate.
    pub(crate) fn substrate_wants(&self, row: RowId, s: &Substrate) -> bool
        ensures transport { row.table ≡ 12 → result ≡ wants_found (λ want. substrate_wants want s.now self.now) (row_of transport_table row.row) }
        ensures processing { row.table ≡ 13 → result ≡ wants_found (λ want. substrate_wants want s.now self.now) (row_of processing_table row.row) }
    {
        match (Table::of(row.table), row.row) {
            (Some(Table::Transport), 2) => self.is_outside(s),
            (Some(Table::Transport), 3) => self.is_in_slot(s),
            (Some(Table::Processing), 2) => self.is_processed(s),
            (Some(Table::Processing), 5) => self.is_skipped(s),
            (Some(Table::Processing), 6) => self.is_outside_of_stopping(s),
            (Some(Table::Processing), 7) => self.is_outside_of_aborting(s),
            _ => true,
        }
    }
}
