//! What the rows of the table of moves do besides the state of their module (this tool's profile, table 16).

ghost use Rattle.std.specs.Prelude.{◌≡◌, ◌∷◌, [], true, false, Some, IfOk, IfErr};
ghost use Rattle.gem_tables.specs.Table.{is_one_of};
ghost use Rattle.robot_moves.specs.Modules.{module_at};
ghost use Rattle.floor_model.specs.Views.{planned};
ghost use Rattle.floor_model.specs.Modules.{issued, open_task, goes, transferred, number_named, aligned_numbered, aligned_by, stepped_numbered, stepped_by};
ghost use Rattle.floor_model.specs.Machines.{moved_by, floor_starts, floor_fired};

use crate::floor::ToolFloor;
use crate::rows;
use gem_ids::{CmdNo, LocId, ModuleId, SubstrateId};
use gem_tables::Firing;
use robot_moves::Module;
use std::alloc::AllocError;
use tool_tasks::{Command, Task};

impl ToolFloor {
    // A move is given to a module, under the next number, where there is one for it. `AllocError`: the last number was given; nothing
    // has changed.
    fn issue(&mut self, m: ModuleId) -> Result<(), AllocError>
        ensures ok { IfOk result (λ _. self.new ≡ issued m.0 (planned m.0 self.old) self.old) }
        ensures err { IfErr result (λ _. self.new ≡ self.old) }
    {
        if let Some(next) = self.planned(m) {
            if self.commands == u64::MAX {
                return Err(AllocError);
            }
            let number = self.commands + 1;
            self.modules.issue(
                m,
                Command {
                    number: CmdNo(number),
                    task: next.task,
                },
            );
            self.commands = number;
        }
        Ok(())
    }

    // A substrate goes from a place of the tool to another.
    fn go(&mut self, sub: SubstrateId, from: LocId, to: LocId)
        ensures { self.new ≡ record self.old { places = goes sub from to self.old.places } }
    {
        if self.places.has(from) && self.places.has(to) {
            self.places.shift(sub, from, to);
        }
    }

    // What is done by a task of a Pick or a Place is moved.
    fn transfer_by(&mut self, task: &Task)
        ensures { self.new ≡ record self.old { places = transferred (Some task.now) self.old.places } }
    {
        match task {
            Task::Pick { sub, from } => self.go(*sub, *from, LocId::Arm),
            Task::Place { sub, to } => self.go(*sub, LocId::Arm, *to),
            _ => {}
        }
    }

    // What the open command of a module moves.
    fn transfer(&mut self, m: ModuleId)
        ensures { self.new ≡ record self.old { places = transferred (open_task (module_at m.0 self.old.modules)) self.old.places } }
    {
        if let Some(Module::Busy { command, .. }) = self.modules.get(m) {
            self.transfer_by(&command.task);
        }
    }

    // The number of registration of the substrate of a name that has a place.
    pub(crate) fn number_named(&self, sub: SubstrateId) -> Option<u64>
        ensures { result ≡ number_named sub self.now.places }
    {
        match self.places.find(sub) {
            Some(registered) => Some(registered.number),
            None => None,
        }
    }

    // What is done by a task of an Align is aligned.
    fn align_by(&mut self, task: &Task)
        ensures { self.new ≡ aligned_by (Some task.now) self.old }
    {
        if let Task::Align { sub } = task {
            let number = self.number_named(*sub);
            self.align_numbered(number);
        }
    }

    // What the open command of a module aligns.
    fn align(&mut self, m: ModuleId)
        ensures { self.new ≡ aligned_by (open_task (module_at m.0 self.old.modules)) self.old }
    {
        if let Some(Module::Busy { command, .. }) = self.modules.get(m) {
            self.align_by(&command.task);
        }
    }

    // The substrate of a number is aligned, where one is given.
    fn align_numbered(&mut self, number: Option<u64>)
        ensures { self.new ≡ record self.old { substrates = aligned_numbered number self.old.substrates } }
    {
        if let Some(number) = number {
            self.substrates.align(number);
        }
    }

    // What is done by a task of a Process has the step done, where it isn't the last and its job isn't ABORTING.
    fn step_by(&mut self, task: &Task)
        ensures { self.new ≡ stepped_by (Some task.now) self.old }
    {
        if let Task::Process { sub, .. } = task {
            let number = self.number_named(*sub);
            self.step_numbered(number);
        }
    }

    // What the open command of a module processes has.
    fn step(&mut self, m: ModuleId)
        ensures { self.new ≡ stepped_by (open_task (module_at m.0 self.old.modules)) self.old }
    {
        if let Some(Module::Busy { command, .. }) = self.modules.get(m) {
            self.step_by(&command.task);
        }
    }

    // The next step of the substrate of a number is done, where one is given that goes on to a further step.
    fn step_numbered(&mut self, number: Option<u64>)
        ensures { self.new ≡ record self.old { substrates = stepped_numbered number self.old } }
    {
        if let Some(number) = number {
            if self.goes_on(number) {
                self.substrates.step(number);
            }
        }
    }

    // A row of the table of moves fires that starts. `AllocError`: the last number of a command was given; nothing has changed.
    #[inline(never)]
    pub(crate) fn fire_move(&mut self, x: Firing) -> Result<(), AllocError>
        requires table { x.row.table ≡ 16 }
        requires starts { floor_starts x self.old ≡ true }
        ensures ok { IfOk result (λ _. self.new ≡ floor_fired x self.old) }
        ensures err { IfErr result (λ _. self.new ≡ self.old) }
    {
        if x.object > self.modules.len() as u64 {
            return Ok(());
        }
        let m = ModuleId(x.object as u8);
        if 1 <= x.row.row && x.row.row <= 4 {
            self.issue(m)?;
        } else {
            self.end_command(x.row.row, m);
        }
        Ok(())
    }

    // A row of the table of moves by which a command ends, or a module comes up, fires.
    fn end_command(&mut self, row: u8, m: ModuleId)
        requires { is_one_of (1 ∷ 2 ∷ 3 ∷ 4 ∷ []) row ≡ false }
        ensures { self.new ≡ moved_by row m.0 self.old }
    {
        if row == 5 {
            self.transfer(m);
        } else if row == 6 {
            self.align(m);
        } else if row == 7 {
            self.step(m);
        }
        rows::fire(row, m, &mut self.modules);
    }
}
