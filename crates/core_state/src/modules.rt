//! The modules, as the equipment and the operator see them (this tool's profile, moves).
ghost use Rattle.std.specs.Prelude.{◌≡◌, ◌≤◌, not, is_some, length};
ghost use Rattle.std.specs.Option.{option_to_list};
ghost use Rattle.robot_moves.specs.Modules.{is_open, is_up, unfetched, fetched_number};
ghost use Rattle.floor_model.specs.Floor.{fetched};
ghost use Rattle.floor_model.specs.Signals.{done_rows, closing_rows, lost_rows};
ghost use Rattle.gem_model.specs.Direct.{Are, IsListed};
ghost use Rattle.gem_model.specs.Signals.{lacks_module, module_of};
ghost use Rattle.gem_model.specs.Step.{can_come_up};

use crate::plant::Plant;
use arrayvec::ArrayVec;
use gem_ids::{CmdNo, ModuleId, SubstrateId};
use gem_tables::Firing;
use tool_tasks::Command;

impl Plant {
    /// Whether the tool has a module of this number.
    pub fn has_module(&self, m: ModuleId) -> bool
        ensures { result ≡ not (lacks_module m.0 self.now) }
    {
        self.floor.floor().has_module(m)
    }

    /// Whether the command of this number is the open one of the module.
    pub fn is_open(&self, m: ModuleId, n: CmdNo) -> bool
        ensures { result ≡ is_open n.0 (module_of m.0 self.now) }
    {
        self.floor.floor().is_open(m, n)
    }

    /// Whether the tool has a module of this number that is not Down.
    pub fn is_module_up(&self, m: ModuleId) -> bool
        ensures { result ≡ is_up (module_of m.0 self.now) }
    {
        self.floor.floor().is_up(m)
    }

    /// Whether the tool has a module of this number that is Down.
    pub fn can_come_up(&self, m: ModuleId) -> bool
        ensures { result ≡ can_come_up m.0 self.now }
    {
        self.floor.floor().is_down(m)
    }

    /// Whether a module has an open command that was not fetched.
    pub fn has_command(&self, m: ModuleId) -> bool
        ensures { result ≡ is_some (unfetched (module_of m.0 self.now)) }
    {
        self.floor.floor().has_command(m)
    }

    /// The open command of a module that was not fetched yet; it is fetched then, and stays open. `None` exactly where there is
    /// none, and nothing changes.
    pub fn fetch(&mut self, m: ModuleId) -> Option<Command>
        ensures command { result ≡ unfetched (module_of m.0 self.old) }
        ensures after { self.new ≡ record self.old { floor = fetched m.0 self.old.floor } }
    {
        self.floor.fetch(m)
    }

    /// How many modules the tool has, 2 to 255.
    pub fn module_count(&self) -> usize
        ensures count { result ≡ length self.now.floor.modules }
        ensures few { result ≤ 255 }
    {
        self.floor.floor().module_count()
    }

    /// The number of the open command of a module that was fetched.
    pub fn fetched_number(&self, m: ModuleId) -> Option<CmdNo>
        ensures { result ≡ fetched_number (module_of m.0 self.now) }
    {
        self.floor.floor().fetched_number(m)
    }

    /// The rows that Done of the open command of a module fires. There are none exactly where it has none.
    pub fn done_rows(&self, m: ModuleId) -> ArrayVec<Firing, 2>
        ensures rows { result.items ≡ done_rows m.0 self.now.floor }
        ensures listed { Are IsListed result.items }
    {
        self.floor.floor().done_rows(m)
    }

    /// The rows by which a module goes down: this row of table 16, 8 or 9, and row 4 of processing where a Process was open.
    pub fn closing_rows(&self, row: u8, m: ModuleId) -> ArrayVec<Firing, 2>
        ensures rows { result.items ≡ closing_rows row m.0 self.now.floor }
        ensures listed { Are IsListed result.items }
    {
        self.floor.floor().closing_rows(row, m)
    }

    /// The row by which a substrate is lost. `None` exactly where it cannot be.
    pub fn lost_row(&self, sub: SubstrateId) -> Option<Firing>
        ensures row { option_to_list result ≡ lost_rows sub self.now.floor }
        ensures listed { Are IsListed (option_to_list result) }
    {
        self.floor.floor().lost_row(sub)
    }
}
