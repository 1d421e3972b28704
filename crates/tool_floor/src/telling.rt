//! What the equipment tells of modules, and what the operator says of substrates: the rows that these fire (this tool's profile,
//! direct rows).

ghost use Rattle.std.specs.Prelude.{◌≡◌, ◌≤◌, ◌∷◌, ◌++◌, [], length, Some, None};
ghost use Rattle.std.specs.Option.{option_to_list};
ghost use Rattle.std.specs.List.{list_any};
ghost use Rattle.robot_moves.specs.Modules.{module_at};
ghost use Rattle.floor_model.specs.Floor.{substrate_numbered};
ghost use Rattle.floor_model.specs.Naming.{named_by, module_names};
ghost use Rattle.floor_model.specs.Views.{goes_on};
ghost use Rattle.floor_model.specs.Signals.{at_module, at_processed, processed_rows, done_at, done_rows, closing_at, closing_rows, done_processing, at_done, done_processed, can_be_lost, lost_at, lost_rows};

use crate::floor::ToolFloor;
use crate::planning::has_further_step;
use crate::rows::done_row;
use arrayvec::ArrayVec;
use floor_model::Substrate;
use gem_ids::{ModuleId, SubstrateId};
use gem_tables::{Firing, Table};
use robot_moves::Module;
use tool_tasks::Task;

// The substrate that a task names.
fn named_by(task: &Task) -> SubstrateId
    ensures { result ≡ named_by task.now }
{
    match task {
        Task::Pick { sub, .. } => *sub,
        Task::Place { sub, .. } => *sub,
        Task::Align { sub } => *sub,
        Task::Process { sub, .. } => *sub,
    }
}

// Whether an open command of a module names the substrate.
fn module_names(sub: SubstrateId, module: &Module) -> bool
    ensures { result ≡ module_names sub module.now }
{
    match module {
        Module::Busy { command, .. } => named_by(&command.task).as_bytes() == sub.as_bytes(),
        _ => false,
    }
}

// A row at a module, and one of processing behind it, where one is given.
fn one_or_two(first: Firing, second: Option<Firing>) -> ArrayVec<Firing, 2>
    ensures { result.items ≡ first ∷ option_to_list second }
{
    let mut rows = ArrayVec::new();
    rows.push(first);
    if let Some(second) = second {
        rows.push(second);
    }
    rows
}

impl ToolFloor {
    // The row of processing of the substrate that a task processes, where one is.
    fn processed_row(&self, row: u8, task: &Task) -> Option<Firing>
        ensures { option_to_list result ≡ processed_rows row task.now self.now }
    {
        match task {
            Task::Process { sub, .. } => match self.number_named(*sub) {
                Some(number) => Some(Firing::of(Table::Processing, number, row)),
                None => None,
            },
            _ => None,
        }
    }

    // The row of processing of the substrate of a number that was processed: 4 where its process job is ABORTING, else 3.
    fn done_processing(&self, number: u64) -> u8
        ensures { result ≡ done_processing number self.now }
    {
        match self.substrate(number) {
            Some(substrate) => {
                if self.is_of_aborting(&substrate) {
                    4
                } else {
                    3
                }
            }
            None => 3,
        }
    }

    // That row of the substrate that a task processes, where one is.
    fn done_processed(&self, task: &Task) -> Option<Firing>
        ensures { option_to_list result ≡ done_processed task.now self.now }
    {
        match task {
            Task::Process { sub, .. } => match self.number_named(*sub) {
                Some(number) => self.row_at_done(number),
                None => None,
            },
            _ => None,
        }
    }

    // Whether the substrate of a number that was processed goes on to a further step of its route: its process job isn't ABORTING,
    // and the step isn't the last.
    pub(crate) fn goes_on(&self, number: u64) -> bool
        ensures { result ≡ goes_on (substrate_numbered number self.now.substrates) self.now }
    {
        match self.substrates.known(number) {
            Some(substrate) => {
                !self.is_of_aborting(substrate) && has_further_step(substrate, &self.jobs)
            }
            None => false,
        }
    }

    // The row of processing of the substrate of a number that was processed, where it doesn't go on.
    fn row_at_done(&self, number: u64) -> Option<Firing>
        ensures { option_to_list result ≡ at_done (Some number) self.now }
    {
        if self.goes_on(number) {
            None
        } else {
            Some(Firing::of(Table::Processing, number, self.done_processing(number)))
        }
    }

    /// The rows that Done of the open command of a module fires: row 5, 6 or 7 of table 16 by its task, and behind a Process row 4 of
    /// processing where the process job of its substrate is ABORTING, and else row 3 where the step was the last of its route. There are
    /// none exactly where it has no open command.
    pub fn done_rows(&self, m: ModuleId) -> ArrayVec<Firing, 2>
        ensures { result.items ≡ done_rows m.0 self.now }
    {
        match self.modules.get(m) {
            Some(Module::Busy { command, .. }) => one_or_two(
                Firing::of(Table::Moves, u64::from(m.0), done_row(&command.task)),
                self.done_processed(&command.task),
            ),
            _ => ArrayVec::new(),
        }
    }

    /// The rows by which a module goes down: this row of table 16, 8 or 9, and row 4 of processing where a Process was open.
    pub fn closing_rows(&self, row: u8, m: ModuleId) -> ArrayVec<Firing, 2>
        ensures { result.items ≡ closing_rows row m.0 self.now }
    {
        let closes = Firing::of(Table::Moves, u64::from(m.0), row);
        match self.modules.get(m) {
            Some(Module::Busy { command, .. }) => {
                one_or_two(closes, self.processed_row(4, &command.task))
            }
            _ => one_or_two(closes, None),
        }
    }

    // ---- what the operator says

    // Whether an open command of a module names a substrate.
    pub(crate) fn is_named(&self, sub: SubstrateId) -> bool
        ensures { result ≡ list_any (module_names sub) self.now.modules }
    {
        for place in 0..self.module_count() {
            if let Some(module) = self.module_at(place) {
                if module_names(sub, &module) {
                    return true;
                }
            }
        }
        false
    }

    // Whether a substrate is outside its slot, and no open command names it.
    fn can_be_lost(&self, s: &Substrate) -> bool
        ensures { result ≡ can_be_lost (Some s.now) self.now }
    {
        !self.is_in_slot(s) && !self.is_named(s.sub)
    }

    // The row of `lost` at the substrate of a number, where it can be lost.
    fn lost_at(&self, number: u64) -> Option<Firing>
        ensures { option_to_list result ≡ lost_at (Some number) self.now }
    {
        match self.substrate(number) {
            Some(substrate) => {
                if self.can_be_lost(&substrate) {
                    Some(Firing::of(Table::Processing, number, 8))
                } else {
                    None
                }
            }
            None => None,
        }
    }

    /// The row by which a substrate is lost, 8 of processing: `None` exactly where it is in its slot, has no place, or an open command
    /// names it (this tool's profile, operator words).
    pub fn lost_row(&self, sub: SubstrateId) -> Option<Firing>
        ensures { option_to_list result ≡ lost_rows sub self.now }
    {
        match self.number_named(sub) {
            Some(number) => self.lost_at(number),
            None => None,
        }
    }
}
