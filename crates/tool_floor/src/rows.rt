//! What the rows of the table of moves do at a module (this tool's profile, table 16).

ghost use Rattle.std.specs.Prelude.{◌≡◌, ◌∷◌, [], false, Option, Some};
ghost use Rattle.robot_moves.specs.Modules.{module_at, change_module};
ghost use Rattle.floor_model.specs.Modules.{is_transfer, is_align, is_process, move_starts, module_behind};
ghost use Rattle.floor_model.specs.Signals.{done_row, open_number};
ghost use Rattle.gem_tables.specs.Table.{is_one_of};
ghost use Rattle.robot_moves.specs.declared.view.Move.{Move};

use gem_ids::{CmdNo, ModuleId};
use robot_moves::{Module, Modules};
use tool_tasks::Task;

// ---- tasks

// Whether a substrate is picked or placed.
fn is_transfer(task: &Task) -> bool
    ensures { result ≡ is_transfer task.now }
{
    matches!(task, Task::Pick { .. } | Task::Place { .. })
}

// Whether a substrate is aligned.
fn is_align(task: &Task) -> bool
    ensures { result ≡ is_align task.now }
{
    matches!(task, Task::Align { .. })
}

// Whether a substrate is processed.
fn is_process(task: &Task) -> bool
    ensures { result ≡ is_process task.now }
{
    matches!(task, Task::Process { .. })
}

// The row of a task that is done.
pub(crate) fn done_row(task: &Task) -> u8
    ensures { result ≡ done_row task.now }
{
    match task {
        Task::Pick { .. } | Task::Place { .. } => 5,
        Task::Align { .. } => 6,
        Task::Process { .. } => 7,
    }
}

// ---- rows

// Whether the row of a number from 5 on starts at a module.
pub(crate) fn starts(row: u8, one: &Module) -> bool
    requires { is_one_of (1 ∷ 2 ∷ 3 ∷ 4 ∷ []) row ≡ false }
    ensures { (plan : Option Move) → result ≡ move_starts row plan (Some one.now) }
{
    match (row, one) {
        (5, Module::Busy { command, .. }) => is_transfer(&command.task),
        (6, Module::Busy { command, .. }) => is_align(&command.task),
        (7, Module::Busy { command, .. }) => is_process(&command.task),
        (8, Module::Busy { .. }) => true,
        (9, Module::Idle | Module::Busy { .. }) => true,
        (10, Module::Down) => true,
        _ => false,
    }
}

// The number of the open command of the module of a number, 0 where it has none.
fn open_number(m: ModuleId, modules: &Modules) -> CmdNo
    ensures { result.0 ≡ open_number (module_at m.0 modules.now) }
{
    match modules.get(m) {
        Some(Module::Busy { command, .. }) => command.number,
        _ => CmdNo(0),
    }
}

// The row of a number fires at a module. One that does not start changes nothing.
pub(crate) fn fire(row: u8, m: ModuleId, modules: &mut Modules)
    ensures { modules.new ≡ change_module m.0 (module_behind row) modules.old }
{
    if row == 8 {
        modules.failed(m, open_number(m, modules));
    } else if row == 9 {
        modules.down(m);
    } else if row == 10 {
        modules.up(m);
    } else if row == 5 || row == 6 || row == 7 {
        modules.done(m, open_number(m, modules));
    }
}
