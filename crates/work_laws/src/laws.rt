//! Laws of the work on the floor of the tool, for proofs to cite. Each function is empty: what it ensures holds of the definitions.

ghost use Rattle.std.specs.Prelude.{◌≡◌, ◌≤◌, ℕ, true, false, List, None};
ghost use Rattle.gem_tables.specs.declared.firing.Firing.{Firing};
ghost use Rattle.tool_tasks.specs.declared.recipes.Recipe.{Recipe};
ghost use Rattle.process_job.specs.Creating.{create_fault};
ghost use Rattle.process_job.specs.Jobs.{with_created};
ghost use Rattle.process_job.specs.declared.job.JobSpec.{JobSpec};
ghost use Rattle.control_job.specs.Jobs.{JobStore};
ghost use Rattle.shop_floor.specs.Floor.{Floor};
ghost use Rattle.floor_model.specs.Floor.{ToolFloor, opening, with_shop, with_jobs, fetched};
ghost use Rattle.floor_model.specs.Machines.{floor_fired, floor_least};
ghost use Rattle.place_laws.specs.Sound.{Sound};
ghost use Rattle.tool_events.specs.Configs.{are_usable};
ghost use Rattle.work_laws.specs.Equipped.{most_chambers, Equipped};
ghost use Rattle.work_laws.specs.Work.{is_work_left, is_any_down, is_any_open};

/// Where no row of the floor is ready by itself, no module is Down and work is left, a command is open: the tool never stands still with
/// work to do, whatever the routes. That the equipment answers it is not promised.
pub fn a_command_is_open_while_work_is_left()
    ensures { (f : ToolFloor) → Sound f → Equipped f → floor_least f ≡ None
        → is_any_down f.modules ≡ false → is_work_left f ≡ true → is_any_open f.modules ≡ true }
{}

/// What the tool has for its process jobs it has as it begins, where each step of each recipe has one of its chambers; and that is kept by each
/// row, where a command is fetched, however load ports and carriers change, where a process job is created against which no fault
/// stands, and however control jobs change.
pub fn the_tool_stays_equipped()
    ensures begins { (ports chambers : ℕ) (recipes : List Recipe) → chambers ≤ most_chambers → are_usable chambers recipes ≡ true
        → Equipped (opening ports chambers recipes) }
    ensures row { (x : Firing) (f : ToolFloor) → Equipped f → Equipped (floor_fired x f) }
    ensures fetched { (number : ℕ) (f : ToolFloor) → Equipped f → Equipped (fetched number f) }
    ensures shop { (s : Floor) (f : ToolFloor) → Equipped f → Equipped (with_shop s f) }
    ensures created { (f : ToolFloor) (j : JobSpec) → create_fault j f.jobs.process ≡ None → Equipped f
        → Equipped (with_jobs (record f.jobs { process = with_created j f.jobs.process }) f) }
    ensures control { (f : ToolFloor) (s : JobStore) → Equipped f → Equipped (with_jobs (record f.jobs { control = s }) f) }
{}
