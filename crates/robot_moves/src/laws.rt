//! Laws of modules and moves, for proofs to cite. Each function is empty: what it ensures holds of the definitions.

ghost use Rattle.std.specs.Prelude.{◌≡◌, ◌∷◌, [], ℕ, List, Some, None, true, false};
ghost use Rattle.gem_tables.specs.Table.{starts, after, is_one_of};
ghost use Rattle.tool_tasks.specs.declared.task.Command.{Command};
ghost use Rattle.robot_moves.specs.Tables.{move_table, state_number};
ghost use Rattle.robot_moves.specs.Modules.{state_of, given, closed, goes_down, comes_up, module_at, change_module, is_idle, is_down, is_up, is_open};
ghost use Rattle.robot_moves.specs.Moves.{best_pick, module_move};
ghost use Rattle.robot_moves.specs.Best.{IsBestPick, NoneUseful, AllRest};
ghost use Rattle.robot_moves.specs.declared.module.Module.{Module};
ghost use Rattle.robot_moves.specs.declared.module.Module.TheVariants.{Idle, Down};
ghost use Rattle.robot_moves.specs.declared.view.PlaceView.{PlaceView};
ghost use Rattle.robot_moves.specs.declared.view.Move.{Move};

/// What happens to a module goes by its table: a command is given by rows 1 to 4, Done is rows 5 to 7, Failed row 8, the signal
/// Down row 9, and `up` row 10.
pub fn a_module_goes_by_its_table()
    ensures idle { (m : Module) → is_idle (Some m) ≡ starts state_number move_table 1 (state_of m) }
    ensures given { (c : Command) (m : Module) → state_of (given c m) ≡ after state_number move_table 1 (state_of m) }
    ensures done { (number : ℕ) (m : Module) → is_open number (Some m) ≡ true → state_of (closed number Idle m) ≡ after state_number move_table 5 (state_of m) }
    ensures failed { (number : ℕ) (m : Module) → is_open number (Some m) ≡ true → state_of (closed number Down m) ≡ after state_number move_table 8 (state_of m) }
    ensures up { (m : Module) → is_up (Some m) ≡ starts state_number move_table 9 (state_of m) }
    ensures went_down { (m : Module) → state_of (goes_down m) ≡ after state_number move_table 9 (state_of m) }
    ensures down { (m : Module) → is_down (Some m) ≡ starts state_number move_table 10 (state_of m) }
    ensures came_up { (m : Module) → state_of (comes_up m) ≡ after state_number move_table 10 (state_of m) }
{}

/// A command ends once: behind its Done or its Failed it isn't open any more.
pub fn a_command_ends_once()
    ensures done { (number m : ℕ) (modules : List Module) → is_open number (module_at m (change_module m (closed number Idle) modules)) ≡ false }
    ensures failed { (number m : ℕ) (modules : List Module) → is_open number (module_at m (change_module m (closed number Down) modules)) ≡ false }
{}

/// The robot's pick is the useful one of the greatest stage, then of the least number of registration; there is none exactly
/// where no pick is useful.
pub fn the_pick_is_the_best()
    ensures best { (views : List PlaceView) (modules : List Module) (v : PlaceView) → best_pick views modules ≡ Some v → IsBestPick views modules v }
    ensures none { (views : List PlaceView) (modules : List Module) → best_pick views modules ≡ None → NoneUseful views modules }
{}

/// A move is given to the module for which it is, which is Idle, and is one of rows 1 to 4.
pub fn a_move_is_of_an_idle_module()
    ensures idle { (number : ℕ) (views : List PlaceView) (modules : List Module) (m : Move)
        → module_move number views modules ≡ Some m → is_idle (module_at number modules) ≡ true }
    ensures number { (number : ℕ) (views : List PlaceView) (modules : List Module) (m : Move)
        → module_move number views modules ≡ Some m → m.«module».0 ≡ number }
    ensures row { (number : ℕ) (views : List PlaceView) (modules : List Module) (m : Move)
        → module_move number views modules ≡ Some m → is_one_of (1 ∷ 2 ∷ 3 ∷ 4 ∷ []) m.row ≡ true }
{}

/// Where no substrate is at the aligner, on the arm or in a chamber, and none may start, no module has anything to do.
pub fn nothing_moves_where_all_rest()
    ensures { (number : ℕ) (views : List PlaceView) (modules : List Module) → AllRest views → module_move number views modules ≡ None }
{}
