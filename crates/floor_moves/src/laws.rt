//! Laws of the moves, for proofs to cite. Each function is empty: what it ensures holds of the definitions.

ghost use Rattle.std.specs.Prelude.{◌≡◌, ◌≤◌, ◌<◌, ℕ, ◌+◌, ◌*◌, ◌==◌, true, List, length};
ghost use Rattle.gem_tables.specs.Table.{is_one_of};
ghost use Rattle.floor_moves.specs.Floor.{slot, process, Command, idle, busy, JobView, Floor, opening};
ghost use Rattle.floor_moves.specs.Effects.{transported, worked, turned, processed, stepped};
ghost use Rattle.floor_moves.specs.Carriers.{created, MayCreate, arrived, MayArrive, verified, registered, MayRegister, AreWithin, forgotten, HasEnded, with_jobs};
ghost use Rattle.floor_moves.specs.Valid.{Empty, Valid, MaySay, HaveChambers};
ghost use Rattle.floor_moves.specs.Agree.{Agree};
ghost use Rattle.floor_moves.specs.OnePlace.{OnePlace};
ghost use Rattle.floor_moves.specs.Work.{is_work_left, IsOpen};
ghost use Rattle.floor_moves.specs.Rest.{AtRest};

/// What holds at every moment holds as the floor begins.
pub fn what_holds_holds_as_the_floor_begins()
    ensures { (chambers : List ℕ) → Valid (opening chambers) }
{}

/// What holds is kept where a carrier is created, arrives at a port, is read, or is forgotten with its substrates, where a
/// substrate is registered, with the rows of tables 12 and 13 that fire for it then, and where process jobs go on.
pub fn what_holds_is_kept_as_carriers_come_and_go()
    ensures created { (g : Floor) (c : ℕ) → Valid g → MayCreate c g → Valid (created c g) }
    ensures arrived { (g : Floor) (c p : ℕ) → Valid g → MayArrive c p g → Valid (arrived c p g) }
    ensures verified { (g : Floor) (c : ℕ) → Valid g → Valid (verified c g) }
    ensures registered { (g : Floor) (c p k : ℕ) → Valid g → MayRegister c p k g → Valid (registered c p k g) }
    ensures at_source { (g : Floor) (n : ℕ) → Valid g → Valid (transported n 0 g) }
    ensures needing { (g : Floor) (n : ℕ) → Valid g → (g.processing n == 0) ≡ true → Valid (worked n 0 g) }
    ensures forgotten { (g : Floor) (c : ℕ) → Valid g → HasEnded c g → Valid (forgotten c g) }
    ensures jobs { (g : Floor) (view : JobView) → Valid g → MaySay view g → Valid (with_jobs view g) }
{}

/// What holds is kept by Done of a Process. Where the step of its substrate isn't the last, that is done, and each step that is left has
/// its chamber still. Where it is the last, or the process job is ABORTING, the command is closed, and then the substrate is PROCESSED, or
/// ABORTED.
pub fn what_holds_is_kept_as_steps_are_done()
    ensures step { (g : Floor) (m n : ℕ) (c : Command) → Valid g → g.equipment m ≡ busy c → c.task ≡ process n → g.processing n ≡ 1
        → g.steps_of n + 1 < length (g.jobs.route_of n) → Valid (stepped n m g) }
    ensures chambers { (g : Floor) (m n : ℕ) → HaveChambers g → HaveChambers (stepped n m g) }
    ensures last { (g : Floor) (m n : ℕ) (c : Command) → Valid g → g.equipment m ≡ busy c → c.task ≡ process n
        → Valid (processed n (turned m idle g)) }
    ensures aborted { (g : Floor) (m n : ℕ) (c : Command) → Valid g → g.equipment m ≡ busy c → c.task ≡ process n
        → Valid (worked n 3 (turned m idle g)) }
{}

/// What holds of a floor holds of each that says the same of what is kept: what the columns say of a substrate that was forgotten
/// counts for nothing.
pub fn what_holds_is_said_of_what_is_kept()
    ensures { (g h : Floor) → Agree g h → Valid g → Valid h }
{}

/// There is room for each substrate that is registered: its slot is empty, and at most 25 substrates of each port are kept.
pub fn there_is_room_for_each_substrate()
    ensures slot { (g : Floor) (c p k : ℕ) → Valid g → MayRegister c p k g → Empty (slot p k) g }
    ensures few { (g : Floor) (ports : ℕ) → Valid g → AreWithin ports g → length g.substrates ≤ 25 * ports }
{}

/// Each substrate has one place where what holds at every moment holds.
pub fn each_substrate_has_one_place()
    ensures { (g : Floor) → Valid g → OnePlace g }
{}

/// Where the floor is at rest if no command is open, the steps of the route of each substrate in a job rise, each that isn't done with a
/// chamber of the tool, and work is left for a substrate that is kept, a command is open: the moves never stand still with work to do.
pub fn a_command_is_open_while_work_is_left()
    ensures { (g : Floor) (n : ℕ) → Valid g → HaveChambers g → (((m : ℕ) (c : Command) → g.equipment m ≡ busy c → ⊥) → AtRest g)
        → is_one_of g.substrates n ≡ true → is_work_left n g ≡ true → IsOpen g }
{}
