//! Laws of what is owed to a control job, for proofs to cite. Each function is empty: what it ensures holds of the definitions.

ghost use Rattle.std.specs.Prelude.{◌≡◌, ◌<◌, ℕ, ◌+◌, ◌==◌, Bool, true, List, length, Some};
ghost use Rattle.gem_tables.specs.Table.{is_one_of};
ghost use Rattle.floor_moves.specs.Floor.{Loc, arm, pick, place, align, process, Command, idle, busy, JobView, Floor, own, is_done};
ghost use Rattle.floor_moves.specs.Effects.{transported, worked, processed, turned, moved, aligned, stepped};
ghost use Rattle.floor_moves.specs.Carriers.{created, arrived, verified, registered, forgotten, HasEnded, with_jobs};
ghost use Rattle.floor_moves.specs.Valid.{Valid, HaveChambers};
ghost use Rattle.floor_moves.specs.Agree.{Agree};
ghost use Rattle.owed_laws.specs.Owed.{owed_to, commands_of};
ghost use Rattle.owed_laws.specs.Undisturbed.{AreUnaligned, JobsStand, ArePlanned, Undisturbed, Begins, OneLess};

/// As a control job starts nothing is disturbed, each counted substrate is in its slot, and a Done is owed for each command that
/// takes a counted substrate from its slot through the steps of the route that is planned for it and back.
pub fn each_command_is_owed_as_it_starts()
    ensures undisturbed { (counted : ℕ → Bool) (g : Floor) → Valid g → AreUnaligned g → Begins counted g → Undisturbed counted g }
    ensures inside { (counted : ℕ → Bool) (g : Floor) (n : ℕ) → Valid g → Begins counted g
        → is_one_of g.substrates n ≡ true → counted n ≡ true → g.place_of n ≡ Some (own n g) }
    ensures owed { (planned : ℕ → List (List ℕ)) (counted : ℕ → Bool) (g : Floor) → Valid g → Begins counted g
        → owed_to planned counted g ≡ commands_of (λ n. length (planned n)) counted g }
{}

/// Nothing is disturbed where a carrier is created, arrives at a port, is read, or is forgotten with its substrates, and where a
/// substrate is registered, with the rows of tables 12 and 13 that fire for it then.
pub fn nothing_is_disturbed_as_carriers_come_and_go()
    ensures created { (counted : ℕ → Bool) (g : Floor) (c : ℕ) → Undisturbed counted g → Undisturbed counted (created c g) }
    ensures arrived { (counted : ℕ → Bool) (g : Floor) (c p : ℕ) → Undisturbed counted g → Undisturbed counted (arrived c p g) }
    ensures verified { (counted : ℕ → Bool) (g : Floor) (c : ℕ) → Undisturbed counted g → Undisturbed counted (verified c g) }
    ensures registered { (counted : ℕ → Bool) (g : Floor) (c p k : ℕ) → Valid g → Undisturbed counted g
        → Undisturbed counted (registered c p k g) }
    ensures at_source { (counted : ℕ → Bool) (g : Floor) (n : ℕ) → Undisturbed counted g
        → Undisturbed counted (transported n 0 g) }
    ensures needing { (counted : ℕ → Bool) (g : Floor) (n : ℕ) → Undisturbed counted g → (g.processing n == 0) ≡ true
        → Undisturbed counted (worked n 0 g) }
    ensures forgotten { (counted : ℕ → Bool) (g : Floor) (c : ℕ) → Valid g → Undisturbed counted g → HasEnded c g
        → Undisturbed counted (forgotten c g) }
{}

/// As much is owed there.
pub fn as_much_is_owed_as_carriers_come_and_go()
    ensures created { (planned : ℕ → List (List ℕ)) (counted : ℕ → Bool) (g : Floor) (c : ℕ) → owed_to planned counted (created c g) ≡ owed_to planned counted g }
    ensures arrived { (planned : ℕ → List (List ℕ)) (counted : ℕ → Bool) (g : Floor) (c p : ℕ) → owed_to planned counted (arrived c p g) ≡ owed_to planned counted g }
    ensures verified { (planned : ℕ → List (List ℕ)) (counted : ℕ → Bool) (g : Floor) (c : ℕ) → owed_to planned counted (verified c g) ≡ owed_to planned counted g }
    ensures registered { (planned : ℕ → List (List ℕ)) (counted : ℕ → Bool) (g : Floor) (c p k : ℕ) → Valid g → Undisturbed counted g
        → owed_to planned counted (registered c p k g) ≡ owed_to planned counted g }
    ensures at_source { (planned : ℕ → List (List ℕ)) (counted : ℕ → Bool) (g : Floor) (n : ℕ)
        → owed_to planned counted (transported n 0 g) ≡ owed_to planned counted g }
    ensures needing { (planned : ℕ → List (List ℕ)) (counted : ℕ → Bool) (g : Floor) (n : ℕ) → Undisturbed counted g → (g.processing n == 0) ≡ true
        → owed_to planned counted (worked n 0 g) ≡ owed_to planned counted g }
    ensures forgotten { (planned : ℕ → List (List ℕ)) (counted : ℕ → Bool) (g : Floor) (c : ℕ) → Valid g → Undisturbed counted g → HasEnded c g
        → owed_to planned counted (forgotten c g) ≡ owed_to planned counted g }
{}

/// Process jobs may say anything new that stands as it does undisturbed: nothing is disturbed, and as much is owed.
pub fn as_much_is_owed_as_process_jobs_go_on()
    ensures undisturbed { (counted : ℕ → Bool) (g : Floor) (view : JobView) → Undisturbed counted g
        → JobsStand counted (with_jobs view g)
        → Undisturbed counted (with_jobs view g) }
    ensures as_much { (planned : ℕ → List (List ℕ)) (counted : ℕ → Bool) (g : Floor) (view : JobView)
        → owed_to planned counted (with_jobs view g) ≡ owed_to planned counted g }
{}

/// Done of a command takes one off, where the route of each unfinished substrate in a process job is the one that is planned for it: of a
/// Pick, a Place or an Align; of a Process whose step isn't the last, so that it is done; and of one whose step is the last, with the row
/// by which the substrate is PROCESSED. Nothing is disturbed.
pub fn done_of_a_command_takes_one_off()
    ensures pick { (planned : ℕ → List (List ℕ)) (counted : ℕ → Bool) (g : Floor) (m n : ℕ) (l : Loc) (c : Command) → Valid g
        → ArePlanned planned g → Undisturbed counted g → g.equipment m ≡ busy c → c.task ≡ pick n l
        → OneLess planned counted g (moved n arm m g) }
    ensures place { (planned : ℕ → List (List ℕ)) (counted : ℕ → Bool) (g : Floor) (m n : ℕ) (l : Loc) (c : Command) → Valid g
        → ArePlanned planned g → Undisturbed counted g → g.equipment m ≡ busy c → c.task ≡ place n l
        → OneLess planned counted g (moved n l m g) }
    ensures align { (planned : ℕ → List (List ℕ)) (counted : ℕ → Bool) (g : Floor) (m n : ℕ) (c : Command) → Valid g
        → Undisturbed counted g → g.equipment m ≡ busy c → c.task ≡ align n → OneLess planned counted g (aligned n m g) }
    ensures step { (planned : ℕ → List (List ℕ)) (counted : ℕ → Bool) (g : Floor) (m n : ℕ) (c : Command) → Valid g → HaveChambers g
        → ArePlanned planned g → Undisturbed counted g → g.equipment m ≡ busy c → c.task ≡ process n
        → g.steps_of n + 1 < length (g.jobs.route_of n) → OneLess planned counted g (stepped n m g) }
    ensures last { (planned : ℕ → List (List ℕ)) (counted : ℕ → Bool) (g : Floor) (m n : ℕ) (c : Command) → Valid g
        → ArePlanned planned g → Undisturbed counted g → g.equipment m ≡ busy c → c.task ≡ process n
        → g.steps_of n + 1 ≡ length (g.jobs.route_of n) → OneLess planned counted g (processed n (turned m idle g)) }
{}

/// Nothing is owed exactly where each counted substrate that is kept is finished, and in its slot or without a place; that nothing else is
/// owed nothing, where the route of each unfinished one in a process job is the one that is planned for it.
pub fn nothing_is_owed_where_each_is_done()
    ensures done { (planned : ℕ → List (List ℕ)) (counted : ℕ → Bool) (g : Floor)
        → ((n : ℕ) → is_one_of g.substrates n ≡ true → counted n ≡ true → is_done n g ≡ true) → owed_to planned counted g ≡ 0 }
    ensures nothing { (planned : ℕ → List (List ℕ)) (counted : ℕ → Bool) (g : Floor) → Valid g → ArePlanned planned g → owed_to planned counted g ≡ 0
        → (n : ℕ) → is_one_of g.substrates n ≡ true → counted n ≡ true → is_done n g ≡ true }
{}

/// What is said here is said of what is kept: floors that say the same of it agree.
pub fn what_is_owed_is_said_of_what_is_kept()
    ensures owed { (planned : ℕ → List (List ℕ)) (counted : ℕ → Bool) (g h : Floor) → Agree g h → owed_to planned counted h ≡ owed_to planned counted g }
    ensures commands { (steps : ℕ → ℕ) (counted : ℕ → Bool) (g h : Floor) → Agree g h
        → commands_of steps counted h ≡ commands_of steps counted g }
    ensures undisturbed { (counted : ℕ → Bool) (g h : Floor) → Agree g h → Valid g → Undisturbed counted g → Undisturbed counted h }
    ensures unaligned { (g h : Floor) → Agree g h → Valid g → AreUnaligned g → AreUnaligned h }
{}
