//! Laws of a control job that executes undisturbed, for proofs to cite. Each function is empty: what it ensures holds of the definitions.

ghost use Rattle.std.specs.Prelude.{◌≡◌, ◌≤◌, ◌⊎◌, ℕ, ◌+◌, Bool, true, false, List, [], ◌∷◌, ◌++◌, length, Option, Some, None};
ghost use Rattle.std.specs.List.{AllByRecursion, list_any};
ghost use Rattle.gem_tables.specs.declared.firing.Firing.{Firing};
ghost use Rattle.tool_tasks.specs.declared.task.Command.{Command};
ghost use Rattle.tool_tasks.specs.declared.task.Task.TheVariants as task;
ghost use Rattle.robot_moves.specs.declared.module.Module.TheVariants.{Busy};
ghost use Rattle.robot_moves.specs.Modules.{module_at, is_up, is_open};
ghost use Rattle.load_port.specs.Caack.{is_done_code};
ghost use Rattle.load_port.specs.Ports.{most_ports, port_numbered};
ghost use Rattle.carrier.specs.declared.action.CarrierAction.{CarrierAction};
ghost use Rattle.carrier.specs.declared.carrier.Carrier.{Carrier};
ghost use Rattle.carrier.specs.Carriers.{has_name, carrier_numbered};
ghost use Rattle.shop_floor.specs.Floor.{arrival_of};
ghost use Rattle.shop_floor.specs.Machines as shop;
ghost use Rattle.shop_floor.specs.Requests.{came, carrier_code, carrier_written};
ghost use Rattle.shop_floor.specs.Rows.{owner};
ghost use Rattle.floor_model.specs.Signals.{done_row, done_rows, closing_rows, lost_rows};
ghost use Rattle.floor_moves.specs.Floor.{chamber, next_step, is_done};
ghost use Rattle.floor_moves.specs.Valid.{IsUnnamed};
ghost use Rattle.gem_tables.specs.Table.{firing, is_one_of};
ghost use Rattle.process_job.specs.Jobs.{job_numbered as process_numbered};
ghost use Rattle.process_job.specs.Creating.{create_fault};
ghost use Rattle.process_job.specs.declared.job.JobSpec.{JobSpec};
ghost use Rattle.process_job.specs.declared.job.ProcessJob.{ProcessJob};
ghost use Rattle.control_job.specs.Jobs.{job_numbered as control_numbered, headed};
ghost use Rattle.control_job.specs.declared.job.ControlJob.{ControlJob};
ghost use Rattle.tool_jobs.specs.Rows.{control_starts, control_ready};
ghost use Rattle.tool_jobs.specs.Creating.{with_process, with_control, control_fault};
ghost use Rattle.tool_jobs.specs.Together.{AreTogether};
ghost use Rattle.tool_tasks.specs.declared.recipes.Recipe.{Recipe};
ghost use Rattle.floor_model.specs.declared.tracked.Substrate.{Substrate};
ghost use Rattle.floor_model.specs.Floor.{ToolFloor, opening, with_shop, with_jobs, fetched, substrate_numbered};
ghost use Rattle.floor_model.specs.Jobs.{can_join, job_of, is_first_here, is_any_of_carrier};
ghost use Rattle.floor_model.specs.Modules.{number_named};
ghost use Rattle.floor_model.specs.Views.{goes_on};
ghost use Rattle.floor_model.specs.Machines.{floor_starts, floor_fired, floor_least};
ghost use Rattle.place_laws.specs.Picture.{picture};
ghost use Rattle.place_laws.specs.Sound.{Sound};
ghost use Rattle.floor_laws.specs.Rows.{is_common, listed};
ghost use Rattle.owed_laws.specs.Owed.{owed_to};
ghost use Rattle.owed_laws.specs.Undisturbed.{AreUnaligned, Undisturbed};
ghost use Rattle.queue_laws.specs.Started.{is_queued, AreStarted};
ghost use Rattle.queue_laws.specs.Steers.{AreAutomatic, disturbs_process, disturbs_control, is_completion};
ghost use Rattle.lot_laws.specs.Lot.{names_slot, names_left, route_by, HaveRoutes, counted_of, planned_of, total, IsMaterialHere, AreInKeptJobs};
ghost use Rattle.lot_laws.specs.Lot.{Executes, GoesOnOrCompletes, TakesOneOff};
ghost use Rattle.lot_laws.specs.Lot.{InOrder, IsCalmBetween, WorksOrIsDisturbed, is_word};

/// As a control job starts by row 4 or 5 of table 15, where each process job that is left in it starts by itself and its material is
/// here, it executes undisturbed, and a Done is owed for each command of each substrate that is counted: five for its way there and back,
/// and three for each step of the route of the first of these process jobs that names its slot.
pub fn a_control_job_starts_with_its_material_in_place()
    ensures executes { (number row : ℕ) (f : ToolFloor) (c : ControlJob) → Sound f → AreTogether f.jobs → AreStarted f.jobs
        → AreUnaligned (picture f) → AreInKeptJobs f → control_numbered number f.jobs.control.jobs ≡ Some c
        → control_starts row (Some c) (is_first_here number f) f.jobs ≡ true → is_one_of (4 ∷ 5 ∷ []) row ≡ true
        → AreAutomatic number f.jobs → IsMaterialHere number f
        → Executes number (planned_of number f) (counted_of number f) (floor_fired (firing 15 number row) f) }
    ensures owed { (number row : ℕ) (f : ToolFloor) (c : ControlJob) → Sound f → AreTogether f.jobs → AreStarted f.jobs
        → AreUnaligned (picture f) → AreInKeptJobs f → control_numbered number f.jobs.control.jobs ≡ Some c
        → control_starts row (Some c) (is_first_here number f) f.jobs ≡ true → is_one_of (4 ∷ 5 ∷ []) row ≡ true
        → AreAutomatic number f.jobs → IsMaterialHere number f
        → owed_to (planned_of number f) (counted_of number f) (picture (floor_fired (firing 15 number row) f)) ≡ total number f }
{}

/// While it executes, its substrates stand undisturbed.
pub fn its_substrates_stand_undisturbed()
    ensures { (number : ℕ) (planned : ℕ → List (List ℕ)) (counted : ℕ → Bool) (f : ToolFloor) → Sound f → Executes number planned counted f
        → Undisturbed counted (picture f) }
{}

/// While it executes, each counted substrate that isn't done is in the first of the process jobs that are left in it, in the order in which
/// it named them, that names the slot, or that job is QUEUED and can take it; and it takes the route of that job.
pub fn the_first_process_job_that_names_its_slot_takes_a_substrate()
    ensures takes { (number : ℕ) (planned : ℕ → List (List ℕ)) (counted : ℕ → Bool) (f : ToolFloor) (n : ℕ) (s : Substrate)
        (before behind : List (List ℕ)) (j : ProcessJob)
        → AreTogether f.jobs → Executes number planned counted f → substrate_numbered n f.substrates ≡ Some s → counted n ≡ true
        → is_done n (picture f) ≡ false → process_numbered j.number f.jobs.process.kept ≡ Some j
        → names_left (control_numbered number f.jobs.control.jobs) ≡ before ++ j.id ∷ behind → names_slot f s j.id ≡ true
        → list_any (names_slot f s) before ≡ false
        → (job_of s f.jobs ≡ Some j) ⊎ ((is_queued j.states.state ≡ true) × (can_join j f.shop s ≡ true)) }
    ensures route { (number : ℕ) (planned : ℕ → List (List ℕ)) (counted : ℕ → Bool) (f : ToolFloor) (n : ℕ) (s : Substrate)
        (before behind : List (List ℕ)) (j : ProcessJob)
        → AreTogether f.jobs → Executes number planned counted f → substrate_numbered n f.substrates ≡ Some s → counted n ≡ true
        → is_done n (picture f) ≡ false → process_numbered j.number f.jobs.process.kept ≡ Some j
        → names_left (control_numbered number f.jobs.control.jobs) ≡ before ++ j.id ∷ behind
        → names_slot f s j.id ≡ true → list_any (names_slot f s) before ≡ false → route_by f.jobs.process j ≡ planned n }
{}

/// It executes on behind each row of table 14 that starts and doesn't disturb it, and as much is owed.
pub fn it_executes_on_behind_rows_of_process_jobs()
    ensures executes { (number : ℕ) (planned : ℕ → List (List ℕ)) (counted : ℕ → Bool) (f : ToolFloor) (n row : ℕ) (j : ProcessJob) → Sound f
        → AreTogether f.jobs
        → AreStarted f.jobs → Executes number planned counted f → process_numbered n f.jobs.process.kept ≡ Some j
        → floor_starts (firing 14 n row) f ≡ true → disturbs_process number j.id row f.jobs ≡ false
        → Executes number planned counted (floor_fired (firing 14 n row) f) }
    ensures as_much { (number : ℕ) (planned : ℕ → List (List ℕ)) (counted : ℕ → Bool) (f : ToolFloor) (n row : ℕ) (j : ProcessJob) → Sound f
        → AreTogether f.jobs
        → AreStarted f.jobs → Executes number planned counted f → process_numbered n f.jobs.process.kept ≡ Some j
        → floor_starts (firing 14 n row) f ≡ true → disturbs_process number j.id row f.jobs ≡ false
        → owed_to planned counted (picture (floor_fired (firing 14 n row) f)) ≡ owed_to planned counted (picture f) }
{}

/// It executes on behind each row of table 15 that starts and doesn't disturb it, but for its completion, and as much is owed.
pub fn it_executes_on_behind_rows_of_control_jobs()
    ensures executes { (number : ℕ) (planned : ℕ → List (List ℕ)) (counted : ℕ → Bool) (f : ToolFloor) (m row : ℕ) (c : ControlJob) → Sound f
        → AreTogether f.jobs
        → AreStarted f.jobs → Executes number planned counted f → control_numbered m f.jobs.control.jobs ≡ Some c
        → control_starts row (Some c) (is_first_here m f) f.jobs ≡ true → disturbs_control number m row ≡ false
        → is_completion number m row ≡ false → Executes number planned counted (floor_fired (firing 15 m row) f) }
    ensures as_much { (planned : ℕ → List (List ℕ)) (counted : ℕ → Bool) (f : ToolFloor) (m row : ℕ)
        → owed_to planned counted (picture (floor_fired (firing 15 m row) f)) ≡ owed_to planned counted (picture f) }
{}

/// Its completion is ready only where no Done is owed, and where none is owed some row is ready: at rest it has completed.
pub fn it_completes_where_no_done_is_owed()
    ensures ready { (number : ℕ) (planned : ℕ → List (List ℕ)) (counted : ℕ → Bool) (f : ToolFloor) (row : ℕ) (here : Bool) → Sound f
        → AreTogether f.jobs
        → AreStarted f.jobs → Executes number planned counted f → control_ready (control_numbered number f.jobs.control.jobs) here f.jobs ≡ Some row
        → owed_to planned counted (picture f) ≡ 0 }
    ensures at_rest { (number : ℕ) (planned : ℕ → List (List ℕ)) (counted : ℕ → Bool) (f : ToolFloor) → Sound f → AreTogether f.jobs
        → AreStarted f.jobs
        → Executes number planned counted f → floor_least f ≡ None → owed_to planned counted (picture f) ≡ 0 → ⊥ }
{}

/// It executes on behind the least row that is ready by itself, and as much is owed; or the row is its completion, and none is owed.
pub fn the_least_row_leaves_as_much_owed_or_completes_it()
    ensures { (number : ℕ) (planned : ℕ → List (List ℕ)) (counted : ℕ → Bool) (f : ToolFloor) (x : Firing) → Sound f → AreTogether f.jobs
        → AreStarted f.jobs
        → Executes number planned counted f → floor_least f ≡ Some x → GoesOnOrCompletes number planned counted f x }
{}

/// Done of an open command takes one off. It has one row of a Pick, a Place and an Align, and of a Process where its substrate goes on to
/// a further step of its route. Of the two rows of a Process of the last step the first leaves as much owed, and the second, row 3 or 4 of
/// table 13, takes one off.
pub fn done_of_a_command_takes_one_off()
    ensures moved { (number : ℕ) (planned : ℕ → List (List ℕ)) (counted : ℕ → Bool) (f : ToolFloor) (m : ℕ) (c : Command) (fetched : Bool)
        → Sound f → Executes number planned counted f → module_at m f.modules ≡ Some (Busy c fetched)
        → ((sub recipe : List ℕ) → c.task ≡ task.Process sub recipe → ⊥)
        → TakesOneOff number planned counted f (floor_fired (firing 16 m (done_row c.task)) f) }
    ensures stepped { (number : ℕ) (planned : ℕ → List (List ℕ)) (counted : ℕ → Bool) (f : ToolFloor) (m n : ℕ) (c : Command) (fetched : Bool)
        (sub recipe : List ℕ) → Sound f → HaveRoutes f → floor_least f ≡ None → Executes number planned counted f
        → module_at m f.modules ≡ Some (Busy c fetched) → c.task ≡ task.Process sub recipe → number_named sub f.places ≡ Some n
        → goes_on (substrate_numbered n f.substrates) f ≡ true
        → TakesOneOff number planned counted f (floor_fired (firing 16 m 7) f) }
    ensures closed { (number : ℕ) (planned : ℕ → List (List ℕ)) (counted : ℕ → Bool) (f : ToolFloor) (m n : ℕ) (c : Command) (fetched : Bool)
        (sub recipe : List ℕ) → Sound f → Executes number planned counted f
        → module_at m f.modules ≡ Some (Busy c fetched) → c.task ≡ task.Process sub recipe → number_named sub f.places ≡ Some n
        → goes_on (substrate_numbered n f.substrates) f ≡ false
        → Executes number planned counted (floor_fired (firing 16 m 7) f) }
    ensures closed_as_much { (number : ℕ) (planned : ℕ → List (List ℕ)) (counted : ℕ → Bool) (f : ToolFloor) (m n : ℕ) (c : Command)
        (fetched : Bool) (sub recipe : List ℕ) → Sound f → Executes number planned counted f
        → module_at m f.modules ≡ Some (Busy c fetched) → c.task ≡ task.Process sub recipe → number_named sub f.places ≡ Some n
        → goes_on (substrate_numbered n f.substrates) f ≡ false
        → owed_to planned counted (picture (floor_fired (firing 16 m 7) f)) ≡ owed_to planned counted (picture f) }
    ensures processed { (number : ℕ) (planned : ℕ → List (List ℕ)) (counted : ℕ → Bool) (f : ToolFloor) (n row d : ℕ) → Sound f
        → IsUnnamed n (picture f) → Executes number planned counted f
        → is_one_of (3 ∷ 4 ∷ []) row ≡ true → floor_starts (firing 13 n row) f ≡ true → (picture f).place_of n ≡ Some (chamber d)
        → is_one_of (next_step n (picture f)) d ≡ true → (picture f).steps_of n + 1 ≡ length ((picture f).jobs.route_of n)
        → (picture f).jobs.is_member n ≡ true → TakesOneOff number planned counted f (floor_fired (firing 13 n row) f) }
{}

/// It executes on as jobs are created, as the order of the queue changes, and as the equipment fetches a command.
pub fn it_executes_on_as_jobs_are_created()
    ensures process { (number : ℕ) (planned : ℕ → List (List ℕ)) (counted : ℕ → Bool) (f : ToolFloor) (spec : JobSpec) → Sound f → AreTogether f.jobs
        → AreStarted f.jobs → Executes number planned counted f → create_fault spec f.jobs.process ≡ None
        → Executes number planned counted (with_jobs (with_process spec f.jobs) f) }
    ensures control { (number : ℕ) (planned : ℕ → List (List ℕ)) (counted : ℕ → Bool) (f : ToolFloor) (name : List ℕ) (named : List (List ℕ))
        (auto : Bool) → Sound f
        → AreTogether f.jobs → AreStarted f.jobs → Executes number planned counted f → control_fault name named f.jobs ≡ None
        → Executes number planned counted (with_jobs (with_control name named auto f.jobs) f) }
    ensures head { (number : ℕ) (planned : ℕ → List (List ℕ)) (counted : ℕ → Bool) (f : ToolFloor) (name : List ℕ) → Sound f → AreTogether f.jobs
        → AreStarted f.jobs
        → Executes number planned counted f → Executes number planned counted (with_jobs (record f.jobs { control = headed name f.jobs.control }) f) }
    ensures fetched { (number : ℕ) (planned : ℕ → List (List ℕ)) (counted : ℕ → Bool) (f : ToolFloor) (m : ℕ) → Executes number planned counted f
        → Executes number planned counted (fetched m f) }
{}

/// As an input comes it is at work and as much is owed, and so it is behind each row that a word fires, as jobs are created and as the
/// order of the queue changes, or it is disturbed for good. Where all that the input does is calm it executes then, and as much is owed.
pub fn an_input_leaves_it_at_work_or_disturbs_it_for_good()
    ensures comes { (number : ℕ) (planned : ℕ → List (List ℕ)) (counted : ℕ → Bool) (f : ToolFloor) → Executes number planned counted f
        → WorksOrIsDisturbed number planned counted f f }
    ensures word { (number : ℕ) (planned : ℕ → List (List ℕ)) (counted : ℕ → Bool) (before f : ToolFloor) (x : Firing) → InOrder f → is_word x ≡ true
        → floor_starts x f ≡ true → WorksOrIsDisturbed number planned counted before f
        → WorksOrIsDisturbed number planned counted before (floor_fired x f) }
    ensures process { (number : ℕ) (planned : ℕ → List (List ℕ)) (counted : ℕ → Bool) (before f : ToolFloor) (spec : JobSpec) → InOrder f
        → create_fault spec f.jobs.process ≡ None → WorksOrIsDisturbed number planned counted before f
        → WorksOrIsDisturbed number planned counted before (with_jobs (with_process spec f.jobs) f) }
    ensures control { (number : ℕ) (planned : ℕ → List (List ℕ)) (counted : ℕ → Bool) (before f : ToolFloor) (name : List ℕ)
        (named : List (List ℕ)) (auto : Bool)
        → InOrder f → control_fault name named f.jobs ≡ None → WorksOrIsDisturbed number planned counted before f
        → WorksOrIsDisturbed number planned counted before (with_jobs (with_control name named auto f.jobs) f) }
    ensures head { (number : ℕ) (planned : ℕ → List (List ℕ)) (counted : ℕ → Bool) (before f : ToolFloor) (name : List ℕ) → InOrder f
        → WorksOrIsDisturbed number planned counted before f
        → WorksOrIsDisturbed number planned counted before (with_jobs (record f.jobs { control = headed name f.jobs.control }) f) }
    ensures executes { (number : ℕ) (planned : ℕ → List (List ℕ)) (counted : ℕ → Bool) (before f : ToolFloor)
        → WorksOrIsDisturbed number planned counted before f
        → IsCalmBetween number counted before f → Executes number planned counted f }
    ensures as_much { (number : ℕ) (planned : ℕ → List (List ℕ)) (counted : ℕ → Bool) (before f : ToolFloor)
        → WorksOrIsDisturbed number planned counted before f
        → IsCalmBetween number counted before f → owed_to planned counted (picture f) ≡ owed_to planned counted (picture before) }
{}

/// Each substrate is in no process job, or in one that is kept: so it is as the tool begins, and behind each row of a process job.
pub fn each_substrate_is_in_a_job_that_is_kept()
    ensures opening { (ports chambers : ℕ) (recipes : List Recipe) → AreInKeptJobs (opening ports chambers recipes) }
    ensures process { (f : ToolFloor) (n row : ℕ) (j : ProcessJob) → AreInKeptJobs f → Sound f
        → process_numbered n f.jobs.process.kept ≡ Some j → AreInKeptJobs (floor_fired (firing 14 n row) f) }
{}

/// An unfinished substrate in its slot isn't aligned, wherever the floor is in order (`InOrder`). It is in order as the tool begins, and
/// stays so behind the least row that is ready by itself, behind each row that keeps it wherever it starts, and by what the equipment and
/// the operator say: by all rows that this fires, one behind the other.
pub fn an_unfinished_substrate_in_its_slot_is_not_aligned()
    ensures unaligned { (f : ToolFloor) → InOrder f → AreUnaligned (picture f) }
    ensures begins { (ports chambers : ℕ) (recipes : List Recipe) → ports ≤ most_ports → InOrder (opening ports chambers recipes) }
    ensures ready { (x : Firing) (f : ToolFloor) → floor_least f ≡ Some x → InOrder f → InOrder (floor_fired x f) }
    ensures alone { (x : Firing) (f : ToolFloor) → floor_starts x f ≡ true → is_common x ≡ true → InOrder f → InOrder (floor_fired x f) }
    ensures fetched { (m : ℕ) (f : ToolFloor) → InOrder f → InOrder (fetched m f) }
    ensures done { (m command : ℕ) (f : ToolFloor) → is_open command (module_at m f.modules) ≡ true → floor_least f ≡ None → InOrder f
        → InOrder (listed (done_rows m f) f) }
    ensures failed { (m command : ℕ) (f : ToolFloor) → is_open command (module_at m f.modules) ≡ true → InOrder f
        → InOrder (listed (closing_rows 8 m f) f) }
    ensures down { (m : ℕ) (f : ToolFloor) → is_up (module_at m f.modules) ≡ true → InOrder f → InOrder (listed (closing_rows 9 m f) f) }
    ensures lost { (sub : List ℕ) (f : ToolFloor) → InOrder f → InOrder (listed (lost_rows sub f) f) }
{}

/// The floor stays in order where no row is ready at the load ports and the carriers, and a carrier is placed at a port or removed from
/// one; by what the host asks of carriers and is done; as jobs are created; and as the order of the queue changes.
pub fn the_floor_stays_in_order_as_carriers_and_jobs_come_and_go()
    ensures placed { (port : ℕ) (name : Option (List ℕ)) (slots : List ℕ) (f : ToolFloor) → floor_starts (firing 4 port 3) f ≡ true
        → shop.floor_least f.shop ≡ None → InOrder f
        → InOrder (floor_fired (firing 4 port 3) (with_shop (came port (arrival_of port name slots f.shop.carriers) f.shop) f)) }
    ensures removed { (port : ℕ) (f : ToolFloor) → floor_starts (firing 4 port 5) f ≡ true
        → floor_starts (firing 7 port 6) (floor_fired (firing 4 port 5) f) ≡ true → shop.floor_least f.shop ≡ None → InOrder f
        → InOrder (floor_fired (firing 7 port 6) (floor_fired (firing 4 port 5) f)) }
    ensures left { (port : ℕ) (f : ToolFloor) → floor_starts (firing 4 port 5) f ≡ true
        → floor_starts (firing 7 port 6) (floor_fired (firing 4 port 5) f) ≡ false → InOrder f
        → InOrder (floor_fired (firing 4 port 5) f) }
    ensures written { (a : CarrierAction) (f : ToolFloor) → is_done_code (carrier_code f.shop a) ≡ true → InOrder f
        → InOrder (with_shop (carrier_written a f.shop) f) }
    ensures unbound { (port : ℕ) (f : ToolFloor) → floor_starts (firing 7 port 2) f ≡ true
        → ((name : List ℕ) → owner (port_numbered port f.shop.ports) ≡ Some name
        → AllByRecursion (λ (c : Carrier). has_name name c ≡ true → c.present ≡ true → ⊥) f.shop.carriers) → InOrder f
        → InOrder (floor_fired (firing 7 port 2) f) }
    ensures cancelled { (n : ℕ) (c : Carrier) (f : ToolFloor) → carrier_numbered n f.shop.carriers ≡ Some c
        → floor_starts (firing 10 n 4) f ≡ true → is_any_of_carrier c.name f.jobs ≡ false → InOrder f
        → InOrder (floor_fired (firing 10 n 4) f) }
    ensures process { (spec : JobSpec) (f : ToolFloor) → create_fault spec f.jobs.process ≡ None → InOrder f
        → InOrder (with_jobs (with_process spec f.jobs) f) }
    ensures control { (name : List ℕ) (named : List (List ℕ)) (auto : Bool) (f : ToolFloor) → control_fault name named f.jobs ≡ None
        → InOrder f → InOrder (with_jobs (with_control name named auto f.jobs) f) }
    ensures head { (name : List ℕ) (f : ToolFloor) → InOrder f
        → InOrder (with_jobs (record f.jobs { control = headed name f.jobs.control }) f) }
{}
