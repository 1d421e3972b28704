//! Worked floors, computed from the definitions. Each function is a statement about them, and has no code.

ghost use Rattle.std.specs.Prelude.{◌≡◌, [], ◌∷◌, Some, None, false, codes};
ghost use Rattle.gem_tables.specs.Table.{firing};
ghost use Rattle.gem_ids.specs.declared.numbers.LocId.TheVariants.{Aligner, Arm, Chamber};
ghost use Rattle.tool_tasks.specs.declared.task.Task.TheVariants as task;
ghost use Rattle.substrate.specs.declared.record.Processing.TheVariants.{InProcess, Aborted};
ghost use Rattle.robot_moves.specs.Modules.{module_at};
ghost use Rattle.robot_moves.specs.Moves.{move_by};
ghost use Rattle.robot_moves.specs.declared.module.Module.TheVariants.{Idle};
ghost use Rattle.floor_model.specs.Machines.{floor_starts, floor_fired, floor_least, object_name};
ghost use Rattle.floor_model.specs.Views.{planned};
ghost use Rattle.floor_model.specs.Signals.{done_rows, lost_rows, open_number};
ghost use Rattle.worked_floors.specs.Jobs.{in_job};
ghost use Rattle.worked_floors.specs.Worked.{wafer, own_slot, processing_is, commands_are, is_given, is_down, waiting, in_slot, picking, out_at, placing, aligning, aligned_at, taking, filling, beginning, working, finished_at, returning, back, lost_at, emptied, second_wafer, has_two_slots, second_in_slot, second_aligned_at, second_finished_at, starting, settling, settled, firings, behind, done, failed, went_down, brought_up, said_lost, proceeded, taken_away, all_done, behind_dones};

/// Where the host proceeds with the map, its substrate is registered in its slot, AT SOURCE and NEEDS PROCESSING, and the slot is
/// OCCUPIED. Nothing more fires: no substrate leaves its slot while there is no job.
pub fn a_substrate_is_registered_in_its_slot()
    ensures fired { firings proceeded waiting ≡ firing 9 1 3 ∷ firing 12 1 1 ∷ firing 13 1 1 ∷ firing 11 3 1 ∷ [] }
    ensures floor { behind proceeded waiting ≡ in_slot }
    ensures rest { settling in_slot ≡ [] }
{}

/// Done of the Pick: the substrate is on the arm, and the robot is Idle. Then the carrier is IN ACCESS, the slot is UNOCCUPIED and the
/// arm OCCUPIED, and the substrate is AT WORK, in the order of tables, objects and rows. The robot is given a Place at the aligner.
pub fn a_pick_is_done()
    ensures rest { settling picking ≡ [] }
    ensures open { open_number (module_at 1 picking.modules) ≡ 1 }
    ensures direct { starting (done 1 picking) picking ≡ firing 16 1 5 ∷ [] }
    ensures robot { module_at 1 (floor_fired (firing 16 1 5) picking).modules ≡ Some Idle }
    ensures fired { firings (done 1) picking
        ≡ firing 16 1 5 ∷ firing 10 1 1 ∷ firing 11 3 2 ∷ firing 11 27 1 ∷ firing 12 1 2 ∷ firing 16 1 1 ∷ [] }
    ensures floor { behind (done 1) picking ≡ is_given 1 2 (task.Place wafer Aligner) (out_at Arm) }
{}

/// A substrate on the arm that isn't aligned goes to the aligner, by the next command, where the robot is Idle, and the aligner is
/// Idle and empty.
pub fn what_is_not_aligned_goes_to_the_aligner()
    ensures fired { settling (out_at Arm) ≡ firing 16 1 1 ∷ [] }
    ensures first { settled (out_at Arm) ≡ is_given 1 1 (task.Place wafer Aligner) (out_at Arm) }
    ensures next { settled (commands_are 7 (out_at Arm)) ≡ is_given 1 8 (task.Place wafer Aligner) (out_at Arm) }
    ensures robot_down { settling (is_down 1 (out_at Arm)) ≡ [] }
    ensures aligner_down { settling (is_down 2 (out_at Arm)) ≡ [] }
{}

/// Done of the Place: the substrate is at the aligner, which is OCCUPIED, and the arm is UNOCCUPIED. The aligner is given an Align.
pub fn a_place_is_done()
    ensures rest { settling placing ≡ [] }
    ensures fired { firings (done 1) placing ≡ firing 16 1 5 ∷ firing 11 26 1 ∷ firing 11 27 2 ∷ firing 16 2 3 ∷ [] }
    ensures floor { behind (done 1) placing ≡ is_given 2 3 (task.Align wafer) (out_at Aligner) }
{}

/// Done of the Align: the substrate is aligned, where it is. It is of no job, so that it has no next step, and no chamber that it can go to.
pub fn an_align_is_done()
    ensures rest { settling aligning ≡ [] }
    ensures fired { firings (done 2) aligning ≡ firing 16 2 6 ∷ [] }
    ensures floor { behind (done 2) aligning ≡ commands_are 3 (aligned_at Aligner) }
{}

/// The way out: a Pick, a Place at the aligner and an Align are done, one after the other.
pub fn a_substrate_goes_out_to_the_aligner()
    ensures fired { all_done (1 ∷ 1 ∷ 2 ∷ []) picking
        ≡ firing 16 1 5 ∷ firing 10 1 1 ∷ firing 11 3 2 ∷ firing 11 27 1 ∷ firing 12 1 2 ∷ firing 16 1 1
        ∷ firing 16 1 5 ∷ firing 11 26 1 ∷ firing 11 27 2 ∷ firing 16 2 3
        ∷ firing 16 2 6 ∷ [] }
    ensures floor { behind_dones (1 ∷ 1 ∷ 2 ∷ []) picking ≡ commands_are 3 (aligned_at Aligner) }
{}

/// What is aligned and unfinished stays on the arm and at the aligner, as long as its next step has no chamber, which is so where it is of
/// no job.
pub fn what_is_of_no_job_goes_to_no_chamber()
    ensures arm { settling (aligned_at Arm) ≡ [] }
    ensures aligner { settling (aligned_at Aligner) ≡ [] }
{}

/// Where the robot has a Pick at the aligner, and then a Place in a chamber, by hand: Done of the one puts the substrate on the arm, and
/// Done of the other in the chamber. It is of no job, so that it has no next step, and the chamber is given no Process.
pub fn a_substrate_goes_on_to_a_chamber()
    ensures picked { firings (done 1) taking ≡ firing 16 1 5 ∷ firing 11 26 2 ∷ firing 11 27 1 ∷ [] }
    ensures picked_floor { behind (done 1) taking ≡ commands_are 4 (aligned_at Arm) }
    ensures placed { firings (done 1) filling ≡ firing 16 1 5 ∷ firing 11 27 2 ∷ firing 11 28 1 ∷ [] }
    ensures placed_floor { behind (done 1) filling ≡ commands_are 5 (aligned_at (Chamber 1)) }
{}

/// A chamber that is Idle is given a Process of what it holds, where it is in the next step of that. Then the substrate is IN PROCESS. A
/// chamber that is Down is given none, nor is one that holds a substrate of no job.
pub fn a_chamber_begins_with_what_it_holds()
    ensures first { settling (in_job (aligned_at (Chamber 1))) ≡ firing 16 3 4 ∷ firing 13 1 2 ∷ [] }
    ensures second { settling (in_job (aligned_at (Chamber 2))) ≡ firing 16 4 4 ∷ firing 13 1 2 ∷ [] }
    ensures floor { settled (in_job (aligned_at (Chamber 1)))
        ≡ in_job (processing_is InProcess (is_given 3 1 (task.Process wafer (codes "R1")) (aligned_at (Chamber 1)))) }
    ensures placed { firings (done 1) (in_job filling) ≡ firing 16 1 5 ∷ firing 11 27 2 ∷ firing 11 28 1 ∷ firing 16 3 4 ∷ firing 13 1 2 ∷ [] }
    ensures down { settling (is_down 3 (in_job (aligned_at (Chamber 1)))) ≡ [] }
    ensures no_job { settling (aligned_at (Chamber 1)) ≡ [] }
{}

/// A substrate that an open Process names is IN PROCESS, and no more is ready.
pub fn a_substrate_is_in_process()
    ensures ready { floor_least beginning ≡ Some (firing 13 1 2) }
    ensures fired { settling beginning ≡ firing 13 1 2 ∷ [] }
    ensures floor { settled beginning ≡ working }
{}

/// Done of the Process: the chamber is Idle, and then the substrate is PROCESSED, in its chamber. The robot is given a Pick of it.
pub fn a_process_is_done()
    ensures direct { starting (done 3 working) working ≡ firing 16 3 7 ∷ firing 13 1 3 ∷ [] }
    ensures fired { firings (done 3) working ≡ firing 16 3 7 ∷ firing 13 1 3 ∷ firing 16 1 2 ∷ [] }
    ensures floor { behind (done 3) working ≡ is_given 1 7 (task.Pick wafer (Chamber 1)) (finished_at (Chamber 1)) }
{}

/// Where the Process fails, or its chamber goes down, the chamber is Down, and the substrate is ABORTED, in the chamber. As long as that
/// is Down nothing fires. Where it is brought up, the robot is given a Pick of the substrate.
pub fn a_process_that_ends_otherwise_is_aborted()
    ensures failed { firings (failed 3) working ≡ firing 16 3 8 ∷ firing 13 1 4 ∷ [] }
    ensures down { firings (went_down 3) working ≡ firing 16 3 9 ∷ firing 13 1 4 ∷ [] }
    ensures failed_floor { behind (failed 3) working ≡ commands_are 6 (is_down 3 (processing_is Aborted (aligned_at (Chamber 1)))) }
    ensures down_floor { behind (went_down 3) working ≡ behind (failed 3) working }
    ensures up { firings (brought_up 3) (behind (failed 3) working) ≡ firing 16 3 10 ∷ firing 16 1 2 ∷ [] }
    ensures up_floor { behind (brought_up 3) (behind (failed 3) working)
        ≡ is_given 1 7 (task.Pick wafer (Chamber 1)) (processing_is Aborted (aligned_at (Chamber 1))) }
{}

/// A finished substrate on the arm goes to its own slot, aligned or not. One that is finished at the aligner is picked there, aligned or
/// not.
pub fn what_is_finished_goes_to_its_slot()
    ensures fired { settling (finished_at Arm) ≡ firing 16 1 1 ∷ [] }
    ensures floor { settled (finished_at Arm) ≡ is_given 1 1 (task.Place wafer own_slot) (finished_at Arm) }
    ensures not_aligned { settled (processing_is Aborted (out_at Arm)) ≡ is_given 1 1 (task.Place wafer own_slot) (processing_is Aborted (out_at Arm)) }
    ensures aligner { settling (processing_is Aborted (out_at Aligner)) ≡ firing 16 1 2 ∷ [] }
    ensures picked { settled (processing_is Aborted (out_at Aligner)) ≡ is_given 1 1 (task.Pick wafer Aligner) (processing_is Aborted (out_at Aligner)) }
{}

/// Done of the Place in the slot: the carrier is quiet, so that it is CARRIER COMPLETE, and its port READY TO UNLOAD. Then the slot is
/// OCCUPIED and the arm UNOCCUPIED, and the substrate is AT DESTINATION. It is finished, and stays there.
pub fn a_substrate_is_back_in_its_slot()
    ensures fired { firings (done 1) returning
        ≡ firing 16 1 5 ∷ firing 10 1 2 ∷ firing 4 1 4 ∷ firing 11 3 1 ∷ firing 11 27 2 ∷ firing 12 1 3 ∷ [] }
    ensures floor { behind (done 1) returning ≡ back }
    ensures rest { settling back ≡ [] }
{}

/// The way back: a Process, a Pick in the chamber and a Place in the slot are done, one after the other.
pub fn a_substrate_comes_back_from_its_chamber()
    ensures fired { all_done (3 ∷ 1 ∷ 1 ∷ []) working
        ≡ firing 16 3 7 ∷ firing 13 1 3 ∷ firing 16 1 2
        ∷ firing 16 1 5 ∷ firing 11 27 1 ∷ firing 11 28 2 ∷ firing 16 1 1
        ∷ firing 16 1 5 ∷ firing 10 1 2 ∷ firing 4 1 4 ∷ firing 11 3 1 ∷ firing 11 27 2 ∷ firing 12 1 3 ∷ [] }
    ensures floor { behind_dones (3 ∷ 1 ∷ 1 ∷ []) working ≡ back }
{}

/// Where the carrier is taken away, it and its substrate are forgotten, and the slot is UNOCCUPIED.
pub fn a_carrier_takes_its_substrate_along()
    ensures fired { firings taken_away back ≡ firing 4 1 5 ∷ firing 7 1 6 ∷ firing 11 3 2 ∷ [] }
    ensures floor { behind taken_away back ≡ emptied }
{}

/// A substrate that is outside and that no open command names is lost: it is LOST and has no place. Then its carrier is quiet, so that it
/// is CARRIER COMPLETE, and its port READY TO UNLOAD, and where the substrate was is UNOCCUPIED. It is not lost again.
pub fn what_no_command_names_is_lost()
    ensures fired { firings said_lost (aligned_at Aligner) ≡ firing 13 1 8 ∷ firing 10 1 2 ∷ firing 4 1 4 ∷ firing 11 26 2 ∷ [] }
    ensures floor { behind said_lost (aligned_at Aligner) ≡ lost_at Aligner }
    ensures again { lost_rows wafer (lost_at Aligner) ≡ [] }
    ensures robot_down { firings said_lost (behind (went_down 1) placing) ≡ firing 13 1 8 ∷ firing 10 1 2 ∷ firing 4 1 4 ∷ firing 11 27 2 ∷ [] }
    ensures aborted { firings said_lost (behind (failed 3) working) ≡ firing 13 1 8 ∷ firing 10 1 2 ∷ firing 4 1 4 ∷ firing 11 28 2 ∷ [] }
{}

/// What an open command names is not lost, and what is in its slot is not, nor what the tool doesn't know.
pub fn nothing_else_is_lost()
    ensures placed { lost_rows wafer placing ≡ [] }
    ensures aligned { lost_rows wafer aligning ≡ [] }
    ensures processed { lost_rows wafer working ≡ [] }
    ensures picked { lost_rows wafer picking ≡ [] }
    ensures in_slot { lost_rows wafer in_slot ≡ [] }
    ensures back { lost_rows wafer back ≡ [] }
    ensures unknown { lost_rows (codes "LOT7.04") (aligned_at Aligner) ≡ [] }
{}

/// A module that is Idle goes down, and is brought up. One that is Down doesn't go down again, and one that isn't is not brought up.
pub fn an_idle_module_goes_down_and_comes_up()
    ensures down { firings (went_down 2) in_slot ≡ firing 16 2 9 ∷ [] }
    ensures down_floor { behind (went_down 2) in_slot ≡ is_down 2 in_slot }
    ensures again { firings (went_down 2) (is_down 2 in_slot) ≡ [] }
    ensures up { firings (brought_up 2) (is_down 2 in_slot) ≡ firing 16 2 10 ∷ [] }
    ensures up_floor { behind (brought_up 2) (is_down 2 in_slot) ≡ in_slot }
    ensures not_down { firings (brought_up 2) in_slot ≡ [] }
    ensures target { firings (brought_up 2) (is_down 2 (out_at Arm)) ≡ firing 16 2 10 ∷ firing 16 1 1 ∷ [] }
{}

/// What fails moves nothing: its module is Down, and the command is closed. Where the module is brought up, it is given the same task
/// again, by the next command, where that is still wanted. Down does the same to an open command.
pub fn what_fails_moves_nothing()
    ensures pick { firings (failed 1) picking ≡ firing 16 1 8 ∷ [] }
    ensures pick_floor { behind (failed 1) picking ≡ commands_are 1 (is_down 1 in_slot) }
    ensures pick_down { firings (went_down 1) picking ≡ firing 16 1 9 ∷ [] }
    ensures pick_down_floor { behind (went_down 1) picking ≡ behind (failed 1) picking }
    ensures place { firings (failed 1) placing ≡ firing 16 1 8 ∷ [] }
    ensures place_floor { behind (failed 1) placing ≡ commands_are 2 (is_down 1 (out_at Arm)) }
    ensures place_again { behind (brought_up 1) (behind (failed 1) placing) ≡ is_given 1 3 (task.Place wafer Aligner) (out_at Arm) }
    ensures align { firings (failed 2) aligning ≡ firing 16 2 8 ∷ [] }
    ensures align_floor { behind (failed 2) aligning ≡ commands_are 3 (is_down 2 (out_at Aligner)) }
    ensures align_again { behind (brought_up 2) (behind (failed 2) aligning) ≡ is_given 2 4 (task.Align wafer) (out_at Aligner) }
{}

/// Where a module has no open command, nothing is done, and the rows of Done don't start at it.
pub fn nothing_is_done_without_a_command()
    ensures idle { done_rows 1 in_slot ≡ [] }
    ensures down { done_rows 1 (is_down 1 picking) ≡ [] }
    ensures no_module { done_rows 5 working ≡ [] }
    ensures moves { floor_starts (firing 16 1 5) in_slot ≡ false }
    ensures aligns { floor_starts (firing 16 2 6) in_slot ≡ false }
    ensures processes { floor_starts (firing 16 3 7) in_slot ≡ false }
    ensures not_open { open_number (module_at 1 in_slot.modules) ≡ 0 }
{}

/// What each module is to do: the robot to place what is on its arm, the aligner to align and a chamber to process what it holds, and the
/// robot to pick what is finished in a chamber. What is in its slot may not start, so that the robot has nothing to pick there.
pub fn each_module_is_to_do_what_its_substrate_wants()
    ensures robot { planned 1 (out_at Arm) ≡ Some (move_by 1 1 (task.Place wafer Aligner)) }
    ensures aligner { planned 2 (out_at Aligner) ≡ Some (move_by 2 3 (task.Align wafer)) }
    ensures chamber { planned 4 (in_job (out_at (Chamber 2))) ≡ Some (move_by 4 4 (task.Process wafer (codes "R1"))) }
    ensures finished { planned 1 (finished_at (Chamber 2)) ≡ Some (move_by 1 2 (task.Pick wafer (Chamber 2))) }
    ensures finished_chamber { planned 4 (finished_at (Chamber 2)) ≡ None }
    ensures in_slot { planned 1 in_slot ≡ None }
    ensures other_chamber { planned 3 (in_job (out_at (Chamber 2))) ≡ None }
{}

/// Where two slots are occupied, each substrate in slot order fires its row of transport and then that of processing.
pub fn two_substrates_are_registered_in_slot_order()
    ensures fired { firings proceeded (has_two_slots waiting)
        ≡ firing 9 1 3 ∷ firing 12 1 1 ∷ firing 13 1 1 ∷ firing 12 2 1 ∷ firing 13 2 1 ∷ firing 11 3 1 ∷ firing 11 7 1 ∷ [] }
    ensures floor { behind proceeded (has_two_slots waiting) ≡ second_in_slot in_slot }
{}

/// As long as one substrate of a carrier is outside, the carrier is not quiet, and stays IN ACCESS, whether the other comes back or is
/// lost. A substrate that never left its slot does not keep it.
pub fn a_carrier_waits_for_each_of_its_substrates()
    ensures outside { firings (done 1) (second_aligned_at Aligner returning)
        ≡ firing 16 1 5 ∷ firing 11 3 1 ∷ firing 11 27 2 ∷ firing 12 1 3 ∷ [] }
    ensures lost { firings said_lost (second_aligned_at Arm (aligned_at Aligner)) ≡ firing 13 1 8 ∷ firing 11 26 2 ∷ [] }
    ensures in_slot { firings (done 1) (second_in_slot returning)
        ≡ firing 16 1 5 ∷ firing 10 1 2 ∷ firing 4 1 4 ∷ firing 11 3 1 ∷ firing 11 27 2 ∷ firing 12 1 3 ∷ [] }
{}

/// A substrate on the arm doesn't go to an aligner that another one occupies. Of two picks that are useful the robot is given that of the
/// chamber, whatever their numbers, and of two in chambers that of the chamber of the greater number.
pub fn two_substrates_make_way_for_each_other()
    ensures occupied { settling (second_aligned_at Aligner (out_at Arm)) ≡ [] }
    ensures stage { planned 1 (second_finished_at (Chamber 2) (finished_at Aligner)) ≡ Some (move_by 1 2 (task.Pick second_wafer (Chamber 2))) }
    ensures chambers { planned 1 (second_finished_at (Chamber 2) (finished_at (Chamber 1))) ≡ Some (move_by 1 2 (task.Pick second_wafer (Chamber 2))) }
    ensures first { planned 1 (second_finished_at (Chamber 1) (finished_at (Chamber 2))) ≡ Some (move_by 1 2 (task.Pick wafer (Chamber 2))) }
{}

/// The objects of the firings have their names: a port's, a carrier's, a location's and a substrate's. A module has none.
pub fn objects_have_their_names()
    ensures port { object_name (firing 4 1 4) in_slot ≡ codes "P1" }
    ensures carrier { object_name (firing 10 1 1) in_slot ≡ codes "LOT7" }
    ensures slot { object_name (firing 11 3 2) in_slot ≡ codes "P1.03" }
    ensures last_slot { object_name (firing 11 25 1) in_slot ≡ codes "P1.25" }
    ensures aligner { object_name (firing 11 26 1) in_slot ≡ codes "AL" }
    ensures arm { object_name (firing 11 27 1) in_slot ≡ codes "ARM" }
    ensures chamber { object_name (firing 11 28 1) in_slot ≡ codes "C1" }
    ensures last_chamber { object_name (firing 11 29 1) in_slot ≡ codes "C2" }
    ensures transport { object_name (firing 12 1 2) in_slot ≡ codes "LOT7.03" }
    ensures processing { object_name (firing 13 1 2) in_slot ≡ codes "LOT7.03" }
    ensures equipment { object_name (firing 16 1 5) in_slot ≡ [] }
{}
