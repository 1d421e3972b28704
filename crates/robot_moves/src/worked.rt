//! Worked moves, computed from the definitions. Each function is a statement about them, and has no code.

ghost use Rattle.std.specs.Prelude.{◌≡◌, [], ◌∷◌, Some, None, codes};
ghost use Rattle.gem_ids.specs.declared.numbers.LocId.TheVariants as loc;
ghost use Rattle.tool_tasks.specs.declared.task.Task.TheVariants as task;
ghost use Rattle.robot_moves.specs.Modules.{first_modules};
ghost use Rattle.robot_moves.specs.Moves.{move_by, next_move};
ghost use Rattle.robot_moves.specs.Worked.{slot, first_wafer, on_arm, at_aligner, in_chamber, finished_in, first_finished_in, second_wafer, between_steps_in, between_steps_on_arm, all_idle, three_idle, third_chamber_busy, aligner_down, first_chamber_busy};

/// A substrate alone in its slot, whose job is PROCESSING, is picked where all modules are Idle; it is not where the aligner is
/// Down, since its target is not free then.
pub fn a_substrate_is_picked()
    ensures idle { next_move (first_wafer ∷ []) (first_modules 2) ≡ Some (move_by 1 2 (task.Pick (codes "CAR01.01") (slot 1))) }
    ensures down { next_move (first_wafer ∷ []) aligner_down ≡ None }
{}

/// What the arm holds goes to the least numbered chamber of its next step that is empty and Idle.
pub fn a_substrate_goes_on_from_the_arm()
    ensures idle { next_move (on_arm ∷ []) all_idle ≡ Some (move_by 1 1 (task.Place (codes "CAR01.01") (loc.Chamber 1))) }
    ensures busy { next_move (on_arm ∷ []) first_chamber_busy ≡ Some (move_by 1 1 (task.Place (codes "CAR01.01") (loc.Chamber 2))) }
    ensures occupied { next_move (on_arm ∷ finished_in 1 ∷ []) all_idle ≡ Some (move_by 1 1 (task.Place (codes "CAR01.01") (loc.Chamber 2))) }
{}

/// What is finished in a chamber is picked before what is aligned at the aligner, whatever their numbers, and that before what is
/// in its slot; of two in chambers the one in the chamber of the greater number, whatever their own numbers. Of two in their slots
/// it is the one that was registered first, wherever it is told of.
pub fn the_fullest_stage_goes_first()
    ensures chamber { next_move (first_wafer ∷ at_aligner ∷ finished_in 2 ∷ []) all_idle ≡ Some (move_by 1 2 (task.Pick (codes "CAR01.03") (loc.Chamber 2))) }
    ensures aligner { next_move (first_wafer ∷ at_aligner ∷ []) all_idle ≡ Some (move_by 1 2 (task.Pick (codes "CAR01.02") loc.Aligner)) }
    ensures chambers { next_move (first_finished_in 1 ∷ finished_in 2 ∷ []) all_idle ≡ Some (move_by 1 2 (task.Pick (codes "CAR01.03") (loc.Chamber 2))) }
    ensures registered { next_move (second_wafer ∷ first_wafer ∷ []) all_idle ≡ Some (move_by 1 2 (task.Pick (codes "CAR01.01") (slot 1))) }
{}

/// A chamber processes what it holds; the aligner aligns what it holds.
pub fn a_module_begins_with_what_it_holds()
    ensures chamber { next_move (in_chamber 2 ∷ []) all_idle ≡ Some (move_by 4 4 (task.Process (codes "CAR01.03") (codes "R1"))) }
    ensures aligner { next_move (record first_wafer { at = loc.Aligner } ∷ []) all_idle ≡ Some (move_by 2 3 (task.Align (codes "CAR01.01"))) }
    ensures nothing { next_move [] all_idle ≡ None }
{}

/// On a route of two steps, chambers 1 and 2 and then chamber 3: what is done with its first step in chamber 1 isn't processed there
/// again, it is picked where chamber 3 is empty and Idle, and waits where that is Busy. From the arm it goes to chamber 3 alone, which
/// processes it.
pub fn a_substrate_goes_on_to_its_next_step()
    ensures picked { next_move (between_steps_in 1 ∷ []) three_idle ≡ Some (move_by 1 2 (task.Pick (codes "CAR01.03") (loc.Chamber 1))) }
    ensures busy { next_move (between_steps_in 1 ∷ []) third_chamber_busy ≡ None }
    ensures placed { next_move (between_steps_on_arm ∷ []) three_idle ≡ Some (move_by 1 1 (task.Place (codes "CAR01.03") (loc.Chamber 3))) }
    ensures waits { next_move (between_steps_on_arm ∷ []) third_chamber_busy ≡ None }
    ensures processed { next_move (between_steps_in 3 ∷ []) three_idle ≡ Some (move_by 5 4 (task.Process (codes "CAR01.03") (codes "R1"))) }
{}
