//! Worked routes, computed from the definitions. Each function is a statement about them, and has no code.

ghost use Rattle.std.specs.Prelude.{◌≡◌, true, false, [], ◌∷◌};
ghost use Rattle.tool_tasks.specs.Chambers.{chamber_set, chamber_list, chambers_to};
ghost use Rattle.tool_tasks.specs.Routes.{is_before, rises, step_at};

/// A set has the chambers that were put into it, whatever their order, and the set of all chambers has eight.
pub fn a_set_has_chambers()
    ensures in_order { chamber_list (chamber_set (8 ∷ 2 ∷ 5 ∷ [])) ≡ 2 ∷ 5 ∷ 8 ∷ [] }
    ensures all { chamber_list (chambers_to 8) ≡ 1 ∷ 2 ∷ 3 ∷ 4 ∷ 5 ∷ 6 ∷ 7 ∷ 8 ∷ [] }
    ensures none { chamber_list (chambers_to 0) ≡ [] }
{}

/// Each chamber of a step has a greater number than each of the step before.
pub fn a_route_rises()
    ensures rises { rises (chamber_set (1 ∷ 2 ∷ []) ∷ chamber_set (3 ∷ []) ∷ chamber_set (4 ∷ 8 ∷ []) ∷ []) ≡ true }
    ensures one_step { rises (chamber_set (2 ∷ 1 ∷ []) ∷ []) ≡ true }
    ensures falls { rises (chamber_set (2 ∷ []) ∷ chamber_set (1 ∷ []) ∷ []) ≡ false }
    ensures same_chamber { rises (chamber_set (1 ∷ 2 ∷ []) ∷ chamber_set (2 ∷ 3 ∷ []) ∷ []) ≡ false }
    ensures last_falls { rises (chamber_set (1 ∷ []) ∷ chamber_set (3 ∷ []) ∷ chamber_set (2 ∷ 4 ∷ []) ∷ []) ≡ false }
    ensures before { is_before (chamber_set (1 ∷ 3 ∷ [])) (chamber_set (4 ∷ [])) ≡ true }
    ensures not_before { is_before (chamber_set (1 ∷ 4 ∷ [])) (chamber_set (3 ∷ [])) ≡ false }
{}

/// Steps have numbers from 0 on; past the last there is no chamber.
pub fn a_step_has_a_number()
    ensures first { step_at 0 (chamber_set (1 ∷ []) ∷ chamber_set (3 ∷ []) ∷ []) ≡ chamber_set (1 ∷ []) }
    ensures second { step_at 1 (chamber_set (1 ∷ []) ∷ chamber_set (3 ∷ []) ∷ []) ≡ chamber_set (3 ∷ []) }
    ensures past { step_at 2 (chamber_set (1 ∷ []) ∷ chamber_set (3 ∷ []) ∷ []) ≡ 0 }
{}
