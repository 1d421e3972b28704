//! Worked recipes, computed from the definitions. The function is a statement about them, and has no code.

ghost use Rattle.std.specs.Prelude.{◌≡◌, true, false, [], ◌∷◌};
ghost use Rattle.tool_events.specs.Configs.{is_usable};
ghost use Rattle.tool_events.specs.Worked.{by_route};

/// A tool can use a recipe of one to six steps that rise, each with a chamber of the tool.
pub fn a_tool_can_use_a_recipe()
    ensures one_step { is_usable 1 (by_route ((1 ∷ 2 ∷ []) ∷ [])) ≡ true }
    ensures two_steps { is_usable 3 (by_route ((1 ∷ 2 ∷ []) ∷ (3 ∷ []) ∷ [])) ≡ true }
    ensures six_steps { is_usable 8 (by_route ((1 ∷ []) ∷ (2 ∷ []) ∷ (3 ∷ []) ∷ (4 ∷ 5 ∷ []) ∷ (6 ∷ []) ∷ (7 ∷ 8 ∷ []) ∷ [])) ≡ true }
    ensures seven_steps { is_usable 8 (by_route ((1 ∷ []) ∷ (2 ∷ []) ∷ (3 ∷ []) ∷ (4 ∷ []) ∷ (5 ∷ []) ∷ (6 ∷ []) ∷ (7 ∷ []) ∷ [])) ≡ false }
    ensures no_step { is_usable 8 (by_route []) ≡ false }
    ensures chamber_before { is_usable 3 (by_route ((2 ∷ []) ∷ (1 ∷ []) ∷ [])) ≡ false }
    ensures chamber_again { is_usable 3 (by_route ((1 ∷ 2 ∷ []) ∷ (2 ∷ 3 ∷ []) ∷ [])) ≡ false }
    ensures no_chamber { is_usable 2 (by_route ((1 ∷ 2 ∷ []) ∷ (3 ∷ []) ∷ [])) ≡ false }
{}
