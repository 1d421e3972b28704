//! Worked answers and numbers, computed from the definitions. Each function is a statement about them, and has no code.

ghost use Rattle.std.specs.Prelude.{◌≡◌, [], ◌∷◌};
ghost use Rattle.tool_events.specs.declared.event.Signal.TheVariants.{Done, Failed};
ghost use Rattle.sim_modules.specs.Acting.{answered, begun, one_more};
ghost use Rattle.sim_modules.specs.Drawing.{drawn};
ghost use Rattle.sim_modules.specs.Worked.{third, process};

/// Module 3, whose plan has the second act, does command 6 and fails at command 9. Behind that it does what it is told.
pub fn a_module_fails_at_the_acts_of_its_plan()
    ensures first { answered (begun third (2 ∷ [])) (process 6) ≡ Done third (record { 0 = 6 }) }
    ensures second { answered (one_more (begun third (2 ∷ []))) (process 9) ≡ Failed third (record { 0 = 9 }) }
    ensures third { answered (one_more (one_more (begun third (2 ∷ [])))) (process 9) ≡ Done third (record { 0 = 9 }) }
{}

/// Behind a seed of zero the step alone is drawn, and behind a seed of one the sum of factor and step.
pub fn numbers_are_drawn_from_the_seed()
    ensures zero { drawn 0 ≡ 1442695040888963407 }
    ensures one { drawn 1 ≡ 7806831264735756412 }
{}
