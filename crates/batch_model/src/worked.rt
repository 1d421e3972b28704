//! Worked messages and choices, computed from the definitions. Each function is a statement about them, and has no code.

ghost use Rattle.std.specs.Prelude.{◌≡◌, ◌∷◌, [], codes, true, false, Some, None};
ghost use Rattle.gem_ids.specs.declared.numbers.CmdNo.{CmdNo};
ghost use Rattle.robot_moves.specs.declared.module.Module.TheVariants.{Idle, Busy};
ghost use Rattle.tool_tasks.specs.declared.task.Task.TheVariants as task;
ghost use Rattle.batch_model.specs.declared.primary.Primary.TheVariants as primary;
ghost use Rattle.batch_model.specs.Host.{enable_request, primary_in, answer_to};
ghost use Rattle.batch_model.specs.Modules.{fetched_from, chosen};

/// The messages of the host of a tool whose device is 0: S2F37 L[BOOL true, L[]], and the answers to S1F13, S1F14 L[B 0, L[]], and to
/// S6F11, S6F12 B 0.
pub fn the_host_sends_these_messages()
    ensures enable { enable_request 0 ≡ record { header = record { session = 0; byte2 = 130; byte3 = 37; ptype = 0; stype = 0; system = 2 }; text = 1 ∷ 2 ∷ 37 ∷ 1 ∷ 1 ∷ 1 ∷ 0 ∷ [] } }
    ensures establish { answer_to 0 (primary.EstablishRequest 1) ≡ record { header = record { session = 0; byte2 = 1; byte3 = 14; ptype = 0; stype = 0; system = 1 }; text = 1 ∷ 2 ∷ 33 ∷ 1 ∷ 0 ∷ 1 ∷ 0 ∷ [] } }
    ensures event { answer_to 0 (primary.EventReport 7) ≡ record { header = record { session = 0; byte2 = 6; byte3 = 12; ptype = 0; stype = 0; system = 7 }; text = 33 ∷ 1 ∷ 0 ∷ [] } }
{}

/// The messages of the tool that are answered are S1F13 and S6F11. An alarm, a reply, a control message and what is no frame are not.
pub fn two_primaries_are_answered()
    ensures establish { primary_in (0 ∷ 0 ∷ 0 ∷ 10 ∷ 0 ∷ 0 ∷ 129 ∷ 13 ∷ 0 ∷ 0 ∷ 0 ∷ 0 ∷ 0 ∷ 1 ∷ []) ≡ Some (primary.EstablishRequest 1) }
    ensures event { primary_in (0 ∷ 0 ∷ 0 ∷ 10 ∷ 0 ∷ 0 ∷ 134 ∷ 11 ∷ 0 ∷ 0 ∷ 0 ∷ 0 ∷ 1 ∷ 7 ∷ []) ≡ Some (primary.EventReport 263) }
    ensures alarm { primary_in (0 ∷ 0 ∷ 0 ∷ 10 ∷ 0 ∷ 0 ∷ 133 ∷ 1 ∷ 0 ∷ 0 ∷ 0 ∷ 0 ∷ 0 ∷ 7 ∷ []) ≡ None }
    ensures reply { primary_in (0 ∷ 0 ∷ 0 ∷ 10 ∷ 0 ∷ 0 ∷ 2 ∷ 38 ∷ 0 ∷ 0 ∷ 0 ∷ 0 ∷ 0 ∷ 2 ∷ []) ≡ None }
    ensures control { primary_in (0 ∷ 0 ∷ 0 ∷ 10 ∷ 255 ∷ 255 ∷ 134 ∷ 11 ∷ 0 ∷ 5 ∷ 0 ∷ 0 ∷ 0 ∷ 7 ∷ []) ≡ None }
    ensures short { primary_in (0 ∷ 0 ∷ 0 ∷ 10 ∷ 0 ∷ 0 ∷ 129 ∷ 13 ∷ 0 ∷ 0 ∷ 0 ∷ 0 ∷ 0 ∷ []) ≡ None }
{}

/// Modules 1 and 4 have a fetched command, module 2 is Idle, and module 3 has one that wasn't fetched. The number drawn behind 0,
/// 1442695040888963407, holds 2 ^ 33 an odd number of times, 167951807, and so chooses the second of the two.
pub fn a_drawn_number_chooses_a_module()
    ensures fetched { fetched_from 1 (Busy (record { number = record { 0 = 5 }; task = task.Align (codes "A") }) true ∷ Idle
        ∷ Busy (record { number = record { 0 = 6 }; task = task.Align (codes "B") }) false
        ∷ Busy (record { number = record { 0 = 7 }; task = task.Align (codes "C") }) true ∷ [])
        ≡ record { number = record { 0 = 1 }; command = record { 0 = 5 } } ∷ record { number = record { 0 = 4 }; command = record { 0 = 7 } } ∷ [] }
    ensures chosen { chosen 1442695040888963407 (record { number = record { 0 = 1 }; command = record { 0 = 5 } } ∷ record { number = record { 0 = 4 }; command = record { 0 = 7 } } ∷ [])
        ≡ Some (record { number = record { 0 = 4 }; command = record { 0 = 7 } }) }
    ensures none { chosen 1442695040888963407 [] ≡ None }
{}
