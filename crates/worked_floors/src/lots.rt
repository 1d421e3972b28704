//! A lot of one substrate in the tool, computed from the definitions. Each function is a statement about them, and has no code.

ghost use Rattle.std.specs.Prelude.{◌≡◌, [], ◌∷◌, map, true, false, codes, Some};
ghost use Rattle.tool_tasks.specs.declared.words.JobWord.TheVariants.{Pause, Stop, Abort};
ghost use Rattle.substrate.specs.declared.record.Transport.TheVariants.{AtSource};
ghost use Rattle.lot_laws.specs.Lot.{first_naming, counted_of, total};
ghost use Rattle.gem_model.specs.Run.{after_all};
ghost use Rattle.history_laws.specs.Completes.{control_of, has_completed, dones};
ghost use Rattle.history_laws.specs.Calm.{is_calm};
ghost use Rattle.worked_floors.specs.Worked.{wafer_with};
ghost use Rattle.worked_floors.specs.Jobs.{by_two_steps, created, named_twice};
ghost use Rattle.worked_floors.specs.Lots.{begun, begun_twice, begun_by_two_steps, did_from, failed_at, was_down, said, are_calm};

/// A lot of one substrate runs calm through its eight Dones, no row that they fire disturbing its control job, which takes eight
/// commands; and that has completed behind the eighth, and not behind the seventh.
pub fn a_lot_of_one_substrate_runs_calm()
    ensures commands { total 1 (created true) ≡ 8 }
    ensures calm { are_calm 1 (counted_of 1 (created true)) begun (did_from 1 (1 ∷ 1 ∷ 2 ∷ 1 ∷ 1 ∷ 3 ∷ 1 ∷ 1 ∷ [])) ≡ true }
    ensures dones { dones begun (did_from 1 (1 ∷ 1 ∷ 2 ∷ 1 ∷ 1 ∷ 3 ∷ 1 ∷ 1 ∷ [])) ≡ 8 }
    ensures seventh { has_completed (control_of 1 (after_all begun (did_from 1 (1 ∷ 1 ∷ 2 ∷ 1 ∷ 1 ∷ 3 ∷ 1 ∷ [])))) ≡ false }
    ensures eighth { has_completed (control_of 1 (after_all begun (did_from 1 (1 ∷ 1 ∷ 2 ∷ 1 ∷ 1 ∷ 3 ∷ 1 ∷ 1 ∷ [])))) ≡ true }
{}

/// A lot of one substrate whose slot two process jobs name: the one takes it that its control job names first, though that was created
/// last. It takes eight commands, and the control job, in which the other one is left then without a substrate, has completed behind the
/// eighth Done, and not behind the seventh.
pub fn the_first_of_two_process_jobs_takes_a_substrate()
    ensures first { first_naming 1 named_twice (wafer_with AtSource) ≡ Some (codes "PJ2") }
    ensures commands { total 1 named_twice ≡ 8 }
    ensures taken { map (λ s. s.job) begun_twice.floor.substrates ≡ 2 ∷ [] }
    ensures seventh { has_completed (control_of 1 (after_all begun_twice (did_from 1 (1 ∷ 1 ∷ 2 ∷ 1 ∷ 1 ∷ 3 ∷ 1 ∷ [])))) ≡ false }
    ensures eighth { has_completed (control_of 1 (after_all begun_twice (did_from 1 (1 ∷ 1 ∷ 2 ∷ 1 ∷ 1 ∷ 3 ∷ 1 ∷ 1 ∷ [])))) ≡ true }
{}

/// A lot of one substrate by a route of two steps takes eleven commands, runs calm through their Dones, and has completed behind the
/// eleventh, and not behind the tenth.
pub fn a_lot_by_two_steps_takes_eleven_commands()
    ensures commands { total 1 (by_two_steps (created true)) ≡ 11 }
    ensures calm { are_calm 1 (counted_of 1 (created true)) begun_by_two_steps (did_from 1 (1 ∷ 1 ∷ 2 ∷ 1 ∷ 1 ∷ 3 ∷ 1 ∷ 1 ∷ 4 ∷ 1 ∷ 1 ∷ [])) ≡ true }
    ensures tenth { has_completed (control_of 1 (after_all begun_by_two_steps (did_from 1 (1 ∷ 1 ∷ 2 ∷ 1 ∷ 1 ∷ 3 ∷ 1 ∷ 1 ∷ 4 ∷ 1 ∷ [])))) ≡ false }
    ensures eleventh { has_completed (control_of 1 (after_all begun_by_two_steps (did_from 1 (1 ∷ 1 ∷ 2 ∷ 1 ∷ 1 ∷ 3 ∷ 1 ∷ 1 ∷ 4 ∷ 1 ∷ 1 ∷ [])))) ≡ true }
{}

/// It is not calm where a module fails at its command or goes down, or its process job is paused, stopped or aborted.
pub fn what_disturbs_a_lot_of_one_substrate()
    ensures failed { is_calm 1 (counted_of 1 (created true)) begun (failed_at 1 1) ≡ false }
    ensures down { is_calm 1 (counted_of 1 (created true)) begun (was_down 2) ≡ false }
    ensures paused { is_calm 1 (counted_of 1 (created true)) begun (said Pause) ≡ false }
    ensures stopped { is_calm 1 (counted_of 1 (created true)) begun (said Stop) ≡ false }
    ensures aborted { is_calm 1 (counted_of 1 (created true)) begun (said Abort) ≡ false }
{}
