//! Worked floors with jobs, computed from the definitions. Each function is a statement about them, and has no code.

ghost use Rattle.std.specs.Prelude.{◌≡◌, [], ◌∷◌, true, false};
ghost use Rattle.gem_tables.specs.Table.{firing};
ghost use Rattle.gem_ids.specs.declared.numbers.LocId.TheVariants.{Arm, Chamber};
ghost use Rattle.tool_tasks.specs.declared.task.Task.TheVariants as task;
ghost use Rattle.process_job.specs.declared.record.JobState.TheVariants as process;
ghost use Rattle.work_laws.specs.Work.{is_work_left, is_any_open};
ghost use Rattle.worked_floors.specs.Worked.{wafer, own_slot, is_given, has_open, in_slot, picking, placing, working, finished_at, returning, back, starting, settling, settled, firings, behind, done, behind_dones, all_done};
ghost use Rattle.worked_floors.specs.Jobs.{running, ended, is_member, in_job, by_two_steps, between_at, going_on, working_again, finished_again_at, created, at_control, started, paused, resumed, stopped, aborted};

/// A lot begins: the control job is SELECTED and EXECUTING, the process job is SETTING UP, where it gets its members, and PROCESSING, and
/// the robot is given a Pick of the substrate. A process job that starts by hand is WAITING FOR START until START.
pub fn a_lot_begins()
    ensures fired { settling (created true) ≡ firing 15 1 2 ∷ firing 15 1 4 ∷ firing 14 1 2 ∷ firing 14 1 4 ∷ firing 16 1 2 ∷ [] }
    ensures floor { settled (created true) ≡ is_given 1 1 (task.Pick wafer own_slot) (is_member (running process.Processing in_slot)) }
    ensures by_hand { settling (created false) ≡ firing 15 1 2 ∷ firing 15 1 4 ∷ firing 14 1 2 ∷ firing 14 1 3 ∷ [] }
    ensures start { firings started (settled (created false)) ≡ firing 14 1 5 ∷ firing 16 1 2 ∷ [] }
{}

/// A lot of one substrate: seven commands are done, in the printed order of modules, and at the eighth Done the process job is PROCESS
/// COMPLETE and has ended, the carrier is COMPLETE, its port READY TO UNLOAD, and the control job COMPLETED.
pub fn a_lot_of_one_substrate_ends_at_the_eighth_done()
    ensures seven { behind_dones (1 ∷ 1 ∷ 2 ∷ 1 ∷ 1 ∷ 3 ∷ 1 ∷ []) (settled (created true))
        ≡ is_member (running process.Processing (is_given 1 8 (task.Place wafer own_slot) (finished_at Arm))) }
    ensures eighth { firings (done 1) (is_member (running process.Processing returning))
        ≡ firing 16 1 5 ∷ firing 11 3 1 ∷ firing 11 27 2 ∷ firing 12 1 3 ∷ firing 14 1 6 ∷ firing 14 1 7 ∷ firing 10 1 2 ∷ firing 4 1 4 ∷ firing 15 1 8 ∷ [] }
    ensures floor { behind (done 1) (is_member (running process.Processing returning)) ≡ ended back }
{}

/// By a route of two steps: Done of the first Process ends nothing, the substrate stays IN PROCESS with one step done, and the robot is
/// given a Pick of it. Behind the Place in the chamber of the second step that is given a Process, at whose Done the substrate is PROCESSED.
pub fn a_substrate_goes_by_two_steps()
    ensures first { starting (done 3 (by_two_steps (in_job working))) (by_two_steps (in_job working)) ≡ firing 16 3 7 ∷ [] }
    ensures picked { firings (done 3) (by_two_steps (in_job working)) ≡ firing 16 3 7 ∷ firing 16 1 2 ∷ [] }
    ensures between { behind (done 3) (by_two_steps (in_job working)) ≡ by_two_steps (in_job (is_given 1 7 (task.Pick wafer (Chamber 1)) (between_at (Chamber 1)))) }
    ensures placed { firings (done 1) (by_two_steps (in_job going_on)) ≡ firing 16 1 5 ∷ firing 11 27 2 ∷ firing 11 29 1 ∷ firing 16 4 4 ∷ [] }
    ensures second { firings (done 4) (by_two_steps (in_job working_again)) ≡ firing 16 4 7 ∷ firing 13 1 3 ∷ firing 16 1 2 ∷ [] }
    ensures finished { behind (done 4) (by_two_steps (in_job working_again)) ≡ by_two_steps (in_job (is_given 1 10 (task.Pick wafer (Chamber 2)) (finished_again_at (Chamber 2)))) }
{}

/// A lot of one substrate by a route of two steps: ten commands are done, and the eleventh Done ends it as the eighth does where the
/// route has one step.
pub fn a_lot_by_two_steps_ends_at_the_eleventh_done()
    ensures ten { behind_dones (1 ∷ 1 ∷ 2 ∷ 1 ∷ 1 ∷ 3 ∷ 1 ∷ 1 ∷ 4 ∷ 1 ∷ []) (settled (by_two_steps (created true)))
        ≡ by_two_steps (in_job (is_given 1 11 (task.Place wafer own_slot) (finished_again_at Arm))) }
    ensures eleventh { firings (done 1) (by_two_steps (in_job (has_open 1 11 (task.Place wafer own_slot) (finished_again_at Arm))))
        ≡ firing 16 1 5 ∷ firing 11 3 1 ∷ firing 11 27 2 ∷ firing 12 1 3 ∷ firing 14 1 6 ∷ firing 14 1 7 ∷ firing 10 1 2 ∷ firing 4 1 4 ∷ firing 15 1 8 ∷ [] }
{}

/// STOP, and ABORT, between two steps, where no open Process names the substrate: it is STOPPED, or ABORTED, at once. STOP while the
/// chamber of the first step works: the substrate is STOPPED behind the Done, and goes back to its slot. ABORT then: it ends ABORTED
/// with the Done.
pub fn a_job_ends_between_two_steps()
    ensures stops { firings stopped (by_two_steps (in_job going_on)) ≡ firing 14 1 11 ∷ firing 13 1 6 ∷ [] }
    ensures aborts { firings aborted (by_two_steps (in_job going_on)) ≡ firing 14 1 12 ∷ firing 13 1 7 ∷ [] }
    ensures working { firings stopped (by_two_steps (in_job working)) ≡ firing 14 1 11 ∷ [] }
    ensures stopped { firings (done 3) (by_two_steps (is_member (running process.Stopping working))) ≡ firing 16 3 7 ∷ firing 13 1 6 ∷ firing 16 1 2 ∷ [] }
    ensures back { all_done (3 ∷ 1 ∷ 1 ∷ []) (by_two_steps (is_member (running process.Stopping working)))
        ≡ firing 16 3 7 ∷ firing 13 1 6 ∷ firing 16 1 2 ∷ firing 16 1 5 ∷ firing 11 27 1 ∷ firing 11 28 2 ∷ firing 16 1 1 ∷ firing 16 1 5
        ∷ firing 11 3 1 ∷ firing 11 27 2 ∷ firing 12 1 3 ∷ firing 14 1 13 ∷ firing 10 1 3 ∷ firing 4 1 4 ∷ firing 15 1 8 ∷ [] }
    ensures aborted { firings (done 3) (by_two_steps (is_member (running process.Aborting working))) ≡ firing 16 3 7 ∷ firing 13 1 4 ∷ firing 16 1 2 ∷ [] }
{}

/// STOP where the substrate is in its slot and no command names it: it is SKIPPED, the process job has ended, and the control job is
/// COMPLETED. STOP where a Pick names it: nothing more fires, as long as the Pick is open.
pub fn a_job_is_stopped_before_its_first_substrate_left()
    ensures rest { firings stopped (is_member (running process.Pausing in_slot))
        ≡ firing 14 1 11 ∷ firing 13 1 5 ∷ firing 14 1 13 ∷ firing 15 1 8 ∷ [] }
    ensures named { firings stopped (is_member (running process.Processing picking)) ≡ firing 14 1 11 ∷ [] }
{}

/// STOP where the substrate is on the arm: it is STOPPED at once, and goes back to its slot when the robot is free.
pub fn a_job_is_stopped_with_a_substrate_on_the_arm()
    ensures stops { firings stopped (is_member (running process.Processing placing)) ≡ firing 14 1 11 ∷ firing 13 1 6 ∷ [] }
    ensures aborts { firings aborted (is_member (running process.Processing placing)) ≡ firing 14 1 12 ∷ firing 13 1 7 ∷ [] }
{}

/// STOP where a chamber processes the substrate: it ends PROCESSED with the Done. ABORT: it ends ABORTED with the Done.
pub fn a_job_ends_while_a_chamber_works()
    ensures stops { firings stopped (is_member (running process.Processing working)) ≡ firing 14 1 11 ∷ [] }
    ensures processed { firings (done 3) (is_member (running process.Stopping working)) ≡ firing 16 3 7 ∷ firing 13 1 3 ∷ firing 16 1 2 ∷ [] }
    ensures aborts { firings (done 3) (is_member (running process.Aborting working)) ≡ firing 16 3 7 ∷ firing 13 1 4 ∷ firing 16 1 2 ∷ [] }
{}

/// PAUSE: the process job is PAUSING until its substrate is back, and PAUSED then; nothing leaves a slot meanwhile.
pub fn a_job_is_paused()
    ensures out { firings paused (is_member (running process.Processing placing)) ≡ firing 14 1 8 ∷ [] }
    ensures in_slot { firings paused (is_member (running process.Processing in_slot)) ≡ firing 14 1 8 ∷ firing 14 1 9 ∷ [] }
    ensures resumed { firings resumed (is_member (running process.Paused in_slot)) ≡ firing 14 1 10 ∷ firing 16 1 2 ∷ [] }
{}

/// The control job is stopped, or aborted: its process job is STOPPING, or ABORTING, and ends so.
pub fn a_control_job_ends()
    ensures stop { firings (at_control 11) (is_member (running process.Paused in_slot))
        ≡ firing 15 1 11 ∷ firing 14 1 17 ∷ firing 13 1 5 ∷ firing 14 1 13 ∷ firing 15 1 8 ∷ [] }
    ensures abort { firings (at_control 12) (is_member (running process.Paused in_slot))
        ≡ firing 15 1 12 ∷ firing 14 1 18 ∷ firing 13 1 5 ∷ firing 14 1 14 ∷ firing 15 1 8 ∷ [] }
{}

/// While a lot of one substrate runs, work is left and a command is open: as it begins, while the robot takes the substrate, while a
/// chamber works, and while the robot brings it back. When it has ended no work is left.
pub fn a_command_is_open_while_a_lot_runs()
    ensures begins { is_work_left (is_member (running process.Processing picking)) ≡ true }
    ensures pick { is_any_open picking.modules ≡ true }
    ensures works { is_work_left (is_member (running process.Processing working)) ≡ true }
    ensures process { is_any_open working.modules ≡ true }
    ensures returns { is_work_left (is_member (running process.Processing returning)) ≡ true }
    ensures place { is_any_open returning.modules ≡ true }
    ensures ended { is_work_left (ended back) ≡ false }
{}

/// A process job that is PAUSING has work left while its substrate is outside, and none once it is in its slot. One that is STOPPING or
/// ABORTING has some until its substrate is finished and back.
pub fn what_a_job_has_left()
    ensures outside { is_work_left (is_member (running process.Pausing placing)) ≡ true }
    ensures in_slot { is_work_left (is_member (running process.Pausing in_slot)) ≡ false }
    ensures stopping { is_work_left (is_member (running process.Stopping working)) ≡ true }
    ensures aborting { is_work_left (is_member (running process.Aborting working)) ≡ true }
    ensures settled { is_work_left (is_member (running process.Aborting back)) ≡ false }
{}
