//! Laws of the control job that executes, for proofs to cite. Each function is empty: what it ensures holds of the definitions.

ghost use Rattle.std.specs.Prelude.{◌≡◌, ℕ, Bool, true, false, if◌then◌else◌, List, [], ◌∷◌, Some, None};
ghost use Rattle.gem_tables.specs.Table.{is_one_of};
ghost use Rattle.tool_tasks.specs.declared.recipes.Recipe.{Recipe};
ghost use Rattle.process_job.specs.Jobs.{job_numbered as process_numbered, is_known};
ghost use Rattle.process_job.specs.Creating.{create_fault as process_fault};
ghost use Rattle.process_job.specs.declared.job.JobSpec.{JobSpec};
ghost use Rattle.process_job.specs.declared.job.ProcessJob.{ProcessJob};
ghost use Rattle.control_job.specs.Jobs.{job_numbered as control_numbered, headed};
ghost use Rattle.control_job.specs.declared.job.ControlJob.{ControlJob};
ghost use Rattle.tool_jobs.specs.declared.sight.Sight.{Sight};
ghost use Rattle.tool_jobs.specs.Jobs.{Jobs, no_jobs};
ghost use Rattle.tool_jobs.specs.Rows.{process_starts, process_ready, process_fired, control_starts, control_ready, control_fired};
ghost use Rattle.tool_jobs.specs.Creating.{with_process, with_control, control_fault};
ghost use Rattle.tool_jobs.specs.Together.{AreTogether};
ghost use Rattle.queue_laws.specs.Started.{is_queued, is_left_in, AreStarted};
ghost use Rattle.queue_laws.specs.Steers.{has_none_left, Steers, AreAutomatic, disturbs_process, disturbs_control, is_completion};

/// At every moment each process job that isn't QUEUED is left in a control job that is EXECUTING or PAUSED, and a control job that
/// is ending is EXECUTING: so it is as the tool begins, behind each row that starts, as jobs are created, and where the order of the
/// queue changes.
pub fn each_process_job_that_was_started_is_left_in_a_control_job_at_work()
    ensures opening { (recipes : List Recipe) → AreStarted (no_jobs recipes) }
    ensures process { (w : Jobs) (row n : ℕ) (sight : Sight) → AreTogether w → AreStarted w
        → process_starts row (process_numbered n w.process.kept) sight w ≡ true → AreStarted (process_fired row n w) }
    ensures control { (w : Jobs) (row n : ℕ) (here : Bool) → AreTogether w → AreStarted w
        → control_starts row (control_numbered n w.control.jobs) here w ≡ true → AreStarted (control_fired row n w) }
    ensures created { (w : Jobs) (spec : JobSpec) → AreTogether w → AreStarted w → AreStarted (with_process spec w) }
    ensures added { (w : Jobs) (name : List ℕ) (named : List (List ℕ)) (auto : Bool) → AreTogether w → AreStarted w
        → control_fault name named w ≡ None → AreStarted (with_control name named auto w) }
    ensures head { (w : Jobs) (name : List ℕ) → AreTogether w → AreStarted w → AreStarted (record w { control = headed name w.control }) }
{}

/// Row 4 or 5 of table 15 starts a control job: each process job is QUEUED then. Where each that is left in it starts by itself, it
/// executes from then on, and nothing disturbed it.
pub fn a_control_job_starts()
    ensures queued { (number : ℕ) (w : Jobs) (row n : ℕ) (here : Bool) (c : ControlJob) (j : ProcessJob) → AreTogether w → AreStarted w
        → control_numbered number w.control.jobs ≡ Some c → control_starts row (Some c) here w ≡ true
        → is_one_of (4 ∷ 5 ∷ []) row ≡ true → process_numbered n w.process.kept ≡ Some j → is_queued j.states.state ≡ true }
    ensures steers { (number : ℕ) (w : Jobs) (row : ℕ) (here : Bool) (c : ControlJob) → AreTogether w → AreStarted w
        → control_numbered number w.control.jobs ≡ Some c → control_starts row (Some c) here w ≡ true
        → is_one_of (4 ∷ 5 ∷ []) row ≡ true → AreAutomatic number w → Steers number (control_fired row number w) }
{}

/// It goes on by each row that starts and doesn't disturb it, but for its completion, and as jobs are created and the order of the
/// queue changes.
pub fn a_control_job_that_nobody_disturbs_goes_on()
    ensures process { (number : ℕ) (w : Jobs) (row n : ℕ) (sight : Sight) (j : ProcessJob) → AreTogether w → AreStarted w → Steers number w
        → process_numbered n w.process.kept ≡ Some j → process_starts row (Some j) sight w ≡ true
        → disturbs_process number j.id row w ≡ false → Steers number (process_fired row n w) }
    ensures control { (number : ℕ) (w : Jobs) (row m : ℕ) (here : Bool) (c : ControlJob) → AreTogether w → AreStarted w → Steers number w
        → control_numbered m w.control.jobs ≡ Some c → control_starts row (Some c) here w ≡ true
        → disturbs_control number m row ≡ false → is_completion number m row ≡ false → Steers number (control_fired row m w) }
    ensures created { (number : ℕ) (w : Jobs) (spec : JobSpec) → AreTogether w → AreStarted w → Steers number w
        → process_fault spec w.process ≡ None → Steers number (with_process spec w) }
    ensures added { (number : ℕ) (w : Jobs) (name : List ℕ) (named : List (List ℕ)) (auto : Bool) → AreTogether w → AreStarted w
        → Steers number w → control_fault name named w ≡ None → Steers number (with_control name named auto w) }
    ensures head { (number : ℕ) (w : Jobs) (name : List ℕ) → Steers number w
        → Steers number (record w { control = headed name w.control }) }
    ensures left { (number : ℕ) (w : Jobs) (job : List ℕ) → AreTogether w → AreStarted w → Steers number w
        → is_left_in number job w ≡ true → is_known job w.process.kept ≡ true }
{}

/// Of the rows that are ready by themselves then, those of table 14 are 2, 4, 6 and 7, of process jobs that are left in it; that of
/// table 15 is its completion, row 8, which is ready exactly where no process job is left in it.
pub fn a_control_job_completes_where_none_is_left()
    ensures process { (number : ℕ) (w : Jobs) (row n : ℕ) (sight : Sight) (j : ProcessJob) → AreTogether w → AreStarted w → Steers number w
        → process_numbered n w.process.kept ≡ Some j → process_ready (Some j) sight w ≡ Some row → is_left_in number j.id w ≡ true }
    ensures process_rows { (number : ℕ) (w : Jobs) (row n : ℕ) (sight : Sight) (j : ProcessJob) → AreTogether w → AreStarted w
        → Steers number w → process_numbered n w.process.kept ≡ Some j → process_ready (Some j) sight w ≡ Some row
        → is_one_of (2 ∷ 4 ∷ 6 ∷ 7 ∷ []) row ≡ true }
    ensures control { (number : ℕ) (w : Jobs) (row m : ℕ) (here : Bool) (c : ControlJob) → AreTogether w → AreStarted w → Steers number w
        → control_numbered m w.control.jobs ≡ Some c → control_ready (Some c) here w ≡ Some row → m ≡ number }
    ensures completes { (number : ℕ) (w : Jobs) (here : Bool) → AreTogether w → AreStarted w → Steers number w
        → control_ready (control_numbered number w.control.jobs) here w
        ≡ (if has_none_left (control_numbered number w.control.jobs) then Some 8 else None) }
{}
