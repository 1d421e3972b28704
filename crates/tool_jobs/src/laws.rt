//! Laws of the jobs, for proofs to cite. Each function is empty: what it ensures holds of the definitions.

ghost use Rattle.std.specs.Prelude.{ℕ, ◌≡◌, ◌<◌, true, Some, Bool};
ghost use Rattle.process_job.specs.declared.job.ProcessJob.{ProcessJob};
ghost use Rattle.process_job.specs.Jobs.{job_numbered as process_numbered};
ghost use Rattle.control_job.specs.declared.job.ControlJob.{ControlJob};
ghost use Rattle.control_job.specs.Jobs.{job_numbered as control_numbered};
ghost use Rattle.tool_jobs.specs.declared.sight.Sight.{Sight};
ghost use Rattle.tool_jobs.specs.Jobs.{Jobs};
ghost use Rattle.tool_jobs.specs.Rows.{process_starts, process_ready, process_fired, control_starts, control_ready, control_fired};
ghost use Rattle.tool_jobs.specs.Left.{jobs_left};

/// The jobs come to rest: what is left of them falls with each of their rows that fires by itself.
pub fn the_jobs_come_to_rest()
    ensures process { (w : Jobs) (number row : ℕ) (sight : Sight)
        → process_ready (process_numbered number w.process.kept) sight w ≡ Some row → jobs_left (process_fired row number w) < jobs_left w }
    ensures control { (w : Jobs) (number row : ℕ) (here : Bool)
        → control_ready (control_numbered number w.control.jobs) here w ≡ Some row → jobs_left (control_fired row number w) < jobs_left w }
{}

/// A row that fires by itself starts.
pub fn a_ready_row_of_a_job_starts()
    ensures process { (w : Jobs) (number row : ℕ) (sight : Sight)
        → process_ready (process_numbered number w.process.kept) sight w ≡ Some row
        → process_starts row (process_numbered number w.process.kept) sight w ≡ true }
    ensures control { (w : Jobs) (number row : ℕ) (here : Bool)
        → control_ready (control_numbered number w.control.jobs) here w ≡ Some row
        → control_starts row (control_numbered number w.control.jobs) here w ≡ true }
{}
