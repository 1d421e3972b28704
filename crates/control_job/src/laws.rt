//! Laws of the control jobs, for proofs to cite. What a function ensures that is empty holds of the definitions.

ghost use Rattle.std.specs.Prelude.{◌≡◌, ℕ, List, Some, true, length};
ghost use Rattle.std.specs.List.{filter};
ghost use Rattle.control_job.specs.Jobs.{JobStore, AreJobs, job_numbered, job_named, order_count, most_jobs};
ghost use Rattle.control_job.specs.declared.job.ControlJob.{ControlJob};

use crate::jobs::MOST_JOBS;

/// The most control jobs that are kept: the constant is that of the definitions.
pub fn the_most_jobs_are_those_of_the_profile() -> usize
    ensures { result ≡ most_jobs }
{
    MOST_JOBS
}

/// A job that is found by its number is the one that is found by its name: each name is that of one job.
pub fn the_names_are_apart()
    ensures { (s : JobStore) (number : ℕ) (j : ControlJob) → AreJobs s → job_numbered number s.jobs ≡ Some j → job_named j.name s.jobs ≡ Some j }
{}

/// The queue's order has the number of each job that is kept once, so that of each QUEUED one.
pub fn the_queue_has_each_job_once()
    ensures { (s : JobStore) (number : ℕ) (j : ControlJob) → AreJobs s → job_numbered number s.jobs ≡ Some j → order_count number s.order ≡ 1 }
{}
