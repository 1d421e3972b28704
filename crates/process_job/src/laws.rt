//! Laws of the process jobs, for proofs to cite. What a function ensures that is empty holds of the definitions.

ghost use Rattle.std.specs.Prelude.{◌≡◌, ◌<◌, ◌≤◌, ℕ, Some, slice_get};
ghost use Rattle.process_job.specs.Jobs.{JobBook, job_named, job_numbered, most_jobs, AreJobs};
ghost use Rattle.process_job.specs.declared.job.ProcessJob.{ProcessJob};

use crate::jobs::MOST_JOBS;

/// The most process jobs that are kept: the constant is that of the definitions.
pub fn the_most_jobs_are_those_of_the_profile() -> usize
    ensures { result ≡ most_jobs }
{
    MOST_JOBS
}

/// A job that stands at a place is the one that is found by its name, and the one that is found by its number.
pub fn each_job_has_its_name_and_number()
    ensures name { (b : JobBook) (place : ℕ) (j : ProcessJob) → AreJobs b → slice_get b.kept place ≡ Some j → job_named j.id b.kept ≡ Some j }
    ensures number { (b : JobBook) (place : ℕ) (j : ProcessJob) → AreJobs b → slice_get b.kept place ≡ Some j → job_numbered j.number b.kept ≡ Some j }
{}

/// Of two jobs the one behind the other has the greater number, and the number of each was given, and is no number that will be.
pub fn numbers_rise_and_were_given()
    ensures rise { (b : JobBook) (m n : ℕ) (j k : ProcessJob) → AreJobs b → m < n → slice_get b.kept m ≡ Some j → slice_get b.kept n ≡ Some k → j.number < k.number }
    ensures given { (b : JobBook) (place : ℕ) (j : ProcessJob) → AreJobs b → slice_get b.kept place ≡ Some j → (0 < j.number) × (j.number ≤ b.given) }
{}
