//! The process jobs of the tool.

ghost use Rattle.std.specs.Prelude.{ℕ, ◌≡◌, ◌+◌, ◌≤◌, length, position, slice_get, take, Some, None, Err, IfOk, IfErr, OnOk, OnErr};
ghost use Rattle.std.specs.Option.{option_copied};
ghost use Rattle.process_job.specs.Jobs.{no_jobs, recipe_named, job_named, job_numbered, has_number, is_numbered, is_known, starts_row, fired, forgotten, with_created, most_jobs, space, AreJobs};
ghost use Rattle.process_job.specs.Creating.{is_recipe, create_fault};
ghost use Rattle.process_job.specs.Commands.{command_answer, row_of};
ghost use Rattle.process_job.specs.Listing.{job_items, joined};
ghost use Rattle.process_job.specs.declared.fault.JobFault.{JobFault};
ghost use Rattle.process_job.specs.declared.fault.JobFault.TheVariants.{NoMemory};

use crate::fault::JobFault;
use crate::job::{Fires, JobSpec, ProcessJob, is_some_material};
use crate::listing::job_item;
use gem_ids::{JobId, Text80};
use item_model::{Items, NoMemory};
use records::Names;
use std::alloc::Global;
use std::marker::Model;
use tool_tasks::{JobWord, Recipe};

/// The most process jobs that are kept (this tool's profile, limits).
pub const MOST_JOBS: usize = 64;

/// The process jobs of the tool (SEMI E40). Contracts see the list of those that are kept, in the order in which they were
/// created, the tool's recipes, and the last number of creation that was given. Each name is that of one job, the
/// numbers rise, and there are at most 64. Only `new`, `create` and `list` take memory. A job is found by its name without going
/// through the others.
pub struct ProcessJobs {
    jobs: Names<ProcessJob>,
    recipes: Vec<Recipe>,
    given: u64,
}

// Written out, so that it is one call wherever all of them is dropped.
impl Drop for ProcessJobs {
    fn drop(self) {
        let ProcessJobs {
            jobs: _jobs,
            recipes: _recipes,
            given: _given,
        } = self;
    }
}

impl Model for ProcessJobs {
    ghost use Rattle.process_job.specs.Jobs.{JobBook, AreJobs};
    ghost use Rattle.process_job.specs.Kept.{book_of};

    ghost Value = { JobBook };

    ghost view = { λ p. book_of p.jobs p.recipes.items p.given };

    ghost invariant = { λ p. AreJobs (book_of p.jobs p.recipes.items p.given) };
}

impl ProcessJobs {
    /// No job, of a tool with these recipes. Takes room for them and for 64 jobs. `NoMemory` where there is none.
    pub fn new(alloc: Global, recipes: &[Recipe]) -> Result<ProcessJobs, NoMemory>
        ensures { IfOk result (λ jobs. jobs ≡ no_jobs recipes.now) }
    {
        let jobs = Names::new(alloc, MOST_JOBS)?;
        let recipes = Vec::from_slice(alloc, recipes)?;
        Ok(ProcessJobs {
            jobs,
            recipes,
            given: 0,
        })
    }

    // ---- what they say

    /// How many jobs are kept, 0 to 64.
    pub fn len(&self) -> usize
        ensures len { result ≡ length self.now.kept }
        ensures few { length self.now.kept ≤ most_jobs }
        ensures jobs { AreJobs self.now }
    {
        self.jobs.len()
    }

    /// How many more can be (SEMI E40, S16F21): 64 less those that are kept.
    pub fn space(&self) -> u16
        ensures { result ≡ space self.now }
    {
        (MOST_JOBS - self.len()) as u16
    }

    /// The job at a place, counted from 0, in the order of creation. `None` exactly where there is none.
    pub fn get(&self, place: usize) -> Option<&ProcessJob>
        ensures value { option_copied result ≡ slice_get self.now.kept place }
        ensures jobs { AreJobs self.now }
    {
        self.jobs.get(place)
    }

    /// The job of a name. `None` exactly where none of the name is kept.
    pub fn find(&self, id: JobId) -> Option<&ProcessJob>
        ensures value { option_copied result ≡ job_named id self.now.kept }
        ensures jobs { AreJobs self.now }
    {
        self.jobs.named(id.text())
    }

    /// The job of a number of creation. `None` exactly where none of the number is kept.
    pub fn numbered(&self, number: u64) -> Option<&ProcessJob>
        ensures value { option_copied result ≡ job_numbered number self.now.kept }
        ensures jobs { AreJobs self.now }
    {
        match self.place_numbered(number) {
            Some(place) => self.jobs.get(place),
            None => None,
        }
    }

    // The place of the job of a number, counted from 0.
    fn place_numbered(&self, number: u64) -> Option<usize>
        ensures { result ≡ position (has_number number) self.now.kept }
    {
        records::place_numbered(self.jobs.as_slice(), number)
    }

    /// The recipe of a name. `None` exactly where none of the tool's has it.
    pub fn recipe(&self, name: Text80) -> Option<Recipe>
        ensures { result ≡ recipe_named name self.now.recipes }
    {
        self.recipes
            .iter()
            .copied()
            .find(|recipe| recipe.name.as_bytes() == name.as_bytes())
    }

    /// What a command to the job of a name fires (SEMI E40, S16F5): the row of table 14, which is 5 for START, 8 for PAUSE, 10 for
    /// RESUME, 11 for STOP, 12 for ABORT and 15 for CANCEL, where it starts at the job's state. Error 1 comes exactly where none of
    /// the name is kept, and else 2 exactly where the row doesn't start. Changes nothing and takes no memory.
    pub fn command(&self, id: JobId, w: JobWord) -> Result<u8, u8>
        ensures { result ≡ command_answer id w self.now }
    {
        let row = row_of(w);
        match self.find(id) {
            None => Err(1),
            Some(job) => {
                if job.states.starts(row) {
                    Ok(row)
                } else {
                    Err(2)
                }
            }
        }
    }

    /// Adds the jobs at the end, in the order of creation, each as a list of its name and the number of its state (SEMI E40,
    /// S16F20). After `NoMemory` the list is as before.
    pub fn list(&self, alloc: Global, out: &mut Items) -> Result<(), NoMemory>
        ensures jobs { OnOk result (out.new ≡ joined out.old (job_items self.now.kept)) }
        ensures no_memory { OnErr result (out.new ≡ out.old) }

        // There are few.
        ensures few { length self.now.kept ≤ most_jobs }
    {
        let count = out.len();
        match self.push_jobs(alloc, out) {
            Ok(()) => Ok(()),
            Err(fault) => {
                out.truncate(count);
                Err(fault)
            }
        }
    }

    // The same, but that after want of memory the first of the jobs may have been added.
    fn push_jobs(&self, alloc: Global, out: &mut Items) -> Result<(), NoMemory>
        ensures jobs { OnOk result (out.new ≡ joined out.old (job_items self.now.kept)) }
        ensures first { OnErr result ((n : ℕ) × (out.new ≡ joined out.old (job_items (take n self.now.kept)))) }
        ensures few { length self.now.kept ≤ most_jobs }
    {
        for place in 0..self.len() {
            if let Some(job) = self.get(place) {
                out.push(job_item(alloc, job)?)?;
            }
        }
        Ok(())
    }

    // ---- what happens to them

    /// Creates a job (SEMI E40, S16F11): it is QUEUED, behind the others, with the next number of creation, from 1. No number is
    /// given twice, however many jobs are forgotten. `NameTaken` comes exactly where a job of its name is kept; else `NoRecipe`
    /// exactly where its recipe is none of the tool's; else `NoMaterial` exactly where it names no carrier, or a carrier by a name
    /// of no or over 64 bytes, or a slot outside 1 to 25; else `NoSpace(64)` exactly where 64 jobs are kept. `NoMemory` comes for
    /// want of memory, and where the last number of a `u64` was given. Any fault changes nothing.
    pub fn create(&mut self, j: JobSpec) -> Result<(), JobFault>
        ensures created { IfOk result (λ _. self.new ≡ with_created j self.old) }
        ensures unchanged { IfErr result (λ _. self.new ≡ self.old) }
        ensures refused { (fault : JobFault) → create_fault j self.old ≡ Some fault → result ≡ Err fault }
        ensures memory { create_fault j self.old ≡ None → IfErr result (λ fault. fault ≡ NoMemory) }
    {
        match self.create_fault(&j) {
            Some(fault) => Err(fault),
            None => self.add(j),
        }
    }

    // Why a job can't be created, whatever memory there is.
    fn create_fault(&self, j: &JobSpec) -> Option<JobFault>
        ensures { result ≡ create_fault j.now self.now }
    {
        if self.is_known(j.id) {
            Some(JobFault::NameTaken)
        } else if !is_recipe(j.recipe, self.recipes.as_slice()) {
            Some(JobFault::NoRecipe)
        } else if !is_some_material(j.material.as_slice()) {
            Some(JobFault::NoMaterial)
        } else if self.len() < MOST_JOBS {
            None
        } else {
            Some(JobFault::NoSpace(MOST_JOBS as u32))
        }
    }

    // Whether a job of the name is kept.
    fn is_known(&self, id: JobId) -> bool
        ensures { result ≡ is_known id self.now.kept }
    {
        self.find(id).is_some()
    }

    // Creates a job for which nothing but memory can be wanting.
    fn add(&mut self, j: JobSpec) -> Result<(), JobFault>
        requires { create_fault j self.old ≡ None }
        ensures created { IfOk result (λ _. self.new ≡ with_created j self.old) }
        ensures unchanged { IfErr result (λ _. self.new ≡ self.old) }
        ensures memory { IfErr result (λ fault. fault ≡ NoMemory) }
    {
        if self.given == u64::MAX {
            return Err(JobFault::NoMemory);
        }
        let number = self.given + 1;
        match self.jobs.push(ProcessJob::new(number, j)) {
            Ok(()) => {
                self.given = number;
                Ok(())
            }
            Err(_) => Err(JobFault::NoMemory),
        }
    }

    /// Fires a row of table 14 at the job of a number of creation: true exactly where a job of the number is kept at whose state the
    /// row starts. The job's state is then the row's end, and all else stays; false changes nothing. What a row wants besides the
    /// state, and what it does besides, is for the caller. Takes no memory.
    pub fn fire(&mut self, number: u64, row: u8) -> bool
        ensures fires { result ≡ starts_row row (job_numbered number self.old.kept) }
        ensures after { self.new ≡ fired number row self.old }
    {
        match self.place_numbered(number) {
            Some(place) => {
                let starts = self.starts_at(place, row);
                self.jobs.change_at(place, &Fires { row });
                starts
            }
            None => false,
        }
    }

    // Whether a row starts at the job at a place.
    fn starts_at(&self, place: usize, row: u8) -> bool
        ensures { result ≡ starts_row row (slice_get self.now.kept place) }
    {
        match self.get(place) {
            Some(job) => job.states.starts(row),
            None => false,
        }
    }

    /// Forgets the job of a number of creation: true exactly where one of the number is kept, and then it isn't any more; the others
    /// keep their order, and the number stays given. False changes nothing. Takes no memory.
    pub fn forget(&mut self, number: u64) -> bool
        ensures known { result ≡ is_numbered number self.old.kept }
        ensures after { self.new ≡ forgotten number self.old }
    {
        match self.place_numbered(number) {
            Some(place) => {
                self.jobs.remove_at(place);
                true
            }
            None => false,
        }
    }
}

// The row of table 14 that a command fires.
fn row_of(w: JobWord) -> u8
    ensures { result ≡ row_of w }
{
    match w {
        JobWord::Start => 5,
        JobWord::Pause => 8,
        JobWord::Resume => 10,
        JobWord::Stop => 11,
        JobWord::Abort => 12,
        JobWord::Cancel => 15,
    }
}

// Whether a recipe of the tool has this name.
fn is_recipe(name: Text80, recipes: &[Recipe]) -> bool
    ensures { result ≡ is_recipe name recipes.now }
{
    for recipe in recipes {
        if recipe.name.as_bytes() == name.as_bytes() {
            return true;
        }
    }
    false
}
