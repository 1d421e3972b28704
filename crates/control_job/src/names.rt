//! The names of process jobs, as a control job has them.

ghost use Rattle.std.specs.Prelude.{◌≡◌, [], length, IfOk};
ghost use Rattle.std.specs.Str.{bytes_eq};
ghost use Rattle.control_job.specs.Names.{is_in, others, is_each_once, are_named};

use gem_ids::JobId;
use std::alloc::{AllocError, Global};
use std::marker::Model;

/// Names of process jobs in their order, which contracts see as the list of them.
#[derive(Drop)]
pub struct JobNames {
    names: Vec<JobId>,
}

impl Model for JobNames {
    ghost use Rattle.std.specs.Prelude.{List, ℕ};

    ghost Value = { List (List ℕ) };

    ghost view = { λ n. n.names.items };
}

impl JobNames {
    // The same names. `AllocError` where there is no memory for them.
    pub(crate) fn copied(alloc: Global, names: &[JobId]) -> Result<JobNames, AllocError>
        ensures { IfOk result (λ copies. copies ≡ names.now) }
    {
        let names = Vec::from_slice(alloc, names)?;
        Ok(JobNames { names })
    }

    /// The names as a slice.
    pub fn as_slice(&self) -> &[JobId]
        ensures { result.now ≡ self.now }
    {
        self.names.as_slice()
    }

    /// How many there are.
    pub fn len(&self) -> usize
        ensures { result ≡ length self.now }
    {
        self.names.len()
    }

    /// Whether a name is among them.
    pub fn has(&self, name: JobId) -> bool
        ensures { result ≡ is_in name self.now }
    {
        is_in(self.as_slice(), name)
    }

    // A name is among them no more; the others keep their order.
    pub(crate) fn remove(&mut self, name: JobId)
        ensures { self.new ≡ others name self.old }
    {
        keep_others(&mut self.names, name);
    }

    // There are none any more.
    pub(crate) fn clear(&mut self)
        ensures { self.new ≡ [] }
    {
        self.names.clear();
    }
}

// Whether two names are of the same bytes.
pub(crate) fn is_same(one: JobId, other: JobId) -> bool
    ensures { result ≡ bytes_eq one other }
{
    one.as_bytes() == other.as_bytes()
}

// Takes a name out of these.
fn keep_others(names: &mut Vec<JobId>, name: JobId)
    ensures { names.new.items ≡ others name names.old.items }
{
    names.retain(|one| !is_same(*one, name));
}

// Whether a name is among these.
fn is_in(names: &[JobId], name: JobId) -> bool
    ensures { result ≡ is_in name names.now }
{
    names.iter().any(|one| is_same(*one, name))
}

// Whether each of these is given once.
fn is_each_once(names: &[JobId]) -> bool
    ensures { result ≡ is_each_once names.now }
{
    match names.split_first() {
        Some((first, rest)) => !is_in(rest, *first) && is_each_once(rest),
        None => true,
    }
}

// Whether there are some, and each is given once.
pub(crate) fn are_named(names: &[JobId]) -> bool
    ensures { result ≡ are_named names.now }
{
    !names.is_empty() && is_each_once(names)
}
