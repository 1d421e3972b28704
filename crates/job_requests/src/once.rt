//! Whether each of some names is given once. A message of the greatest length has more than 50,000 names of process jobs, of which at
//! most 64 can be there; so many are not compared each with all behind it.

ghost use Rattle.std.specs.Prelude.{◌≡◌, ◌≤◌, length, IfOk, IsOk};
ghost use Rattle.std.specs.Cmp.Lexicographic.{slice_cmp};
ghost use Rattle.std.specs.List.Sorted.{IsPermutation, IsSorted};
ghost use Rattle.std.specs.Ordering.{nat_cmp};
ghost use Rattle.control_job.specs.Names.{is_each_once};
ghost use Rattle.job_requests.specs.Neighbours.{is_first, are_neighbours_apart};

use crate::cancelling::is_in;
use gem_ids::Text80;
use std::alloc::{AllocError, Global};

// So many names, as many as process jobs can be, are compared each with those behind it, which takes no memory.
const FEW: usize = 64;

// Whether each of these names is given once. Of more than 64 names it takes a copy; `AllocError` where there is no memory for it.
pub(crate) fn is_each_once(alloc: Global, names: &[Text80]) -> Result<bool, AllocError>
    ensures once { IfOk result (λ once. once ≡ is_each_once names.now) }
    ensures few { length names.now ≤ 64 → IsOk result }
{
    if names.len() <= FEW {
        return Ok(are_apart(names));
    }
    let ordered = in_order(alloc, names)?;
    Ok(are_neighbours_apart(ordered.as_slice()))
}

// The same, of few names.
fn are_apart(names: &[Text80]) -> bool
    ensures { result ≡ is_each_once names.now }
{
    let mut left = names;
    while let [first, rest @ ..] = left {
        if is_in(rest, *first) {
            return false;
        }
        left = rest;
    }
    true
}

// These names by their bytes.
fn in_order(alloc: Global, names: &[Text80]) -> Result<Vec<Text80>, AllocError>
    ensures same { IfOk result (λ ordered. IsPermutation names.now ordered.items) }
    ensures order { IfOk result (λ ordered. IsSorted (slice_cmp nat_cmp) ordered.items) }
{
    let mut ordered = Vec::from_slice(alloc, names)?;
    ordered.sort_unstable_by(|one, other| one.as_bytes().cmp(other.as_bytes()));
    Ok(ordered)
}

// Whether no name has the same one behind it.
fn are_neighbours_apart(names: &[Text80]) -> bool
    ensures { result ≡ are_neighbours_apart names.now }
{
    let mut left = names;
    while let [first, rest @ ..] = left {
        if is_first(rest, *first) {
            return false;
        }
        left = rest;
    }
    true
}

// Whether the first of these names is this one.
fn is_first(names: &[Text80], name: Text80) -> bool
    ensures { result ≡ is_first name names.now }
{
    match names.first() {
        Some(first) => first.as_bytes() == name.as_bytes(),
        None => false,
    }
}
