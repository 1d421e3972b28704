//! What is told of the process jobs in S16F20.

ghost use Rattle.std.specs.Prelude.{◌≡◌, IfOk};
ghost use Rattle.process_job.specs.Listing.{job_item};
ghost use Rattle.item_model.specs.View.{view};

use crate::job::ProcessJob;
use gem_ids::Listed;
use item_model::{Bytes, Item, Items, NoMemory, U8s};
use std::alloc::Global;

// A job: its name, and the number of its state.
pub(crate) fn job_item(alloc: Global, job: &ProcessJob) -> Result<Item, NoMemory>
    ensures { IfOk result (λ i. view i ≡ job_item job.now) }
{
    let mut parts = Items::new(alloc);
    parts.push(Item::Ascii(Bytes::from_vec(Vec::from_slice(alloc, job.id.as_bytes())?)))?;
    parts.push(Item::U1(U8s::from_vec(Vec::from_slice(alloc, &[job.states.state.number()])?)))?;
    Ok(Item::List(parts))
}
