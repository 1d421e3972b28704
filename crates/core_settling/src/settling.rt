//! How the tool settles (this tool's profile, settling).

ghost use Rattle.std.specs.Prelude.{◌≡◌, ◌+◌, IfOk, OnOk, if◌then◌else◌};
ghost use Rattle.gem_model.specs.Sizes.{counted};
ghost use Rattle.gem_model.specs.Settle.{settled, settling};
ghost use Rattle.history_parts.specs.Additions.{completions};

use crate::least::fire_least;
use core_state::Plant;
use std::alloc::{AllocError, Global};

/// A count, and one more where a row completed a control job. It stands still at the greatest number of 64 bits.
fn one_more(count: u64, completes: bool) -> u64
    ensures { result ≡ counted (count + (if completes then 1 else 0)) }
{
    if completes {
        count.saturating_add(1)
    } else {
        count
    }
}

/// The least automatic row that is ready fires, again and again, until none is: by table, then object, then row. A row that
/// creates a carrier is followed at once by the carrier's row. It tells how many control jobs were COMPLETED by row 8 of table 15,
/// at most the greatest number of 64 bits. `AllocError`: memory ran out.
pub fn follow(plant: &mut Plant, alloc: Global) -> Result<u64, AllocError>
    ensures settled { OnOk result (plant.new ≡ settled plant.old) }
    ensures completed { IfOk result (λ count. count ≡ counted (completions (settling plant.old))) }
{
    let mut completed = 0;
    while let Some(completes) = fire_least(plant, alloc)? {
        completed = one_more(completed, completes);
    }
    Ok(completed)
}
