//! The modules that have a command, and which of them is done next.
ghost use Rattle.std.specs.Prelude.{◌≡◌, true, IfOk};
ghost use Rattle.sim_modules.specs.Drawing.{drawn};
ghost use Rattle.batch_model.specs.Modules.{chosen};
ghost use Rattle.batch_model.specs.Batch.{busy};

use crate::batch::Batch;
use batch_model::Fetched;
use gem_ids::ModuleId;
use history_laws::Recorder;
use sim_modules::draw;
use std::alloc::{AllocError, Global};

/// A drawn number has so many low bits that choose nothing.
const LOW_BITS: u64 = 8_589_934_592;

// The modules that have an open command that was fetched, in the order of their numbers.
fn busy<C: Recorder>(alloc: Global, core: &C) -> Result<Vec<Fetched>, AllocError>
    requires whole { (C.view core.now).is_whole ≡ true }
    ensures { IfOk result (λ found. found.items ≡ busy (C.view core.now).state) }
{
    let mut found = Vec::new(alloc);
    let count = core.module_count();
    for index in 0..count {
        let number = ModuleId(index as u8 + 1);
        if let Some(command) = core.fetched_number(number) {
            found.push(Fetched { number, command })?;
        }
    }
    Ok(found)
}

// The one of these that a drawn number chooses. `None`: there are none.
fn choose(drawn: u64, found: &[Fetched]) -> Option<Fetched>
    ensures { result ≡ chosen drawn found.now }
{
    if found.is_empty() {
        return None;
    }
    let place = drawn / LOW_BITS % found.len() as u64;
    found.get(place as usize).copied()
}

/// The module that is done next: the one that the next number chooses of those that have a command that was fetched. `None`: no
/// module has one.
pub fn next_done<C: Recorder>(
    alloc: Global,
    batch: &Batch<C>,
) -> Result<Option<Fetched>, AllocError>
    requires whole { (C.view batch.now.core).is_whole ≡ true }
    ensures { IfOk result (λ next. next ≡ chosen (drawn batch.now.drawn) (busy (C.view batch.now.core).state)) }
{
    let found = busy(alloc, &batch.core)?;
    Ok(choose(draw(batch.drawn), &found))
}
