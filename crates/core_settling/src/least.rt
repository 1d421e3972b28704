//! The least row of all tables that is ready by itself (this tool's profile, settling).
ghost use Rattle.std.specs.Prelude.{◌≡◌, ◌&&◌, not, OnOk, IfOk, option_map};
ghost use Rattle.std.specs.Option.{option_or};
ghost use Rattle.gem_model.specs.State.{can_ask, is_selected};
ghost use Rattle.gem_model.specs.Wants.{delay_is_over, is_attempt};
ghost use Rattle.gem_model.specs.Machines.{least};
ghost use Rattle.gem_model.specs.Ready.{ready_line, ready_floor};
ghost use Rattle.history_parts.specs.Additions.{completes};
ghost use Rattle.core_state.specs.Firing.{fire_first};

use crate::line::line_row;
use core_state::Plant;
use gem_states::Control;
use std::alloc::{AllocError, Global};

/// Fires the row of the line of notes that is ready, or else the least of the floor of the tool, and tells whether it
/// completed a control job. `None` exactly where there was none.
fn fire_line_or_floor(plant: &mut Plant, alloc: Global) -> Result<Option<bool>, AllocError>
    ensures fired { IfOk result (λ fired. fired ≡ option_map completes (option_or (ready_line plant.old) (ready_floor plant.old))) }
    ensures after { OnOk result (plant.new ≡ fire_first (option_or (ready_line plant.old) (ready_floor plant.old)) plant.old) }
{
    if line_row(plant, alloc)? {
        return Ok(Some(false));
    }
    let fired = plant.fire_least_of_floor(alloc)?;
    Ok(fired)
}

/// Whether row 3 of communication is ready: the delay is over, and the link is selected.
fn asks_host(plant: &Plant) -> bool
    ensures { result ≡ (delay_is_over plant.now.moment plant.now.comm && is_selected plant.now) }
{
    plant.delay_is_over() && plant.is_selected()
}

/// Whether row 2 of control is ready: it is ATTEMPT ON-LINE, and the tool cannot ask.
fn gives_up(plant: &Plant) -> bool
    ensures { result ≡ (is_attempt plant.now.control && not (can_ask plant.now)) }
{
    matches!(plant.control(), Control::Attempt) && !plant.can_ask()
}

/// Fires the least row that is ready by itself, with those of the objects that it creates, and tells whether it was row 8 of
/// table 15, by which a control job is COMPLETED (this tool's profile, settling). `None` exactly where no row was ready.
/// `AllocError`: memory ran out.
pub fn fire_least(plant: &mut Plant, alloc: Global) -> Result<Option<bool>, AllocError>
    ensures fired { IfOk result (λ fired. fired ≡ option_map completes (least plant.old)) }
    ensures after { OnOk result (plant.new ≡ fire_first (least plant.old) plant.old) }
{
    if asks_host(plant) {
        plant.comm_row(alloc, 3)?;
        return Ok(Some(false));
    }
    if gives_up(plant) {
        plant.control_row(alloc, 2)?;
        return Ok(Some(false));
    }
    fire_line_or_floor(plant, alloc)
}
