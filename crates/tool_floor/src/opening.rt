//! The parts of the floor as they begin.
ghost use Rattle.std.specs.Prelude.{◌≡◌, ◌≤◌, [], replicate, IfOk};
ghost use Rattle.load_port.specs.Ports.{most_ports};
ghost use Rattle.robot_moves.specs.Modules.{first_modules};
ghost use Rattle.shop_floor.specs.Floor as shop_floor;
ghost use Rattle.substrate.specs.Places.{no_places};
ghost use Rattle.substrate.specs.Board.{spot_count};
ghost use Rattle.substrate.specs.Record.{first_location};
ghost use Rattle.tool_jobs.specs.Jobs.{no_jobs};

use crate::tracking::Substrates;
use robot_moves::Modules;
use shop_floor::ShopFloor;
use std::alloc::{AllocError, Global};
use substrate::{LocationRecord, Places};
use tool_jobs::Jobs;
use tool_tasks::{Command, Recipe, Task};

/// So many ports without a carrier, and the modules of a tool with so many chambers.
pub(crate) fn first_equipment(
    alloc: Global,
    ports: u8,
    chambers: u8,
) -> Result<(ShopFloor, Modules), AllocError>
    requires { ports ≤ most_ports }
    ensures { IfOk result (λ first. (first.0 ≡ shop_floor.opening ports) × (first.1 ≡ first_modules chambers)) }
{
    // The borrow checker has to be told here of the types that a command holds.
    let _: Option<(Command, Task)> = None;
    let shop = ShopFloor::new(alloc, ports)?;
    let modules = Modules::new(alloc, chambers)?;
    Ok((shop, modules))
}

/// Their places, at which no substrate is, and the states of the locations.
pub(crate) fn first_places(
    alloc: Global,
    ports: u8,
    chambers: u8,
) -> Result<(Places, Vec<LocationRecord>), AllocError>
    ensures { IfOk result (λ first. (first.0 ≡ no_places ports chambers) × (first.1.items ≡ replicate (spot_count ports chambers) first_location)) }
{
    let places = Places::new(alloc, ports, chambers)?;
    let locations = vec![in alloc; LocationRecord::new(); places.location_count()]?;
    Ok((places, locations))
}

/// No substrate, and no job of a tool with these recipes.
pub(crate) fn first_work(
    alloc: Global,
    recipes: &[Recipe],
) -> Result<(Substrates, Jobs), AllocError>
    ensures { IfOk result (λ first. (first.0 ≡ []) × (first.1 ≡ no_jobs recipes.now)) }
{
    let substrates = Substrates::new(alloc)?;
    let jobs = Jobs::new(alloc, recipes)?;
    Ok((substrates, jobs))
}
