//! The floor of the tool, borrowed by its parts.
ghost use Rattle.std.specs.Prelude.{◌≡◌};
ghost use Rattle.substrate.specs.Places.{substrate_at};

use crate::tracked::Substrate;
use gem_ids::{LocId, SubstrateId};
use robot_moves::Modules;
use shop_floor::ShopFloor;
use std::marker::Model;
use substrate::{LocationRecord, Places};
use tool_jobs::Jobs;

/// A floor of the tool as others read it, borrowed by its parts, so that they need not know who keeps it. Contracts see it as the floor.
#[derive(Drop)]
pub struct FloorParts<'a> {
    shop: &'a ShopFloor,
    modules: &'a Modules,
    places: &'a Places,
    locations: &'a [LocationRecord],
    substrates: &'a [Substrate],
    commands: u64,
    jobs: &'a Jobs,
}

impl<'a> Model for FloorParts<'a> {
    ghost use Rattle.floor_model.specs.Floor.{ToolFloor};

    ghost Value = { ToolFloor };

    ghost view = { λ p. record {
      shop = p.shop.now;
      modules = p.modules.now;
      places = p.places.now;
      locations = p.locations.now;
      substrates = p.substrates.now;
      commands = p.commands;
      jobs = p.jobs.now;
    } };
}

impl<'a> FloorParts<'a> {
    /// The floor of these parts: the load ports and the carriers, the modules, which substrate has which place, the locations by
    /// their numbers, the substrates of the carriers that are here, how many commands were given, and the jobs.
    pub fn of(
        shop: &'a ShopFloor,
        modules: &'a Modules,
        places: &'a Places,
        locations: &'a [LocationRecord],
        substrates: &'a [Substrate],
        commands: u64,
        jobs: &'a Jobs,
    ) -> FloorParts<'a>
        ensures { result ≡ record { shop = shop.now; modules = modules.now; places = places.now; locations = locations.now; substrates = substrates.now; commands = commands; jobs = jobs.now } }
    {
        FloorParts {
            shop,
            modules,
            places,
            locations,
            substrates,
            commands,
            jobs,
        }
    }

    /// The load ports and the carriers.
    pub fn shop(&self) -> &ShopFloor
        ensures { result.now ≡ self.now.shop }
    {
        self.shop
    }

    /// The process jobs and the control jobs.
    pub fn jobs(&self) -> &Jobs
        ensures { result.now ≡ self.now.jobs }
    {
        self.jobs
    }

    /// The name of the substrate at a location. `None` exactly where none is there.
    pub fn at(&self, loc: LocId) -> Option<SubstrateId>
        ensures { result ≡ substrate_at loc self.now.places.held }
    {
        self.places.at(loc)
    }
}
