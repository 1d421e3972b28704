//! What is done to a substrate where it is kept, and asked of it.

ghost use Rattle.std.specs.Prelude.{◌≡◌};
ghost use Rattle.floor_model.specs.Jobs.{joined, freed};
ghost use Rattle.floor_model.specs.Machines.{substrate_moves};
ghost use Rattle.floor_model.specs.Modules.{aligned, one_more, stepped};
ghost use Rattle.floor_model.specs.Substrates.{is_of};

use crate::members::can_join;
use floor_model::Substrate;
use process_job::ProcessJob;
use records::{Change, Test};
use shop_floor::ShopFloor;

// A row of table 12 or 13 fires at it.
#[derive(Drop)]
pub(crate) struct Fires {
    pub(crate) table: u8,
    pub(crate) row: u8,
}

impl Change<Substrate> for Fires {
    ghost does = { λ f s. substrate_moves f.table f.row s };

    fn apply(&self, substrate: &mut Substrate) {
        substrate.states.fire(self.table, self.row);
        if self.table == 13 && self.row == 3 {
            substrate.steps = one_more(substrate.steps);
        }
    }
}

// One step more of a route is done; it has at most six.
fn one_more(steps: u8) -> u8
    ensures { result ≡ one_more steps }
{
    if steps < 6 { steps + 1 } else { steps }
}

// The next step of its route is done.
#[derive(Drop)]
pub(crate) struct Steps;

impl Change<Substrate> for Steps {
    ghost does = { λ t s. stepped s };

    fn apply(&self, substrate: &mut Substrate) {
        substrate.steps = one_more(substrate.steps);
    }
}

// It is aligned.
#[derive(Drop)]
pub(crate) struct Aligns;

impl Change<Substrate> for Aligns {
    ghost does = { λ a s. aligned s };

    fn apply(&self, substrate: &mut Substrate) {
        substrate.aligned = true;
    }
}

// It becomes a member of a process job, where it can.
#[derive(Drop)]
pub(crate) struct Joins<'a> {
    pub(crate) job: &'a ProcessJob,
    pub(crate) shop: &'a ShopFloor,
}

impl<'a> Change<Substrate> for Joins<'a> {
    ghost does = { λ j s. joined j.job.now j.shop.now s };

    fn apply(&self, substrate: &mut Substrate) {
        if can_join(self.job, self.shop, substrate) {
            substrate.job = self.job.number;
        }
    }
}

// It is in no job, where it was a member of the process job of a number.
#[derive(Drop)]
pub(crate) struct Frees {
    pub(crate) job: u64,
}

impl Change<Substrate> for Frees {
    ghost does = { λ f s. freed f.job s };

    fn apply(&self, substrate: &mut Substrate) {
        if substrate.job == self.job {
            substrate.job = 0;
        }
    }
}

// It is of the carrier of a number.
#[derive(Drop)]
pub(crate) struct IsOf {
    pub(crate) carrier: u64,
}

impl Test<Substrate> for IsOf {
    ghost passes = { λ t s. is_of t.carrier s };

    fn passes(&self, substrate: &Substrate) -> bool {
        substrate.carrier == self.carrier
    }
}
