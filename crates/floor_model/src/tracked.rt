ghost use Rattle.floor_model.specs.Floor.{number_of};

use gem_ids::{LocId, SubstrateId};
use records::Numbered;
use substrate::SubstrateRecord;

/// A substrate of a carrier that is here: its number of registration, which is its own for good; its name; the number of creation of
/// its carrier; its slot; its states (SEMI E90); whether it is aligned; the number of steps of its route that are done; and the number of creation of
/// the process job that it is a member of, 0 where it is in none.
#[derive(Clone, Copy)]
pub struct Substrate {
    pub number: u64,
    pub sub: SubstrateId,
    pub carrier: u64,
    pub slot: LocId,
    pub states: SubstrateRecord,
    pub aligned: bool,
    pub steps: u8,
    pub job: u64,
}

impl Numbered for Substrate {
    ghost number = { number_of };

    fn number(&self) -> u64 {
        self.number
    }
}
