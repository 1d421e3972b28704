//! Whom the robot is best to pick, as the planner asks for it (this tool's profile, moves). In the chambers, from the last of them down,
//! and at the aligner it is looked who is there. Only where nobody is to be picked there, the substrates in their slots are gone through in the order of their
//! registration, and by what is known without looking where they are; the first of them whose pick is useful is the one.

ghost use Rattle.std.specs.Prelude.{◌≡◌};
ghost use Rattle.gem_ids.specs.declared.numbers.LocId.TheVariants.{Aligner};
ghost use Rattle.robot_moves.specs.Moves.{is_free};
ghost use Rattle.floor_model.specs.Floor.{RiseTo};
ghost use Rattle.floor_model.specs.Views.{views};
ghost use Rattle.floor_model.specs.Picks.{told_there, told_in_slot, where_useful, pick_at, last_chamber_pick, aligner_pick, may_be_picked, slot_pick, first_in_slot};

use crate::floor::ToolFloor;
use crate::planning::{is_processing, view_of};
use floor_model::Substrate;
use gem_ids::{LocId, ModuleId};
use robot_moves::{Modules, Picks, PlaceView, Whereabouts, is_free, is_useful};
use substrate::{Registered, is_work_place};
use tool_jobs::Jobs;

const ALIGNER: ModuleId = ModuleId(2);

impl Picks for ToolFloor {
    fn best_pick(&self, modules: &Modules) -> Option<PlaceView> {
        self.are_places();
        if let Some(v) = self.chamber_pick(modules) {
            return Some(v);
        }
        if let Some(v) = self.aligner_pick(modules) {
            return Some(v);
        }
        self.slot_pick(modules)
    }
}

// Whether a substrate may be picked from its slot, by what is known without looking where it is; it is said whether the aligner is
// free.
fn may_be_picked(aligner: bool, s: &Substrate, jobs: &Jobs) -> bool
    ensures { result ≡ may_be_picked aligner s.now jobs.now }
{
    !is_work_place(s.slot)
        && !s.states.processing.is_finished()
        && (s.aligned || aligner)
        && is_processing(jobs.process().numbered(s.job))
}

// What is told of a substrate, where it is the one that was found at a place.
fn told_there(s: &Substrate, r: Option<Registered>, jobs: &Jobs) -> Option<PlaceView>
    ensures { result ≡ told_there s.now jobs.now r }
{
    match r {
        Some(r) => {
            if r.number == s.number {
                Some(view_of(&r, s, jobs))
            } else {
                None
            }
        }
        None => None,
    }
}

impl ToolFloor {
    // A substrate, where its pick is useful.
    fn where_useful(&self, modules: &Modules, found: Option<PlaceView>) -> Option<PlaceView>
        ensures { result ≡ where_useful (views self.now) modules.now found }
    {
        match found {
            Some(v) => {
                if is_useful(self, modules, &v) {
                    Some(v)
                } else {
                    None
                }
            }
            None => None,
        }
    }

    // The substrate at the location of a module, where the module is Idle and the pick is useful.
    fn pick_at(&self, m: ModuleId, loc: LocId, modules: &Modules) -> Option<PlaceView>
        ensures { result ≡ pick_at m.0 loc (views self.now) modules.now }
    {
        if modules.is_idle(m) {
            self.where_useful(modules, self.holder(loc))
        } else {
            None
        }
    }

    // The useful pick from the greatest chamber that has one.
    fn chamber_pick(&self, modules: &Modules) -> Option<PlaceView>
        ensures { result ≡ last_chamber_pick (views self.now) modules.now }
    {
        let chambers = modules.len().saturating_sub(2);
        for passed in 0..chambers {
            let c = (chambers - passed) as u8;
            let found = self.pick_at(ModuleId(c + 2), LocId::Chamber(c), modules);
            if found.is_some() {
                return found;
            }
        }
        None
    }

    // The useful pick from the aligner.
    fn aligner_pick(&self, modules: &Modules) -> Option<PlaceView>
        ensures { result ≡ aligner_pick (views self.now) modules.now }
    {
        self.pick_at(ALIGNER, LocId::Aligner, modules)
    }

    // The first useful pick from a slot, in the order of registration.
    fn slot_pick(&self, modules: &Modules) -> Option<PlaceView>
        ensures value { result ≡ first_in_slot self.now modules.now }
        ensures rise { RiseTo 0 self.now.places.given self.now.substrates }
    {
        let aligner = is_free(self, modules, LocId::Aligner);
        for place in 0..self.substrate_count() {
            if let Some(s) = self.substrate_at(place) {
                if let Some(v) = self.slot_pick_of(s, aligner, modules) {
                    return Some(v);
                }
            }
        }
        None
    }

    // A substrate that is in its slot, where its pick is useful.
    fn slot_pick_of(&self, s: &Substrate, aligner: bool, modules: &Modules) -> Option<PlaceView>
        requires { aligner ≡ is_free (views self.now) modules.now Aligner }
        ensures { result ≡ slot_pick s.now self.now modules.now }
    {
        if may_be_picked(aligner, s, &self.jobs) {
            self.where_useful(modules, self.told_in_slot(s))
        } else {
            None
        }
    }

    // What is told of a substrate that is in its slot.
    fn told_in_slot(&self, s: &Substrate) -> Option<PlaceView>
        ensures { result ≡ told_in_slot s.now self.now }
    {
        told_there(s, self.registered_in(s.slot), &self.jobs)
    }
}
