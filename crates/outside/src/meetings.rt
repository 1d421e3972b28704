ghost use Rattle.std.specs.Prelude.{◌≡◌, ◌<◌, ◌≤◌};
ghost use Rattle.outside.specs.Counts.{Rose, Counted, one_more};
ghost use Rattle.outside.specs.Doors.{is_link, is_early, is_closed};

use crate::met::Met;

// How many calls of a door failed, how many links it gave, and how often it answered `NotYet` and `Closed`. A count stands
// still at the greatest that a u64 holds.
#[derive(Clone, Copy)]
pub(crate) struct Meetings {
    pub(crate) faults: u64,
    pub(crate) links: u64,
    pub(crate) waits: u64,
    pub(crate) closings: u64,
}

impl Meetings {
    // Of no calls.
    pub(crate) fn none() -> Meetings
        ensures { result ≡ record { faults = 0; links = 0; waits = 0; closings = 0 } }
    {
        Meetings {
            faults: 0,
            links: 0,
            waits: 0,
            closings: 0,
        }
    }

    // Counts a call that failed.
    pub(crate) fn failed(&mut self)
        ensures faults { self.new.faults ≡ one_more self.old.faults }
        ensures rose { Rose self.old.faults self.new.faults }
        ensures faults_stay { self.old.faults ≤ self.new.faults }
        ensures same { self.new ≡ record self.old { faults = self.new.faults } }
    {
        self.faults = self.faults.saturating_add(1);
    }

    // Counts what was met.
    pub(crate) fn met<I, O>(&mut self, met: &Met<I, O>)
        ensures links { Counted (is_link met.now) self.old.links self.new.links }
        ensures waits { Counted (is_early met.now) self.old.waits self.new.waits }
        ensures closings { Counted (is_closed met.now) self.old.closings self.new.closings }
        ensures faults { self.new.faults ≡ self.old.faults }
    {
        match met {
            Met::Link(_, _) => self.links = self.links.saturating_add(1),
            Met::NotYet => self.waits = self.waits.saturating_add(1),
            Met::Closed => self.closings = self.closings.saturating_add(1),
        }
    }
}
