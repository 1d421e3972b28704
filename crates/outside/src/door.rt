ghost use Rattle.std.specs.Prelude.{◌≡◌, ℕ, ◌<◌, ◌≤◌, List, Option, OnOk, OnErr};
ghost use Rattle.outside.specs.Counts.{Rose, Counted};
ghost use Rattle.outside.specs.Doors.{link_given, gave_link, was_early, was_closed};
ghost use Rattle.outside.specs.Told.{AtPort, Given, Grew};

use crate::link::{LinkIn, LinkOut};
use crate::met::Met;
use crate::source::Failed;

/// Where links come from.
pub trait Door {
    /// The end of its links at which bytes come in.
    type In: LinkIn + Send + Drop;

    /// The end of its links at which bytes go out.
    type Out: LinkOut + Send + Drop;

    /// The links that are left to be given, where the door tells them.
    ghost left: { Self → Option (List (Self.In × Self.Out)) };

    /// The links that were handed back, the first of them first, where the door tells them.
    ghost backs: { Self → Option (List (Self.In × Self.Out)) };

    /// The port at which it was asked to listen last, where the door tells it.
    ghost opened_at: { Self → Option ℕ };

    /// How often a call failed.
    ghost faults: { Self → ℕ };

    /// How many links it gave.
    ghost links: { Self → ℕ };

    /// How often it answered `NotYet`.
    ghost waits: { Self → ℕ };

    /// How often it answered `Closed`.
    ghost closings: { Self → ℕ };

    /// Begins to listen at a port. `Failed` comes only where the door's own count of faults rose in this call, and the
    /// count rises at no other answer.
    fn open(&mut self, port: u16) -> Result<(), Failed>
        ensures port { AtPort (opened_at self.new) port }
        ensures failed { OnErr result (Rose (faults self.old) (faults self.new)) }
        ensures unfailed { OnOk result (faults self.new ≡ faults self.old) }
        ensures faults_stay { faults self.old ≤ faults self.new }
        ensures left { left self.new ≡ left self.old }
        ensures backs { backs self.new ≡ backs self.old }
        ensures links { links self.new ≡ links self.old }
        ensures waits { waits self.new ≡ waits self.old }
        ensures closings { closings self.new ≡ closings self.old };

    /// Gives the next link, if one has come up. `NotYet`: none has, ask again. `Closed`: none will. `Failed` comes only
    /// where the door's own count of faults rose in this call, and then nothing was given; the count rises at no other
    /// answer.
    fn accept(&mut self) -> Result<Met<Self::In, Self::Out>, Failed>
        ensures given { Given (link_given result) (left self.old) (left self.new) }
        ensures backs { backs self.new ≡ backs self.old }
        ensures port { opened_at self.new ≡ opened_at self.old }
        ensures links { Counted (gave_link result) (links self.old) (links self.new) }
        ensures waits { Counted (was_early result) (waits self.old) (waits self.new) }
        ensures closings { Counted (was_closed result) (closings self.old) (closings self.new) }
        ensures failed { OnErr result (Rose (faults self.old) (faults self.new)) }
        ensures unfailed { OnOk result (faults self.new ≡ faults self.old) }
        ensures faults_stay { faults self.old ≤ faults self.new };

    /// Takes back a link whose session ended, or with which none began. It takes no memory and refuses nothing.
    fn back(&mut self, link_in: Self::In, link_out: Self::Out)
        ensures backs { Grew (backs self.old) (backs self.new) (link_in, link_out) }
        ensures left { left self.new ≡ left self.old }
        ensures port { opened_at self.new ≡ opened_at self.old }
        ensures faults { faults self.new ≡ faults self.old }
        ensures links { links self.new ≡ links self.old }
        ensures waits { waits self.new ≡ waits self.old }
        ensures closings { closings self.new ≡ closings self.old };
}
