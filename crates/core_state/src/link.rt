//! The link of the session (SEMI E37).
ghost use Rattle.std.specs.Prelude.{◌≡◌, true};
ghost use Rattle.hsms_link.specs.Deadlines.{due_at};
ghost use Rattle.hsms_link.specs.LinkTable.{link_act};
ghost use Rattle.hsms_link.specs.declared.state.Phase.TheVariants.{NotSelected};
ghost use Rattle.hsms_link.specs.declared.state.Ping.TheVariants.{Off};
ghost use Rattle.gem_model.specs.State.{is_up};
ghost use Rattle.gem_model.specs.Due.{link_times};
ghost use Rattle.gem_model.specs.Step.{linked};

use crate::plant::Plant;
use gem_ids::Moment;
use gem_rows::ecids;
use hsms_frame::Header;
use hsms_link::{LinkAct, LinkDue, LinkTimes};

impl Plant {
    /// The times of the link.
    fn link_times(&self) -> LinkTimes
        ensures { result ≡ link_times self.now }
    {
        LinkTimes {
            t6: self.constants.number(ecids::T6),
            t7: self.constants.number(ecids::T7),
            period: self.constants.number(ecids::LINKTEST_PERIOD),
        }
    }

    /// What is due on the link at this moment: its end by T7 or T6, or a linktest of the tool. `None`: no deadline of
    /// the link has come.
    pub fn link_due(&self, at: Moment) -> Option<LinkDue>
        ensures { result ≡ due_at (link_times self.now) self.now.link at.0 }
    {
        self.link.due(self.link_times(), at)
    }

    /// A link comes up at the present moment, as the session of this number. It isn't selected yet.
    pub fn link_up(&mut self, session: u64)
        ensures { self.new ≡ record self.old { link = record { session = session; phase = NotSelected (record { 0 = self.old.moment }); ping = Off } } }
    {
        self.link.up(session, self.moment);
    }

    /// The link takes the header of a message that arrived at the present moment, by its table: what the header does. A
    /// session is up. At `Ended` it stays up: the caller ends it.
    pub fn take_header(&mut self, header: &Header) -> LinkAct
        requires { is_up self.old ≡ true }
        ensures act { result ≡ link_act header.now self.old.link }
        ensures after { self.new ≡ linked self.old header.now }
    {
        self.link.take(header, self.moment)
    }
}
