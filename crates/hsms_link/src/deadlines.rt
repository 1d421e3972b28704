//! The deadlines of a link: T7, T6 and the linktest period (SEMI E37).

ghost use Rattle.std.specs.Prelude.{◌≡◌, ◌+◌};
ghost use Rattle.hsms_link.specs.Deadlines.{has_come, due_at};

use crate::state::{LinkState, Phase, Ping};
use gem_ids::Moment;

/// The times of a link in hundredths of a second: T6 and T7 (SEMI E37), and the linktest period, where 0 means that the
/// tool asks no linktest.
#[derive(Clone, Copy)]
pub struct LinkTimes {
    pub t6: u32,
    pub t7: u32,
    pub period: u32,
}

/// What is due on a link: its end by T7 or T6, or a linktest request of the tool.
#[derive(Clone, Copy)]
pub enum LinkDue {
    T7,
    T6,
    AskLinktest,
}

/// Whether this time after `since`, in hundredths of a second, has come at the moment `at`. A sum past the last moment
/// never comes.
pub fn has_come(since: Moment, time: u32, at: Moment) -> bool
    ensures { result ≡ has_come (since.0 + time) at.0 }
{
    match since.0.checked_add(u64::from(time)) {
        Some(deadline) => deadline <= at.0 && deadline <= Moment::LAST.0,
        None => false,
    }
}

impl LinkState {
    /// What is due at this moment; `None` exactly where no deadline has come. T7 runs from the moment at which the link
    /// came up, while it isn't selected. While it is, the linktest period runs where no linktest is open, and T6 while
    /// one is.
    pub fn due(&self, times: LinkTimes, at: Moment) -> Option<LinkDue>
        ensures { result ≡ due_at times self.now at.0 }
    {
        let (since, time, due) = match (self.phase, self.ping) {
            (Phase::NotSelected { since }, _) => (since, times.t7, LinkDue::T7),
            (Phase::Selected, Ping::Asked { since, .. }) => (since, times.t6, LinkDue::T6),
            (Phase::Selected, Ping::Quiet { since }) if times.period > 0 => {
                (since, times.period, LinkDue::AskLinktest)
            }
            _ => return None,
        };
        has_come(since, time, at).then_some(due)
    }
}
