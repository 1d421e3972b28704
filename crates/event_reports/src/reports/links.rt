//! To which reports events are linked (SEMI E5, S2F35).

ghost use Rattle.std.specs.Prelude.{◌≡◌, ◌==◌, ◌≤◌, if◌then◌else◌, length, map, IfOk, OnOk, OnErr};
ghost use Rattle.std.specs.List.{AllByRecursion, list_all, list_any};
ghost use Rattle.event_reports.specs.Within.{HasShortLink};
ghost use Rattle.event_reports.specs.Limits.{most_linked};
ghost use Rattle.event_reports.specs.Reports.{is_report, with_link, first_refusal, after_all, link_code, after_link, lrack, linked};

use super::Reports;
use crate::lines::EventLine;
use gem_ids::Ids;
use item_model::NoMemory;
use std::alloc::Global;

// An event is linked to so many reports at most.
const MOST_LINKED: usize = 16;

impl Reports {
    /// Links events to reports, each a CEID with its RPTIDs (SEMI E5, S2F35). They are taken in order, and each is judged
    /// after those before it: an event without RPTIDs loses its link. The answer is LRACK: 4 for an unknown event, and,
    /// where it has RPTIDs, 3 for an event that has a link, 5 for a report that is not defined, 1 past 16 reports, in
    /// this order, of the first event that has such a fault; 0 where none has. With another answer than 0, and after
    /// `NoMemory`, nothing has changed.
    pub fn link(&mut self, alloc: Global, links: &[(u32, Ids)]) -> Result<u8, NoMemory>
        ensures code { IfOk result (λ code. code ≡ lrack links.now self.old) }
        ensures after { OnOk result (self.new ≡ linked links.now self.old) }
        ensures no_memory { OnErr result (self.new ≡ self.old) }
    {
        let draft = self.copy(alloc)?;
        self.link_on(draft, links)
    }

    // Links events on a copy of these, which they become where no link is refused.
    fn link_on(&mut self, mut draft: Reports, links: &[(u32, Ids)]) -> Result<u8, NoMemory>
        ensures code { IfOk result (λ code. code ≡ first_refusal link_code after_link links.now draft) }
        ensures after { IfOk result (λ code. self.new ≡ (if code == 0 then after_all after_link links.now draft else self.old)) }
        ensures no_memory { OnErr result (self.new ≡ self.old) }
    {
        let code = draft.link_in_turn(links)?;
        self.settle(draft, code);
        Ok(code)
    }

    // Links events in order, up to the first that is refused.
    fn link_in_turn(&mut self, links: &[(u32, Ids)]) -> Result<u8, NoMemory>
        ensures code { IfOk result (λ code. code ≡ first_refusal link_code after_link links.now self.old) }
        ensures after { IfOk result (λ code. code ≡ 0 → self.new ≡ after_all after_link links.now self.old) }
    {
        for (ceid, rptids) in links {
            let code = self.link_code(*ceid, rptids.as_slice());
            if code != 0 {
                return Ok(code);
            }
            self.take_link(*ceid, rptids)?;
        }
        Ok(0)
    }

    // The code of one link.
    fn link_code(&self, ceid: u32, rptids: &[u32]) -> u8
        ensures { result ≡ link_code (ceid, rptids.now) self.now }
    {
        if !self.is_event(ceid) {
            4
        } else if rptids.is_empty() {
            0
        } else if self.has_link(ceid) {
            3
        } else if !self.are_reports(rptids) {
            5
        } else if rptids.len() > MOST_LINKED {
            1
        } else {
            0
        }
    }

    // Whether all of these reports are defined.
    fn are_reports(&self, rptids: &[u32]) -> bool
        ensures { result ≡ list_all (λ rptid. is_report rptid self.now) rptids.now }
    {
        rptids.iter().all(|rptid| self.is_report(*rptid))
    }

    // Links an event, which is not refused.
    fn take_link(&mut self, ceid: u32, rptids: &Ids) -> Result<(), NoMemory>
        requires { length rptids.now ≤ most_linked }
        ensures { OnOk result (self.new ≡ after_link (ceid, rptids.now) self.old) }
    {
        link_lines(&mut self.events, ceid, rptids)
    }
}

// Links the event of this CEID. No link gets longer than it may be, and the events and whether one is enabled stay the same, after
// `NoMemory` too.
fn link_lines(events: &mut [EventLine], ceid: u32, rptids: &Ids) -> Result<(), NoMemory>
    requires link { length rptids.now ≤ most_linked }
    requires links { AllByRecursion HasShortLink events.old }
    ensures linked { OnOk result (events.new ≡ map (with_link ceid rptids.now) events.old) }
    ensures links { AllByRecursion HasShortLink events.new }
    ensures ceids { map (λ e. e.ceid) events.new ≡ map (λ e. e.ceid) events.old }
    ensures enabled { list_any (λ e. e.enabled) events.new ≡ list_any (λ e. e.enabled) events.old }
{
    for event in events {
        event.link(ceid, rptids)?;
    }
    Ok(())
}
