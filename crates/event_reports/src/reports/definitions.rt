//! Which reports are defined (SEMI E5, S2F33).

ghost use Rattle.std.specs.Prelude.{◌≡◌, ◌==◌, if◌then◌else◌, not, ◌<◌, ◌≤◌, ◌++◌, ◌∷◌, [], length, map, IfOk, OnOk, OnErr};
ghost use Rattle.std.specs.List.{filter, list_all};
ghost use Rattle.gem_rows.specs.Variables.{is_vid};
ghost use Rattle.event_reports.specs.Limits.{most_reports, most_vids};
ghost use Rattle.event_reports.specs.Reports.{link_without, unlinked, without_report, without_reports, first_refusal, after_all, report_code, after_report, drack, defined};

use super::Reports;
use crate::lines::{EventLine, Report};
use gem_ids::Ids;
use gem_rows::is_vid;
use item_model::NoMemory;
use std::alloc::Global;

// So many reports are defined at most.
const MOST_REPORTS: usize = 256;
// A report has so many VIDs at most.
const MOST_VIDS: usize = 64;

impl Reports {
    /// Defines reports and deletes reports, each an RPTID with its VIDs (SEMI E5, S2F33). An empty list deletes all
    /// reports and all links. Otherwise they are taken in order, and each is judged after those before it: one without
    /// VIDs is deleted with its places in links, whether it was defined or not, and another one is defined. The answer is
    /// DRACK: 3 for a report that is defined, 4 for an unknown VID, 1 past 256 reports or 64 VIDs, in this order, of the
    /// first report that has such a fault; 0 where none has. With another answer than 0, and after `NoMemory`, nothing
    /// has changed.
    pub fn define(&mut self, alloc: Global, reports: &[(u32, Ids)]) -> Result<u8, NoMemory>
        ensures code { IfOk result (λ code. code ≡ drack reports.now self.old) }
        ensures after { OnOk result (self.new ≡ defined reports.now self.old) }
        ensures no_memory { OnErr result (self.new ≡ self.old) }
    {
        if reports.is_empty() {
            self.delete_all(alloc);
            return Ok(0);
        }
        let draft = self.copy(alloc)?;
        self.define_on(draft, alloc, reports)
    }

    // Defines and deletes reports on a copy of these, which they become where none is refused.
    fn define_on(
        &mut self,
        mut draft: Reports,
        alloc: Global,
        reports: &[(u32, Ids)],
    ) -> Result<u8, NoMemory>
        ensures code { IfOk result (λ code. code ≡ first_refusal report_code after_report reports.now draft) }
        ensures after { IfOk result (λ code. self.new ≡ (if code == 0 then after_all after_report reports.now draft else self.old)) }
        ensures no_memory { OnErr result (self.new ≡ self.old) }
    {
        let code = draft.define_in_turn(alloc, reports)?;
        self.settle(draft, code);
        Ok(code)
    }

    // Defines and deletes reports in order, up to the first that is refused.
    fn define_in_turn(&mut self, alloc: Global, reports: &[(u32, Ids)]) -> Result<u8, NoMemory>
        ensures code { IfOk result (λ code. code ≡ first_refusal report_code after_report reports.now self.old) }
        ensures after { IfOk result (λ code. code ≡ 0 → self.new ≡ after_all after_report reports.now self.old) }
    {
        for (rptid, vids) in reports {
            let code = self.report_code(*rptid, vids.as_slice());
            if code != 0 {
                return Ok(code);
            }
            self.take_report(alloc, *rptid, vids)?;
        }
        Ok(0)
    }

    // The code of one report.
    fn report_code(&self, rptid: u32, vids: &[u32]) -> u8
        ensures { result ≡ report_code (rptid, vids.now) self.now }
    {
        if vids.is_empty() {
            0
        } else if self.is_report(rptid) {
            3
        } else if !self.knows(vids) {
            4
        } else if self.reports.len() >= MOST_REPORTS || vids.len() > MOST_VIDS {
            1
        } else {
            0
        }
    }

    // Whether the plant knows all of these variables.
    fn knows(&self, vids: &[u32]) -> bool
        ensures { result ≡ list_all (is_vid self.now.ports self.now.chambers) vids.now }
    {
        are_vids(self.ports, self.chambers, vids)
    }

    // Deletes a report without VIDs, and defines another one, which is not refused.
    fn take_report(&mut self, alloc: Global, rptid: u32, vids: &Ids) -> Result<(), NoMemory>
        requires { report_code (rptid, vids.now) self.old ≡ 0 }
        ensures { OnOk result (self.new ≡ after_report (rptid, vids.now) self.old) }
    {
        if vids.is_empty() {
            self.delete(alloc, rptid);
            return Ok(());
        }
        let vids = vids.clone()?;
        self.add(Report { id: rptid, vids })
    }

    // Defines a report, as the last.
    fn add(&mut self, report: Report) -> Result<(), NoMemory>
        requires few { length self.old.reports < most_reports }
        requires short { length report.vids ≤ most_vids }
        ensures { OnOk result (self.new ≡ record self.old { reports = self.old.reports ++ report ∷ [] }) }
    {
        self.reports.push(report)?;
        Ok(())
    }

    // Deletes a report, and takes it out of all links.
    fn delete(&mut self, alloc: Global, rptid: u32)
        ensures { self.new ≡ without_report rptid self.old }
    {
        remove(&mut self.reports, rptid);
        forget(&mut self.events, alloc, rptid);
    }

    // Deletes all reports and all links.
    fn delete_all(&mut self, alloc: Global)
        ensures { self.new ≡ without_reports self.old }
    {
        self.reports.clear();
        unlink(&mut self.events, alloc);
    }
}

// Whether a plant of so many ports and chambers knows all of these variables.
fn are_vids(ports: u8, chambers: u8, vids: &[u32]) -> bool
    ensures { result ≡ list_all (is_vid ports chambers) vids.now }
{
    vids.iter().all(|vid| is_vid(ports, chambers, *vid))
}

// Takes a report out of the defined ones.
fn remove(reports: &mut Vec<Report>, rptid: u32)
    ensures { reports.new.items ≡ filter (λ p. not (p.id == rptid)) reports.old.items }
{
    reports.retain(|report| report.id != rptid);
}

// Takes a report out of all links.
fn forget(events: &mut [EventLine], alloc: Global, rptid: u32)
    ensures { events.new ≡ map (link_without rptid) events.old }
{
    for event in events {
        event.forget(alloc, rptid);
    }
}

// Takes all links away.
fn unlink(events: &mut [EventLine], alloc: Global)
    ensures { events.new ≡ map unlinked events.old }
{
    for event in events {
        event.unlink(alloc);
    }
}
