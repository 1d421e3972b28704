//! The lines that are kept of reports and of collection events.

ghost use Rattle.std.specs.Prelude.{◌≡◌, OnOk, OnErr};
ghost use Rattle.event_reports.specs.Reports.{silent, with_enabled, link_without, unlinked, with_link};

use gem_ids::Ids;
use item_model::NoMemory;
use std::alloc::Global;
use std::mem;

/// A report: its RPTID, and the variables that it gives, in order (SEMI E5, RPTID, VID).
#[derive(Clone, Drop)]
pub struct Report {
    pub id: u32,
    pub vids: Ids,
}

/// A collection event: its CEID, whether it is enabled, and the reports that it is linked to, in order. It has no link
/// where there are none (SEMI E5, CEID, CEED, RPTID).
#[derive(Clone, Drop)]
pub struct EventLine {
    pub ceid: u32,
    pub enabled: bool,
    pub reports: Ids,
}

impl EventLine {
    // An event that is not enabled and has no link.
    pub(crate) fn silent(alloc: Global, ceid: u32) -> EventLine
        ensures { result ≡ silent ceid }
    {
        EventLine {
            ceid,
            enabled: false,
            reports: Ids::new(alloc),
        }
    }

    // Enables or disables the event where it is named, and where none is.
    pub(crate) fn enable(&mut self, on: bool, ceids: &[u32])
        ensures { self.new ≡ with_enabled on ceids.now self.old }
    {
        if ceids.is_empty() || ceids.contains(&self.ceid) {
            self.enabled = on;
        }
    }

    // Takes a report out of the link, at all its places.
    pub(crate) fn forget(&mut self, alloc: Global, rptid: u32)
        ensures { self.new ≡ link_without rptid self.old }
    {
        let mut rptids = mem::replace(&mut self.reports, Ids::new(alloc)).into_vec();
        rptids.retain(|linked| *linked != rptid);
        self.reports = Ids::from_vec(rptids);
    }

    // Takes the link away.
    pub(crate) fn unlink(&mut self, alloc: Global)
        ensures { self.new ≡ unlinked self.old }
    {
        self.reports = Ids::new(alloc);
    }

    // Links the event to these reports, where it is of this CEID.
    pub(crate) fn link(&mut self, ceid: u32, rptids: &Ids) -> Result<(), NoMemory>
        ensures linked { OnOk result (self.new ≡ with_link ceid rptids.now self.old) }
        ensures no_memory { OnErr result (self.new ≡ self.old) }
    {
        if self.ceid == ceid {
            self.reports = rptids.clone()?;
        }
        Ok(())
    }
}
