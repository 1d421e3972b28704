//! Copies of the reports, on which a message is tried.

ghost use Rattle.std.specs.Prelude.{◌≡◌, ◌==◌, if◌then◌else◌, IfOk};

use super::Reports;
use item_model::NoMemory;
use std::alloc::Global;

impl Reports {
    // The same reports, links and enabled events.
    pub(super) fn copy(&self, alloc: Global) -> Result<Reports, NoMemory>
        ensures { IfOk result (λ copy. copy ≡ self.now) }
    {
        Ok(Reports {
            ports: self.ports,
            chambers: self.chambers,
            reports: Vec::from_clones(alloc, &self.reports)?,
            events: Vec::from_clones(alloc, &self.events)?,
            none_enabled: self.none_enabled,
        })
    }
    // The copy takes the place of these where nothing was refused on it; else it is let go.
    pub(super) fn settle(&mut self, draft: Reports, code: u8)
        ensures { self.new ≡ (if code == 0 then draft else self.old) }
    {
        if code == 0 {
            *self = draft;
        }
    }
}
