//! The reports of events, with the values of their variables (SEMI E30, event reports).
ghost use Rattle.std.specs.Prelude.{◌≡◌, IfOk};
ghost use Rattle.message_model.specs.GemSendable.{AreFew};
ghost use Rattle.event_reports.specs.Reports.{report_items, one_items};
ghost use Rattle.gem_model.specs.Values.{value_of};

use crate::seen::Seen;
use crate::shown::prints;
use gem_ids::Text80;
use item_model::Items;
use std::alloc::{AllocError, Global};

impl<'a> Seen<'a> {
    /// The reports of an event on an occasion: in a firing of this row, which is 100 times its table plus its number, at the
    /// object of this name; or outside a firing, with an empty name and 0.
    pub fn reports_on(
        &self,
        alloc: Global,
        ceid: u32,
        object: Text80,
        row: u16,
    ) -> Result<Items, AllocError>
        ensures reports { IfOk result (λ reports. reports ≡ report_items (value_of (record { object = object; row = row }) self.now) ceid self.now.reports) }
        ensures few { IfOk result (AreFew 16 3 5392) }
    {
        prints(&object);
        self.few_alarms();
        self.shown_names();
        let mut reports = Items::new(alloc);
        let showing = self.showing(object, row);
        self.reports.report(alloc, ceid, &showing, &mut reports)?;
        Ok(reports)
    }

    /// The values of a report on such an occasion.
    pub fn one_on(
        &self,
        alloc: Global,
        rptid: u32,
        object: Text80,
        row: u16,
    ) -> Result<Items, AllocError>
        ensures values { IfOk result (λ values. values ≡ one_items (value_of (record { object = object; row = row }) self.now) rptid self.now.reports) }
        ensures few { IfOk result (AreFew 1024 1 84) }
    {
        prints(&object);
        self.few_alarms();
        self.shown_names();
        let mut values = Items::new(alloc);
        let showing = self.showing(object, row);
        self.reports.one(alloc, rptid, &showing, &mut values)?;
        Ok(values)
    }
}
