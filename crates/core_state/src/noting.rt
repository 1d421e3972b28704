//! The notes that firings and changes of alarms make (SEMI E30, event reports and alarms).
ghost use Rattle.std.specs.Prelude.{◌≡◌, ◌≤◌, ◌+◌, ◌*◌, [], length, OnOk, IfOk, Some};
ghost use Rattle.gem_tables.specs.Names.{table_number};
ghost use Rattle.item_model.specs.Plain.{plain};
ghost use Rattle.message_model.specs.declared.gem_reply.GemReply.TheVariants as reply;
ghost use Rattle.message_model.specs.GemReplies.{reply_body};
ghost use Rattle.event_reports.specs.Reports.{report_items};
ghost use Rattle.event_reports.specs.Alarms.{is_set};
ghost use Rattle.note_line.specs.Limits.{most_text};
ghost use Rattle.note_line.specs.Line.{next};
ghost use Rattle.gem_model.specs.Values.{value_of};
ghost use Rattle.core_state.specs.Reported.{is_row_reported};
ghost use Rattle.gem_model.specs.Noting.{is_event_reported, event_text, line_with_event, line_behind, noted_as, is_alarm_reported, alcd, text_of_alarm, alarm_line, line_with_alarm, sets_alarm, clears_alarm};

use crate::plant::Plant;
use gem_ids::Text80;
use gem_rows::{RowId, ceid_of};
use gem_states::Comm;
use gem_tables::Table;
use hsms_frame::Bytes;
use message_model::GemReply;
use note_line::Kind;
use plant_parts::{alcd, text_of_alarm, text_of_reply};
use std::alloc::{AllocError, Global};

/// A row that fired: the row, the name of its object, and whether control was ON-LINE before it.
#[derive(Clone, Copy)]
pub struct RowFiring {
    pub row: RowId,
    pub object: Text80,
    pub online_before: bool,
}

impl RowFiring {
    /// A row of a table whose one object has no name.
    pub fn unnamed(table: Table, row: u8, online_before: bool) -> RowFiring
        ensures { result ≡ record { row = record { table = table_number table; row = row }; object = []; online_before = online_before } }
    {
        RowFiring {
            row: RowId::new(table, row),
            object: Text80::empty(),
            online_before,
        }
    }
}

impl Plant {
    /// Whether the event of this CEID is reported behind a firing: it is enabled, communication isn't DISABLED, and control
    /// is ON-LINE or was before it.
    fn is_event_reported(&self, ceid: u32, online_before: bool) -> bool
        ensures { result ≡ is_event_reported ceid online_before self.now }
    {
        self.reports.is_enabled(ceid)
            && self.comm != Comm::Disabled
            && (online_before || self.is_online())
    }

    /// Whether a row makes its note that leaves communication, control and the reports as they are.
    pub(crate) fn is_row_reported(&self, row: RowId) -> bool
        ensures { result ≡ is_row_reported row.table row.row self.now }
    {
        match ceid_of(row) {
            Some(ceid) => self.is_event_reported(ceid, self.is_online()),
            None => false,
        }
    }

    /// The text of S6F11 of the next note, with the values of the event's reports in a firing.
    #[tactic(auto, using(crate::proofs::NoteTexts::event_short, crate::proofs::Telling::text_is))]
    fn event_text(
        &self,
        alloc: Global,
        ceid: u32,
        object: Text80,
        row: u16,
    ) -> Result<Bytes, AllocError>
        ensures text { IfOk result (λ text. text ≡ event_text (next self.now.line) ceid (report_items (value_of (record { object = object; row = row }) self.now) ceid self.now.reports)) }
        ensures short { IfOk result (λ text. length text ≤ most_text) }
    {
        let seen = self.seen();
        let reports = seen.reports_on(alloc, ceid, object, row)?;
        let number = self.line.notes().next_number();
        let text = text_of_reply(alloc, GemReply::S6F11(number, ceid, reports))?;
        Ok(text)
    }

    /// The note of an event waits behind the others.
    #[inline(never)]
    fn note_event(
        &mut self,
        alloc: Global,
        ceid: u32,
        object: Text80,
        row: u16,
    ) -> Result<(), AllocError>
        ensures { OnOk result (self.new ≡ record self.old { line = line_with_event ceid (record { object = object; row = row }) self.old }) }
    {
        let text = self.event_text(alloc, ceid, object, row)?;
        self.line.add(Kind::Event, ceid, text)?;
        Ok(())
    }

    /// The event of a row that fired makes its note, where it is reported. The row is 100 times its table plus its number.
    #[tactic(auto, using(crate::proofs::Telling::event_told, crate::proofs::Telling::event_untold))]
    fn tell_event(
        &mut self,
        alloc: Global,
        ceid: u32,
        object: Text80,
        row: u16,
        online_before: bool,
    ) -> Result<(), AllocError>
        ensures { OnOk result (self.new ≡ record self.old { line = line_behind (Some ceid) (record { object = object; row = row }) online_before self.old }) }
    {
        if self.is_event_reported(ceid, online_before) {
            self.note_event(alloc, ceid, object, row)?;
        }
        Ok(())
    }

    /// Makes the note of a row that fired and led to the present state, where its event is reported: with the next number,
    /// and the values of the reports that the event is linked to, it waits behind the others (SEMI E30, event reports).
    pub fn note(&mut self, alloc: Global, firing: RowFiring) -> Result<(), AllocError>
        ensures { OnOk result (self.new ≡ noted_as firing.row.table firing.row.row firing.object firing.online_before self.old) }
    {
        let RowFiring {
            row,
            object,
            online_before,
        } = firing;
        let Some(ceid) = ceid_of(row) else {
            return Ok(());
        };
        let number = 100 * u16::from(row.table) + u16::from(row.row);
        self.tell_event(alloc, ceid, object, number, online_before)?;
        Ok(())
    }

    /// Whether changes of this alarm are reported: it is enabled, communication isn't DISABLED, and control is ON-LINE.
    fn is_alarm_reported(&self, alid: u32) -> bool
        ensures { result ≡ is_alarm_reported alid self.now }
    {
        self.alarms.is_enabled(alid) && self.comm != Comm::Disabled && self.is_online()
    }

    /// The text of S5F1 of an alarm, by whether it is set.
    fn alarm_text(&self, alloc: Global, alid: u32) -> Result<Bytes, AllocError>
        ensures text { IfOk result (λ text. text ≡ plain (reply_body (reply.S5F1 (alcd (is_set alid self.now.alarms)) alid (text_of_alarm alid)))) }
        ensures short { IfOk result (λ text. length text ≤ most_text) }
    {
        let code = alcd(self.alarms.is_set(alid));
        text_of_reply(alloc, GemReply::S5F1(code, alid, text_of_alarm(alid)))
    }

    /// The note of an alarm, by whether it is set, waits behind the others.
    #[inline(never)]
    fn note_alarm(&mut self, alloc: Global, alid: u32) -> Result<(), AllocError>
        ensures { OnOk result (self.new ≡ record self.old { line = alarm_line alid self.old }) }
    {
        let text = self.alarm_text(alloc, alid)?;
        self.line.add(Kind::Alarm, alid, text)?;
        Ok(())
    }

    /// A change of an alarm to its present state makes its note, where it is reported.
    #[tactic(auto, using(crate::proofs::Telling::alarm_told, crate::proofs::Telling::alarm_untold))]
    fn tell_alarm(&mut self, alloc: Global, alid: u32) -> Result<(), AllocError>
        ensures { OnOk result (self.new ≡ record self.old { line = line_with_alarm alid self.old }) }
    {
        if self.is_alarm_reported(alid) {
            self.note_alarm(alloc, alid)?;
        }
        Ok(())
    }

    /// An alarm is set, and the change is told, where it was clear (SEMI E30, alarms). An alarm that the tool doesn't have
    /// changes nothing.
    pub fn set_alarm(&mut self, alloc: Global, alid: u32) -> Result<(), AllocError>
        ensures { OnOk result (self.new ≡ sets_alarm alid self.old) }
    {
        if self.alarms.is_known(alid) && !self.alarms.is_set(alid) {
            self.alarms.set(alid);
            self.tell_alarm(alloc, alid)?;
        }
        Ok(())
    }

    /// An alarm is cleared, and the change is told, where it was set (SEMI E30, alarms).
    pub fn clear_alarm(&mut self, alloc: Global, alid: u32) -> Result<(), AllocError>
        ensures { OnOk result (self.new ≡ clears_alarm alid self.old) }
    {
        if self.alarms.is_set(alid) {
            self.alarms.clear(alid);
            self.tell_alarm(alloc, alid)?;
        }
        Ok(())
    }
}
