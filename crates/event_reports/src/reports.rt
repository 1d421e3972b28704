//! Reports, their links to collection events, and which events are enabled.

ghost use Rattle.std.specs.Prelude.{ℕ, length, take, ◌≡◌, ◌<◌, ◌≤◌, false, map, IfOk, OnOk, OnErr, IfSome, IfNone, option_map};
ghost use Rattle.std.specs.Option.{unwrap_or};
ghost use Rattle.std.specs.List.{list_all, list_any, HoldsAt};
ghost use Rattle.item_model.specs.Data.{list, no_items, added, first_items};
ghost use Rattle.item_model.specs.View.{view};
ghost use Rattle.item_model.specs.Plain.{count_of};
ghost use Rattle.item_model.specs.Weight.{AreBounded};
ghost use Rattle.event_reports.specs.Reports.{silent, no_reports, is_event, is_report, is_enabled, has_link, erack, enabled, with_enabled, vids_of, link_of, value_items, one_items, report_item, items_of_reports, report_items};
ghost use Rattle.gem_rows.specs.Events.{ceids};
ghost use Rattle.event_reports.specs.Values.{AreSmallValues, joined};
ghost use Rattle.event_reports.specs.Within.{AreWithin};
ghost use Rattle.event_reports.specs.Limits.{most_linked, most_vids};

use crate::lines::{EventLine, Report};
use crate::values::Values;
use gem_ids::Ids;
use gem_rows::ceids;
use item_model::{Item, Items, NoMemory};
use std::alloc::Global;
use std::marker::Model;

mod copies;
mod definitions;
mod links;

/// The reports of a plant, the links of its collection events to them, and which events are enabled.
#[derive(Drop)]
pub struct Reports {
    ports: u8,
    chambers: u8,
    reports: Vec<Report>,
    events: Vec<EventLine>,
    // where it is set, no event is enabled: then none need be looked for
    none_enabled: bool,
}

impl Model for Reports {
    ghost use Rattle.event_reports.specs.Reports.{Reports as Value_of};

    ghost Value = { Value_of };

    ghost use Rattle.event_reports.specs.Kept.{reports_of, AreKept};

    ghost view = { reports_of };

    ghost invariant = { AreKept };
}

impl Reports {
    /// No report, no link and no enabled event, in a plant of so many load ports and chambers, at most 4 and 8.
    /// `NoMemory` where there is no room for the events.
    pub fn new(alloc: Global, ports: u8, chambers: u8) -> Result<Reports, NoMemory>
        requires ports { ports ≤ 4 }
        requires chambers { chambers ≤ 8 }
        ensures { IfOk result (λ reports. reports ≡ no_reports ports chambers) }
    {
        Ok(Reports {
            ports,
            chambers,
            reports: Vec::new(alloc),
            events: silent_events(alloc)?,
            none_enabled: true,
        })
    }

    // Whether the tool has the event.
    fn is_event(&self, ceid: u32) -> bool
        ensures { result ≡ is_event ceid self.now }
    {
        self.events.iter().any(|event| event.ceid == ceid)
    }

    // Whether the tool has all of these events.
    fn has_events(&self, ceids: &[u32]) -> bool
        ensures { result ≡ list_all (λ ceid. is_event ceid self.now) ceids.now }
    {
        ceids.iter().all(|ceid| self.is_event(*ceid))
    }

    // Whether the report is defined.
    fn is_report(&self, rptid: u32) -> bool
        ensures { result ≡ is_report rptid self.now }
    {
        self.reports.iter().any(|report| report.id == rptid)
    }

    // Whether the event is linked to a report.
    fn has_link(&self, ceid: u32) -> bool
        ensures { result ≡ has_link ceid self.now }
    {
        self.events
            .iter()
            .any(|event| event.ceid == ceid && event.reports.len() != 0)
    }

    /// Enables or disables events, or all of them where none is named (SEMI E5, S2F37). The answer is ERACK: 1 exactly
    /// where an event is unknown; then nothing changes. Takes no memory.
    pub fn enable(&mut self, on: bool, ceids: &[u32]) -> u8
        ensures code { result ≡ erack ceids.now self.old }
        ensures after { self.new ≡ enabled on ceids.now self.old }
    {
        if !self.has_events(ceids) {
            return 1;
        }
        enable_lines(&mut self.events, on, ceids);
        self.none_enabled = !is_any_enabled(&self.events);
        0
    }

    /// Whether the event is enabled. An unknown one is not. Takes no memory.
    pub fn is_enabled(&self, ceid: u32) -> bool
        ensures { result ≡ is_enabled ceid self.now }
    {
        if self.none_enabled {
            return false;
        }
        match self.place_of(ceid) {
            Some(place) => self.events[place].enabled,
            None => false,
        }
    }

    // The place of an event. `None` exactly where the tool lacks it.
    fn place_of(&self, ceid: u32) -> Option<usize>
        ensures within_list { IfSome result (λ place. place < length self.now.events) }
        ensures place { IfSome result (HoldsAt (λ e. e.ceid ≡ ceid) self.now.events) }
        ensures none { IfNone result (is_event ceid self.now ≡ false) }
        ensures within { AreWithin self.now }
    {
        // The events stand rising by CEID.
        self.events
            .binary_search_by_key(&ceid, |event| event.ceid)
            .ok()
    }

    // The VIDs of a report; an unknown one has none.
    fn vids_of(&self, rptid: u32) -> &[u32]
        ensures vids { result.now ≡ vids_of rptid self.now }
        ensures within { AreWithin self.now }
    {
        match self.reports.iter().find(|report| report.id == rptid) {
            Some(report) => report.vids.as_slice(),
            None => &[],
        }
    }

    // The reports that an event is linked to; an unknown one has none.
    fn link_of(&self, ceid: u32) -> &[u32]
        ensures link { result.now ≡ link_of ceid self.now }
        ensures within { AreWithin self.now }
    {
        match self.events.iter().find(|event| event.ceid == ceid) {
            Some(event) => event.reports.as_slice(),
            None => &[],
        }
    }

    // A report with its RPTID and its values.
    fn report_item<V: Values>(&self, alloc: Global, rptid: u32, v: &V) -> Result<Item, NoMemory>
        ensures { IfOk result (λ i. view i ≡ report_item (V.value_of v.now) rptid self.now) }
    {
        let mut values = Items::new(alloc);
        self.one(alloc, rptid, v, &mut values)?;
        let mut parts = Items::new(alloc);
        parts.push(Item::U4(Ids::from_vec(Vec::from_slice(alloc, &[rptid])?)))?;
        parts.push(Item::List(values))?;
        Ok(Item::List(parts))
    }

    // Adds these reports at the end.
    fn push_reports<V: Values>(
        &self,
        alloc: Global,
        rptids: &[u32],
        v: &V,
        out: &mut Items,
    ) -> Result<(), NoMemory>
        ensures reports { OnOk result (out.new ≡ joined out.old (items_of_reports (V.value_of v.now) rptids.now self.now)) }
        ensures first { OnErr result ((n : ℕ) × (out.new ≡ joined out.old (items_of_reports (V.value_of v.now) (take n rptids.now) self.now))) }
    {
        for rptid in rptids {
            out.push(self.report_item(alloc, *rptid, v)?)?;
        }
        Ok(())
    }

    /// Adds the reports of an event at the end, in the order of its link, each as a list of its RPTID and the list of its
    /// values (SEMI E5, S6F11). A variable without a value stands as an empty list. An event without a link and an
    /// unknown one add nothing. After `NoMemory` the list is as before.
    pub fn report<V: Values>(
        &self,
        alloc: Global,
        ceid: u32,
        v: &V,
        out: &mut Items,
    ) -> Result<(), NoMemory>
        ensures reports { OnOk result (out.new ≡ joined out.old (report_items (V.value_of v.now) ceid self.now)) }
        ensures no_memory { OnErr result (out.new ≡ out.old) }

        // Few reports are added, and each is small where the values are.
        ensures few { count_of (report_items (V.value_of v.now) ceid self.now) ≤ most_linked }
        ensures bounded { AreSmallValues (V.value_of v.now) → AreBounded 3 5392 (report_items (V.value_of v.now) ceid self.now) }
    {
        let count = out.len();
        let pushed = self.push_reports(alloc, self.link_of(ceid), v, out);
        as_before(pushed, count, out)
    }

    /// Adds the values of a report at the end, in its order (SEMI E5, S6F19). A variable without a value stands as an
    /// empty list. An unknown report adds nothing. After `NoMemory` the list is as before.
    pub fn one<V: Values>(
        &self,
        alloc: Global,
        rptid: u32,
        v: &V,
        out: &mut Items,
    ) -> Result<(), NoMemory>
        ensures values { OnOk result (out.new ≡ joined out.old (one_items (V.value_of v.now) rptid self.now)) }
        ensures no_memory { OnErr result (out.new ≡ out.old) }

        // Few values are added, and each is small.
        ensures few { count_of (one_items (V.value_of v.now) rptid self.now) ≤ most_vids }
        ensures bounded { AreSmallValues (V.value_of v.now) → AreBounded 1 84 (one_items (V.value_of v.now) rptid self.now) }
    {
        let count = out.len();
        let pushed = push_values(alloc, self.vids_of(rptid), v, out);
        as_before(pushed, count, out)
    }
}

// What pushing onto a list of so many items came to. After want of memory the list has those again, and no more.
fn as_before(pushed: Result<(), NoMemory>, count: usize, out: &mut Items) -> Result<(), NoMemory>
    ensures same { result ≡ pushed }
    ensures ok { OnOk pushed (out.new ≡ out.old) }
    ensures no_memory { OnErr pushed (out.new ≡ first_items count out.old) }
{
    if pushed.is_err() {
        out.truncate(count);
    }
    pushed
}

// A line for each collection event, not enabled and without a link.
fn silent_events(alloc: Global) -> Result<Vec<EventLine>, NoMemory>
    ensures { IfOk result (λ events. events.items ≡ map silent ceids) }
{
    let mut events = Vec::new(alloc);
    let ids = ceids(alloc)?;
    for ceid in ids.as_slice() {
        events.push(EventLine::silent(alloc, *ceid))?;
    }
    Ok(events)
}

// Enables or disables the named events, or all.
fn enable_lines(events: &mut [EventLine], on: bool, ceids: &[u32])
    ensures { events.new ≡ map (with_enabled on ceids.now) events.old }
{
    for event in events {
        event.enable(on, ceids);
    }
}

// Whether one of these events is enabled.
fn is_any_enabled(events: &[EventLine]) -> bool
    ensures { result ≡ list_any (λ e. e.enabled) events.now }
{
    events.iter().any(|event| event.enabled)
}

/// The values of these variables, in order (SEMI E5, S1F4 and S2F14): one without a value stands as an empty list.
/// `NoMemory` where there is no room for them.
#[tactic(auto, using(crate::proofs::Small::count_values, crate::proofs::Small::small_values_of))]
pub fn values_of<V: Values>(alloc: Global, v: &V, vids: &[u32]) -> Result<Items, NoMemory>
    ensures values { IfOk result (λ items. items ≡ value_items (V.value_of v.now) vids.now) }
    ensures count { count_of (value_items (V.value_of v.now) vids.now) ≡ length vids.now }
    ensures bounded { AreSmallValues (V.value_of v.now) → AreBounded 1 84 (value_items (V.value_of v.now) vids.now) }
{
    let mut items = Items::new(alloc);
    push_values(alloc, vids, v, &mut items)?;
    Ok(items)
}

// Adds the values of variables at the end.
fn push_values<V: Values>(
    alloc: Global,
    vids: &[u32],
    v: &V,
    out: &mut Items,
) -> Result<(), NoMemory>
    ensures values { OnOk result (out.new ≡ joined out.old (value_items (V.value_of v.now) vids.now)) }
    ensures first { OnErr result ((n : ℕ) × (out.new ≡ joined out.old (value_items (V.value_of v.now) (take n vids.now)))) }
{
    for vid in vids {
        push_value(alloc, v.value(alloc, *vid)?, out)?;
    }
    Ok(())
}

// Adds the value of a variable at the end, an empty list where it has none.
fn push_value(alloc: Global, value: Option<Item>, out: &mut Items) -> Result<(), NoMemory>
    ensures no_memory { OnErr result (out.new ≡ out.old) }
    ensures pushed { OnOk result (out.new ≡ added out.old (unwrap_or (option_map view value) (list no_items))) }
{
    match value {
        Some(item) => out.push(item),
        None => out.push(Item::List(Items::new(alloc))),
    }
}
