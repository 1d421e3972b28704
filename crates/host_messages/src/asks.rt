//! What the host asks of the tool's data (SEMI E5, streams 1, 2, 5 and 6).
ghost use Rattle.std.specs.Prelude.{◌≡◌, ◌≤◌, ℕ, length, map, filter, is_some, IfOk};
ghost use Rattle.data_variables.specs.Bodies.{name_item};
ghost use Rattle.data_variables.specs.Table.{constant_ids};
ghost use Rattle.item_model.specs.Data.{DataList, list};
ghost use Rattle.item_model.specs.View.{view};
ghost use Rattle.event_reports.specs.Reports.{value_items, report_items, one_items};
ghost use Rattle.message_model.specs.GemReplies.{items as items_data};
ghost use Rattle.message_model.specs.GemSendable.{AreFew};
ghost use Rattle.gem_model.specs.Values.{no_firing, status_value, constant_value, value_of, svids};
ghost use Rattle.gem_model.specs.Messages.{or_all, status_name, alarm_part, alids_of, enabled_alids};

use data_variables::ids as constant_ids;
use event_reports::{Values, values_of};
use gem_ids::{Listed, Text80};
use gem_rows::{status_vids, vid_name};
use item_model::{Item, Items, NoMemory};
use message_model::{AlarmPart, VariableName};
use plant_parts::{alcd, text_of_alarm};
use plant_values::Seen;
use std::alloc::{AllocError, Global};

// The status variables of a plant.
#[derive(Clone, Copy)]
struct Status<'s, 'a> {
    seen: &'s Seen<'a>,
}

impl Values for Status<'_, '_> {
    ghost use Rattle.gem_model.specs.Values.{status_value};

    ghost value_of = { λ s vid. status_value s.seen.now vid };

    fn value(&self, alloc: Global, vid: u32) -> Result<Option<Item>, NoMemory> {
        self.seen.status_value(alloc, vid)
    }
}

// The equipment constants of a plant.
#[derive(Clone, Copy)]
struct Equipment<'s, 'a> {
    seen: &'s Seen<'a>,
}

impl Values for Equipment<'_, '_> {
    ghost use Rattle.gem_model.specs.Values.{constant_value};

    ghost value_of = { λ s vid. constant_value s.seen.now vid };

    fn value(&self, alloc: Global, vid: u32) -> Result<Option<Item>, NoMemory> {
        self.seen.constant_value(alloc, vid)
    }
}

// These ids, or all where there are none.
fn or_all<'a>(all: &'a [u32], ids: &'a [u32]) -> &'a [u32]
    ensures { result.now ≡ or_all all.now ids.now }
{
    if ids.is_empty() { all } else { ids }
}

// Those of these numbers that are of a status variable that is built. (The list of all numbers is handed in: so no step of the loop
// is proved for each of them.)
fn built(seen: &Seen<'_>, alloc: Global, all: &[u32]) -> Result<Vec<u32>, AllocError>
    ensures { IfOk result (λ vids. vids.items ≡ filter (λ (vid : ℕ). is_some (status_value seen.now vid)) all.now) }
{
    let mut vids = Vec::new(alloc);
    for vid in all {
        if seen.is_status(*vid) {
            vids.push(*vid)?;
        }
    }
    Ok(vids)
}

// The numbers of the status variables that have a value, rising.
fn svids(seen: &Seen<'_>, alloc: Global) -> Result<Vec<u32>, AllocError>
    ensures { IfOk result (λ vids. vids.items ≡ svids seen.now) }
{
    built(seen, alloc, status_vids().as_slice())
}

/// The values of these status variables, or of all where none is named (SEMI E5, S1F4): an empty list for a number that
/// is none of one that is built.
#[tactic(auto, using(crate::proofs::Counted::few_status))]
pub fn status_values(seen: &Seen<'_>, alloc: Global, ids: &[u32]) -> Result<Items, AllocError>
    ensures values { IfOk result (λ values. values ≡ value_items (status_value seen.now) (or_all (svids seen.now) ids.now)) }
    ensures few { length ids.now ≤ 1024 → AreFew 1024 1 84 (value_items (status_value seen.now) (or_all (svids seen.now) ids.now)) }
{
    seen.few_alarms();
    seen.shown_names();
    let svids = svids(seen, alloc)?;
    values_of(alloc, &Status { seen }, or_all(&svids, ids))
}

/// The values of these equipment constants, or of all where none is named (SEMI E5, S2F14): an empty list for a number
/// that is none of one.
#[tactic(auto, using(crate::proofs::Counted::few_constants))]
pub fn constant_values(seen: &Seen<'_>, alloc: Global, ids: &[u32]) -> Result<Items, AllocError>
    ensures values { IfOk result (λ values. values ≡ value_items (constant_value seen.now) (or_all constant_ids ids.now)) }
    ensures few { length ids.now ≤ 1024 → AreFew 1024 1 84 (value_items (constant_value seen.now) (or_all constant_ids ids.now)) }
{
    values_of(alloc, &Equipment { seen }, or_all(&constant_ids(), ids))
}

// The name of a status variable; empty for a number that is none of one that is built.
fn status_name(seen: &Seen<'_>, vid: u32) -> VariableName
    ensures { result ≡ status_name seen.now vid }
{
    let name = if seen.is_status(vid) {
        vid_name(vid).unwrap_or(Text80::empty())
    } else {
        Text80::empty()
    };
    VariableName { svid: vid, name }
}

// The names of status variables.
fn names_of(seen: &Seen<'_>, alloc: Global, ids: &[u32]) -> Result<Listed<VariableName>, AllocError>
    ensures { IfOk result (λ names. names ≡ map (status_name seen.now) ids.now) }
{
    let mut names = Vec::new(alloc);
    for id in ids {
        names.push(status_name(seen, *id))?;
    }
    Ok(Listed::from_vec(names))
}

/// The names of these status variables, or of all where none is named (SEMI E5, S1F12).
#[tactic(auto, using(crate::proofs::Counted::few_status_names))]
pub fn status_names(
    seen: &Seen<'_>,
    alloc: Global,
    ids: &[u32],
) -> Result<Listed<VariableName>, AllocError>
    ensures names { IfOk result (λ names. names ≡ map (status_name seen.now) (or_all (svids seen.now) ids.now)) }
    ensures few { length ids.now ≤ 1024 → length (map (status_name seen.now) (or_all (svids seen.now) ids.now)) ≤ 1024 }
{
    let svids = svids(seen, alloc)?;
    names_of(seen, alloc, or_all(&svids, ids))
}

/// What is told of these equipment constants, or of all where none is named (SEMI E5, S2F30).
#[tactic(auto, using(crate::proofs::Counted::few_names))]
pub fn constant_names(seen: &Seen<'_>, alloc: Global, ids: &[u32]) -> Result<Items, AllocError>
    ensures names { IfOk result (λ names. names ≡ items_data (map name_item (or_all constant_ids ids.now))) }
    ensures few { length ids.now ≤ 1024 → AreFew 1024 1 210 (items_data (map name_item (or_all constant_ids ids.now))) }
{
    let item = seen.constants().namelist(alloc, ids)?;
    list_in(alloc, &item)
}

// The items of a list, and none of any other item.
fn list_in(alloc: Global, item: &Item) -> Result<Items, AllocError>
    ensures { IfOk result (λ items. (said : DataList) → view item.now ≡ list said → items ≡ said) }
{
    match item {
        Item::List(items) => items.clone(),
        _ => Ok(Items::new(alloc)),
    }
}

/// The reports of an event outside a firing (SEMI E5, S6F16).
pub fn event_reports(seen: &Seen<'_>, alloc: Global, ceid: u32) -> Result<Items, AllocError>
    ensures reports { IfOk result (λ reports. reports ≡ report_items (value_of no_firing seen.now) ceid seen.now.reports) }
    ensures few { IfOk result (AreFew 16 3 5392) }
{
    seen.reports_on(alloc, ceid, Text80::empty(), 0)
}

/// The values of a report outside a firing (SEMI E5, S6F20).
pub fn one_report(seen: &Seen<'_>, alloc: Global, rptid: u32) -> Result<Items, AllocError>
    ensures values { IfOk result (λ values. values ≡ one_items (value_of no_firing seen.now) rptid seen.now.reports) }
    ensures few { IfOk result (AreFew 1024 1 84) }
{
    seen.one_on(alloc, rptid, Text80::empty(), 0)
}

// An alarm as a list of alarms has it; one that the tool doesn't have has no ALCD and an empty text.
fn alarm_part(seen: &Seen<'_>, alid: u32) -> AlarmPart
    ensures { result ≡ alarm_part seen.now alid }
{
    if seen.alarms().is_known(alid) {
        AlarmPart {
            alcd: Some(alcd(seen.alarms().is_set(alid))),
            alid,
            text: text_of_alarm(alid),
        }
    } else {
        AlarmPart {
            alcd: None,
            alid,
            text: Text80::empty(),
        }
    }
}

// Alarms as a list has them.
fn parts_of(seen: &Seen<'_>, alloc: Global, ids: &[u32]) -> Result<Listed<AlarmPart>, AllocError>
    ensures { IfOk result (λ parts. parts ≡ map (alarm_part seen.now) ids.now) }
{
    let mut parts = Vec::new(alloc);
    for id in ids {
        parts.push(alarm_part(seen, *id))?;
    }
    Ok(Listed::from_vec(parts))
}

// The alarms of the tool, rising.
fn alids(seen: &Seen<'_>, alloc: Global) -> Result<Vec<u32>, AllocError>
    ensures { IfOk result (λ ids. ids.items ≡ alids_of seen.now) }
{
    let mut ids = Vec::new(alloc);
    for alarm in seen.alarms().lines() {
        ids.push(alarm.alid)?;
    }
    Ok(ids)
}

// The enabled ones, rising.
fn enabled_alids(seen: &Seen<'_>, alloc: Global) -> Result<Vec<u32>, AllocError>
    ensures { IfOk result (λ ids. ids.items ≡ enabled_alids seen.now) }
{
    let mut ids = Vec::new(alloc);
    for alarm in seen.alarms().lines() {
        if alarm.enabled {
            ids.push(alarm.alid)?;
        }
    }
    Ok(ids)
}

/// These alarms, or all where none is named (SEMI E5, S5F6).
#[tactic(auto, using(crate::proofs::Counted::few_alarm_parts))]
pub fn alarm_list(
    seen: &Seen<'_>,
    alloc: Global,
    ids: &[u32],
) -> Result<Listed<AlarmPart>, AllocError>
    ensures alarms { IfOk result (λ parts. parts ≡ map (alarm_part seen.now) (or_all (alids_of seen.now) ids.now)) }
    ensures few { length ids.now ≤ 1024 → length (map (alarm_part seen.now) (or_all (alids_of seen.now) ids.now)) ≤ 1024 }
{
    seen.few_alarms();
    let all = alids(seen, alloc)?;
    parts_of(seen, alloc, or_all(all.as_slice(), ids))
}

/// The enabled alarms (SEMI E5, S5F8).
#[tactic(auto, using(crate::proofs::Counted::few_enabled_parts))]
pub fn enabled_alarm_list(seen: &Seen<'_>, alloc: Global) -> Result<Listed<AlarmPart>, AllocError>
    ensures alarms { IfOk result (λ parts. parts ≡ map (alarm_part seen.now) (enabled_alids seen.now)) }
    ensures few { length (map (alarm_part seen.now) (enabled_alids seen.now)) ≤ 1024 }
{
    seen.few_alarms();
    let ids = enabled_alids(seen, alloc)?;
    parts_of(seen, alloc, ids.as_slice())
}
