//! Reports, as the host defined them (SEMI E30, event data collection), and what they give.

use crate::body::{ids_of, pair, parts};
use crate::events::add_event;
use crate::remarks::Remarks;
use crate::values::{Plant, add_value, add_variables};
use item_model::Item;
use std::alloc::{AllocError, Global};

/// A report with its variables. Without any it is deleted.
#[derive(Drop)]
pub(crate) struct Definition {
    report: u32,
    vids: Vec<u32>,
}

/// What one S2F33 asks: all reports are deleted, or these are defined and deleted.
#[derive(Drop)]
pub(crate) struct Changes {
    deletes_all: bool,
    definitions: Vec<Definition>,
}

/// The reports that are defined.
#[derive(Drop)]
pub(crate) struct Reports {
    defined: Vec<Definition>,
}

// A definition in an S2F33, `L[id, L[id*]]`.
fn definition_of(alloc: Global, item: &Item) -> Result<Option<Definition>, AllocError> {
    let Some((report, vids)) = pair(item) else {
        return Ok(None);
    };
    match (report.as_id(), ids_of(alloc, vids)?) {
        (Some(report), Some(vids)) => Ok(Some(Definition { report, vids })),
        _ => Ok(None),
    }
}

// The definitions in an S2F33; none where one has another form.
fn definitions_of(alloc: Global, items: &[Item]) -> Result<Option<Vec<Definition>>, AllocError> {
    let mut all = Vec::new(alloc);
    for item in items {
        match definition_of(alloc, item)? {
            Some(definition) => all.push(definition)?,
            None => return Ok(None),
        }
    }
    Ok(Some(all))
}

/// What the item of an S2F33 asks, `L[id, L[L[id, L[id*]]*]]`; none where it has another form.
pub(crate) fn changes_of(alloc: Global, item: &Item) -> Result<Option<Changes>, AllocError> {
    let Some((_data_id, listed)) = pair(item) else {
        return Ok(None);
    };
    let Some(items) = parts(listed) else {
        return Ok(None);
    };
    match definitions_of(alloc, items)? {
        Some(definitions) => Ok(Some(Changes {
            deletes_all: items.is_empty(),
            definitions,
        })),
        None => Ok(None),
    }
}

// Says which variables a report is to have.
fn say_definition(
    alloc: Global,
    plant: Plant,
    definition: &Definition,
    out: &mut Remarks,
) -> Result<(), AllocError> {
    let is_deleted = definition.vids.is_empty();
    out.begin(if is_deleted {
        "deletes report "
    } else {
        "report "
    })?;
    out.add_number(alloc, u64::from(definition.report))?;
    if !is_deleted {
        out.add(": ")?;
        add_variables(alloc, plant, definition.vids.as_slice(), out)?;
    }
    out.end()
}

impl Changes {
    /// Says what is to be defined and deleted.
    pub(crate) fn say(
        &self,
        alloc: Global,
        plant: Plant,
        out: &mut Remarks,
    ) -> Result<(), AllocError> {
        if self.deletes_all {
            out.say("deletes all reports")?;
        }
        for definition in &self.definitions {
            say_definition(alloc, plant, definition, out)?;
        }
        Ok(())
    }
}

impl Reports {
    pub(crate) fn new(alloc: Global) -> Reports {
        Reports {
            defined: Vec::new(alloc),
        }
    }

    // A report is defined, or deleted.
    fn define(&mut self, definition: Definition) -> Result<(), AllocError> {
        let report = definition.report;
        self.defined.retain(|other| other.report != report);
        if !definition.vids.is_empty() {
            self.defined.push(definition)?;
        }
        Ok(())
    }

    /// The tool has done what an S2F33 asked.
    pub(crate) fn apply(&mut self, changes: Changes) -> Result<(), AllocError> {
        let Changes {
            deletes_all,
            definitions,
        } = changes;
        if deletes_all {
            self.defined.clear();
        }
        for definition in definitions {
            self.define(definition)?;
        }
        Ok(())
    }

    // The variables of a report, where it was defined above.
    fn vids_of(&self, report: u32) -> Option<&[u32]> {
        match self.defined.iter().find(|other| other.report == report) {
            Some(definition) => Some(definition.vids.as_slice()),
            None => None,
        }
    }

    /// Says the values of a report, `L[value*]`.
    pub(crate) fn say_values(
        &self,
        alloc: Global,
        plant: Plant,
        report: u32,
        values: &[Item],
        out: &mut Remarks,
    ) -> Result<(), AllocError> {
        match self.vids_of(report) {
            Some(vids) => say_values(alloc, plant, Some(report), vids, values, out),
            None => {
                out.begin("report ")?;
                out.add_number(alloc, u64::from(report))?;
                out.add(": its definition is not above")?;
                out.end()
            }
        }
    }

    // Says the values of one report of an event, `L[U4 rptid, L[value*]]`.
    fn say_report(
        &self,
        alloc: Global,
        plant: Plant,
        item: &Item,
        out: &mut Remarks,
    ) -> Result<(), AllocError> {
        let Some((report, listed)) = pair(item) else {
            return Ok(());
        };
        match (report.as_id(), parts(listed)) {
            (Some(report), Some(values)) => self.say_values(alloc, plant, report, values, out),
            _ => Ok(()),
        }
    }

    /// Says the values of the reports of an event, `L[L[U4 rptid, L[value*]]*]`.
    pub(crate) fn say_reports(
        &self,
        alloc: Global,
        plant: Plant,
        item: &Item,
        out: &mut Remarks,
    ) -> Result<(), AllocError> {
        for report in parts(item).unwrap_or(&[]) {
            self.say_report(alloc, plant, report, out)?;
        }
        Ok(())
    }
}

/// Says the values of variables, of a report where one is named.
pub(crate) fn say_values(
    alloc: Global,
    plant: Plant,
    report: Option<u32>,
    vids: &[u32],
    values: &[Item],
    out: &mut Remarks,
) -> Result<(), AllocError> {
    for (vid, value) in vids.iter().zip(values) {
        out.begin("")?;
        if let Some(report) = report {
            out.add("report ")?;
            out.add_number(alloc, u64::from(report))?;
            out.add(": ")?;
        }
        add_value(alloc, plant, *vid, value, out)?;
        out.end()?;
    }
    Ok(())
}

// Goes on with reports, with a comma between two.
fn add_reports(alloc: Global, reports: &[u32], out: &mut Remarks) -> Result<(), AllocError> {
    let mut is_first = true;
    for report in reports {
        out.add(if is_first { "report " } else { ", report " })?;
        is_first = false;
        out.add_number(alloc, u64::from(*report))?;
    }
    Ok(())
}

// Says which reports an event is to have.
fn say_link(
    alloc: Global,
    ceid: u32,
    reports: &[u32],
    out: &mut Remarks,
) -> Result<(), AllocError> {
    out.begin(if reports.is_empty() { "no report" } else { "" })?;
    add_reports(alloc, reports, out)?;
    out.add(" for ")?;
    add_event(alloc, ceid, out)?;
    out.end()
}

/// Says the links of an S2F35, `L[id, L[L[id, L[id*]]*]]`.
pub(crate) fn say_links(alloc: Global, item: &Item, out: &mut Remarks) -> Result<(), AllocError> {
    let Some((_data_id, listed)) = pair(item) else {
        return Ok(());
    };
    for link in parts(listed).unwrap_or(&[]) {
        if let Some((ceid, reports)) = pair(link) {
            if let (Some(ceid), Some(reports)) = (ceid.as_id(), ids_of(alloc, reports)?) {
                say_link(alloc, ceid, reports.as_slice(), out)?;
            }
        }
    }
    Ok(())
}
