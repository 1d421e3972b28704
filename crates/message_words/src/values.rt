//! Variables and alarms in words: their names, and what values mean (this tool's profile, docs/profile/variables.md).

use crate::body::number;
use crate::events::add_row_of;
use crate::remarks::Remarks;
use gem_ids::Text80;
use gem_rows::{StatusVariable, alarm_text, is_vid, status_variable, status_vids, vid_name};
use item_model::Item;
use std::alloc::{AllocError, Global};

/// What a tool has of which variables tell.
#[derive(Clone, Copy)]
pub(crate) struct Plant {
    pub(crate) ports: u8,
    pub(crate) chambers: u8,
}

impl Plant {
    // The name of a variable of this tool.
    fn name_of(self, vid: u32) -> Option<Text80> {
        if is_vid(self.ports, self.chambers, vid) {
            vid_name(vid)
        } else {
            None
        }
    }

    /// The status variables of this tool, as S1F3 means them by an empty list.
    pub(crate) fn status_vids(self, alloc: Global) -> Result<Vec<u32>, AllocError> {
        let mut vids = Vec::new(alloc);
        for vid in status_vids() {
            if is_vid(self.ports, self.chambers, vid) {
                vids.push(vid)?;
            }
        }
        Ok(vids)
    }
}

const COMMUNICATION: [&str; 4] = ["DISABLED", "WAIT DELAY", "WAIT CRA", "COMMUNICATING"];

const CONTROL: [&str; 6] = [
    "",
    "EQUIPMENT OFF-LINE",
    "ATTEMPT ON-LINE",
    "HOST OFF-LINE",
    "ON-LINE LOCAL",
    "ON-LINE REMOTE",
];

const SPOOL_LOAD: [&str; 3] = ["INACTIVE", "NOT FULL", "FULL"];

const SPOOL_UNLOAD: [&str; 3] = ["NO OUTPUT", "TRANSMIT", "PURGE"];

const TRANSFER: [&str; 4] = [
    "OUT OF SERVICE",
    "TRANSFER BLOCKED",
    "READY TO LOAD",
    "READY TO UNLOAD",
];

const ACCESS: [&str; 2] = ["MANUAL", "AUTO"];

const PROCESS_JOB: [&str; 10] = [
    "QUEUED",
    "SETTING UP",
    "WAITING FOR START",
    "PROCESSING",
    "PROCESS COMPLETE",
    "",
    "PAUSING",
    "PAUSED",
    "STOPPING",
    "ABORTING",
];

// The word at a number's place.
fn word_at(words: &[&'static str], number: u32) -> Option<&'static str> {
    match words.get(number as usize) {
        Some(word) if !word.is_empty() => Some(word),
        _ => None,
    }
}

/// The state of a process job that has this number.
pub(crate) fn process_job_state(number: u32) -> Option<&'static str> {
    word_at(&PROCESS_JOB, number)
}

// What a number means that a variable shows.
fn state_of(variable: StatusVariable, number: u32) -> Option<&'static str> {
    match variable {
        StatusVariable::CommState => word_at(&COMMUNICATION, number),
        StatusVariable::ControlState => word_at(&CONTROL, number),
        StatusVariable::SpoolLoad => word_at(&SPOOL_LOAD, number),
        StatusVariable::SpoolUnload => word_at(&SPOOL_UNLOAD, number),
        StatusVariable::PortTransfer(_) => word_at(&TRANSFER, number),
        StatusVariable::PortAccess(_) => word_at(&ACCESS, number),
        _ => None,
    }
}

// The VID of EventRow, whose value is a CEID.
const EVENT_ROW: u32 = 101;

// Goes on with what a number means that a variable shows, where it is more than the number.
fn add_meaning(alloc: Global, vid: u32, number: u32, out: &mut Remarks) -> Result<(), AllocError> {
    if vid == EVENT_ROW && number != 0 {
        out.add(", ")?;
        return add_row_of(alloc, number, out);
    }
    let state = match status_variable(vid) {
        Some(variable) => state_of(variable, number),
        None => None,
    };
    match state {
        Some(state) => {
            out.add(", ")?;
            out.add(state)
        }
        None => Ok(()),
    }
}

/// Goes on with the name of a variable, or with the number of one that the tool doesn't have.
pub(crate) fn add_variable(
    alloc: Global,
    plant: Plant,
    vid: u32,
    out: &mut Remarks,
) -> Result<(), AllocError> {
    match plant.name_of(vid) {
        Some(name) => out.add_bytes(name.as_bytes()),
        None => {
            out.add("unknown VID ")?;
            out.add_number(alloc, u64::from(vid))
        }
    }
}

/// Goes on with variables, with a comma between two.
pub(crate) fn add_variables(
    alloc: Global,
    plant: Plant,
    vids: &[u32],
    out: &mut Remarks,
) -> Result<(), AllocError> {
    let mut is_first = true;
    for vid in vids {
        if !is_first {
            out.add(", ")?;
        }
        is_first = false;
        add_variable(alloc, plant, *vid, out)?;
    }
    Ok(())
}

/// Goes on with an alarm: its number and its text.
pub(crate) fn add_alarm(alloc: Global, alid: u32, out: &mut Remarks) -> Result<(), AllocError> {
    out.add("alarm ")?;
    out.add_number(alloc, u64::from(alid))?;
    match alarm_text(alid) {
        Some(text) => {
            out.add(", ")?;
            out.add_bytes(text.as_bytes())
        }
        None => out.add(", which this tool doesn't have"),
    }
}

/// Goes on with a variable, its value, and what that means.
pub(crate) fn add_value(
    alloc: Global,
    plant: Plant,
    vid: u32,
    value: &Item,
    out: &mut Remarks,
) -> Result<(), AllocError> {
    add_variable(alloc, plant, vid, out)?;
    out.add(" is ")?;
    out.add_item(alloc, value)?;
    match number(value) {
        Some(number) => add_meaning(alloc, vid, number, out),
        None => Ok(()),
    }
}
