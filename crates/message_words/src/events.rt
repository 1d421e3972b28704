//! Collection events in words: the table and the row of a CEID, and what happened (this tool's profile, docs/profile/events.md).

use crate::remarks::Remarks;
use gem_rows::{Table, row_of};
use std::alloc::{AllocError, Global};

// What a transition table is of.
fn table_name(table: Table) -> &'static str {
    match table {
        Table::Communication => "communication",
        Table::Control => "control",
        Table::Line => "spool",
        Table::Transfer => "port transfer",
        Table::Access => "port access",
        Table::Reservation => "port reservation",
        Table::Association => "port association",
        Table::CarrierId => "carrier id",
        Table::SlotMap => "slot map",
        Table::Accessing => "carrier accessing",
        Table::Location => "location",
        Table::Transport => "substrate transport",
        Table::Processing => "substrate processing",
        Table::ProcessJob => "process job",
        Table::ControlJob => "control job",
        Table::Moves => "moves",
    }
}

// What a row of table 2 does.
fn control_row(row: u8) -> &'static str {
    match row {
        1 => "EQUIPMENT OFF-LINE to ATTEMPT ON-LINE",
        2 | 3 => "ATTEMPT ON-LINE to EQUIPMENT OFF-LINE",
        4 => "ATTEMPT ON-LINE to ON-LINE LOCAL",
        5 => "ATTEMPT ON-LINE to ON-LINE REMOTE",
        6 => "to EQUIPMENT OFF-LINE",
        7 => "HOST OFF-LINE to ON-LINE LOCAL",
        8 => "HOST OFF-LINE to ON-LINE REMOTE",
        9 => "ON-LINE to HOST OFF-LINE",
        10 => "ON-LINE LOCAL to ON-LINE REMOTE",
        _ => "ON-LINE REMOTE to ON-LINE LOCAL",
    }
}

// What a row of table 3 does, of those with events.
fn spool_row(row: u8) -> &'static str {
    match row {
        1 => "INACTIVE to ACTIVE: it has its first note",
        _ => "ACTIVE to INACTIVE: it is empty again",
    }
}

// What a row of tables 4 to 7 does.
fn port_row(table: Table, row: u8) -> &'static str {
    match (table, row) {
        (Table::Transfer, 1) => "OUT OF SERVICE to READY TO LOAD",
        (Table::Transfer, 2) => "READY TO LOAD to OUT OF SERVICE",
        (Table::Transfer, 3) => "READY TO LOAD to TRANSFER BLOCKED",
        (Table::Transfer, 4) => "TRANSFER BLOCKED to READY TO UNLOAD",
        (Table::Transfer, _) => "READY TO UNLOAD to READY TO LOAD",
        (Table::Access, 1) => "MANUAL to AUTO",
        (Table::Access, _) => "AUTO to MANUAL",
        (Table::Reservation, 1) => "NOT RESERVED to RESERVED",
        (Table::Reservation, _) => "RESERVED to NOT RESERVED",
        (_, 1 | 3) => "NOT ASSOCIATED to ASSOCIATED",
        (_, 4) => "ASSOCIATED, another carrier than the bound one came",
        (_, 5) => "ASSOCIATED, the bound carrier came",
        (_, _) => "ASSOCIATED to NOT ASSOCIATED",
    }
}

// What a row of tables 8 to 10 does.
fn carrier_row(table: Table, row: u8) -> &'static str {
    match (table, row) {
        (Table::CarrierId, 1) => "created: ID NOT READ",
        (Table::CarrierId, 2) => "ID NOT READ to ID VERIFIED",
        (Table::CarrierId, 3) => "ID NOT READ to WAITING FOR HOST",
        (Table::CarrierId, 4) => "WAITING FOR HOST to ID VERIFIED",
        (Table::CarrierId, _) => "WAITING FOR HOST to ID VERIFICATION FAILED",
        (Table::SlotMap, 1) => "NOT READ to VERIFIED",
        (Table::SlotMap, 2) => "NOT READ to WAITING FOR HOST",
        (Table::SlotMap, 3) => "WAITING FOR HOST to VERIFIED",
        (Table::SlotMap, _) => "WAITING FOR HOST to VERIFICATION FAILED",
        (_, 1) => "NOT ACCESSED to IN ACCESS",
        (_, 2) => "IN ACCESS to CARRIER COMPLETE",
        (_, 3) => "IN ACCESS to CARRIER STOPPED",
        (_, _) => "NOT ACCESSED to CARRIER STOPPED",
    }
}

// What a row of tables 11 to 13 does.
fn substrate_row(table: Table, row: u8) -> &'static str {
    match (table, row) {
        (Table::Location, 1) => "UNOCCUPIED to OCCUPIED",
        (Table::Location, _) => "OCCUPIED to UNOCCUPIED",
        (Table::Transport, 1) => "registered: AT SOURCE",
        (Table::Transport, 2) => "AT SOURCE to AT WORK",
        (Table::Transport, _) => "AT WORK to AT DESTINATION",
        (_, 1) => "registered: NEEDS PROCESSING",
        (_, 2) => "NEEDS PROCESSING to IN PROCESS",
        (_, 3) => "IN PROCESS to PROCESSED",
        (_, 4) => "IN PROCESS to ABORTED",
        (_, 5) => "NEEDS PROCESSING to SKIPPED",
        (_, 6) => "NEEDS PROCESSING or IN PROCESS to STOPPED",
        (_, 7) => "NEEDS PROCESSING or IN PROCESS to ABORTED",
        (_, _) => "to LOST",
    }
}

// What a row of table 14 does.
fn process_job_row(row: u8) -> &'static str {
    match row {
        1 => "created: QUEUED",
        2 => "QUEUED to SETTING UP",
        3 => "SETTING UP to WAITING FOR START",
        4 => "SETTING UP to PROCESSING",
        5 => "WAITING FOR START to PROCESSING",
        6 => "PROCESSING to PROCESS COMPLETE",
        7 => "PROCESS COMPLETE to its end",
        8 => "PROCESSING to PAUSING",
        9 => "PAUSING to PAUSED",
        10 => "PAUSING or PAUSED to PROCESSING",
        11 | 17 => "to STOPPING",
        12 | 18 => "to ABORTING",
        13 => "STOPPING to its end",
        14 => "ABORTING to its end",
        _ => "QUEUED to its end",
    }
}

// What a row of table 15 does.
fn control_job_row(row: u8) -> &'static str {
    match row {
        1 => "created: QUEUED",
        2 => "QUEUED to SELECTED",
        3 => "SELECTED to WAITING FOR START",
        4 => "SELECTED to EXECUTING",
        5 => "WAITING FOR START to EXECUTING",
        6 => "EXECUTING to PAUSED",
        7 => "PAUSED to EXECUTING",
        8 => "EXECUTING to COMPLETED",
        9 => "QUEUED to COMPLETED",
        10 => "SELECTED to QUEUED",
        11 => "to EXECUTING, ending by stop",
        _ => "to EXECUTING, ending by abort",
    }
}

// What a row does that has an event.
fn row_text(table: Table, row: u8) -> &'static str {
    match table {
        Table::Control => control_row(row),
        Table::Line => spool_row(row),
        Table::Transfer | Table::Access | Table::Reservation | Table::Association => {
            port_row(table, row)
        }
        Table::CarrierId | Table::SlotMap | Table::Accessing => carrier_row(table, row),
        Table::Location | Table::Transport | Table::Processing => substrate_row(table, row),
        Table::ProcessJob => process_job_row(row),
        _ => control_job_row(row),
    }
}

/// Goes on with a row of a table that has an event: `table 9 row 3, slot map WAITING FOR HOST to VERIFIED`.
fn add_row(alloc: Global, table: Table, row: u8, out: &mut Remarks) -> Result<(), AllocError> {
    let (number, name, text) = (table.number(), table_name(table), row_text(table, row));
    let words = format!(in alloc; "table {number} row {row}, {name} {text}")?;
    out.add(words.as_str())
}

// The table and the row whose event a CEID is.
fn row_named(ceid: u32) -> Option<(Table, u8)> {
    let id = row_of(ceid)?;
    Some((Table::of(id.table)?, id.row))
}

/// Goes on with the row whose event a CEID is, or tells that it is none.
pub(crate) fn add_row_of(alloc: Global, ceid: u32, out: &mut Remarks) -> Result<(), AllocError> {
    match row_named(ceid) {
        Some((table, row)) => add_row(alloc, table, row, out),
        None => out.add("no event of this tool"),
    }
}

/// Goes on with an event: its CEID and its row.
pub(crate) fn add_event(alloc: Global, ceid: u32, out: &mut Remarks) -> Result<(), AllocError> {
    out.add("event ")?;
    out.add_number(alloc, u64::from(ceid))?;
    out.add(": ")?;
    add_row_of(alloc, ceid, out)
}
