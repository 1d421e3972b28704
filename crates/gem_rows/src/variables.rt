//! The variables: which there are, and their names.

ghost use Rattle.std.specs.Prelude.{◌≡◌, ◌≤◌};
ghost use Rattle.gem_rows.specs.Variables.{vid_name, is_vid, status_variable, status_vids};

use crate::ecids;
use crate::names::{is_behind, name, numbered};
use gem_ids::Text80;

/// A status variable (this tool's profile, variables). Those of chambers and ports have the thing's number, counted from 1.
#[derive(Clone, Copy)]
pub enum StatusVariable {
    Clock,
    CommState,
    ControlState,
    SpoolCountActual,
    SpoolCountTotal,
    SpoolLoad,
    SpoolUnload,
    AlarmsSet,
    ProcessJobCount,
    ControlJobCount,
    ArmSubstrate,
    AlignerSubstrate,
    ChamberSubstrate(u8),
    PortTransfer(u8),
    PortAccess(u8),
    PortCarrier(u8),
}

/// The status variable of a VID. `None` exactly where no plant has one of this number; chambers are 1 to 8 here, and ports
/// 1 to 4.
pub fn status_variable(vid: u32) -> Option<StatusVariable>
    ensures { result ≡ status_variable vid }
{
    let variable = match vid {
        1 => StatusVariable::Clock,
        2 => StatusVariable::CommState,
        3 => StatusVariable::ControlState,
        4 => StatusVariable::SpoolCountActual,
        5 => StatusVariable::SpoolCountTotal,
        6 => StatusVariable::SpoolLoad,
        7 => StatusVariable::SpoolUnload,
        8 => StatusVariable::AlarmsSet,
        9 => StatusVariable::ProcessJobCount,
        10 => StatusVariable::ControlJobCount,
        12 => StatusVariable::ArmSubstrate,
        13 => StatusVariable::AlignerSubstrate,
        21..=28 => StatusVariable::ChamberSubstrate((vid - 20) as u8),
        31..=34 => StatusVariable::PortTransfer((vid - 30) as u8),
        41..=44 => StatusVariable::PortAccess((vid - 40) as u8),
        51..=54 => StatusVariable::PortCarrier((vid - 50) as u8),
        _ => return None,
    };
    Some(variable)
}

/// The VIDs of all status variables that there can be, rising: those of the largest plant, of 4 ports and 8 chambers.
pub fn status_vids() -> [u32; 32]
    ensures { result ≡ status_vids }
{
    [
        1, 2, 3, 4, 5, 6, 7, 8, 9, 10, 12, 13, // the tool
        21, 22, 23, 24, 25, 26, 27, 28, // its chambers
        31, 32, 33, 34, 41, 42, 43, 44, 51, 52, 53, 54, // its ports
    ]
}

/// The name of a VID: a status variable, a data variable of events, or an equipment constant (this tool's profile,
/// variables). `None` exactly where no plant has it; chambers are 1 to 8 here, and ports 1 to 4. Takes no memory.
pub fn vid_name(vid: u32) -> Option<Text80>
    ensures { result ≡ vid_name vid }
{
    match vid {
        1 => name(b"Clock"),
        2 => name(b"CommState"),
        3 => name(b"ControlState"),
        4 => name(b"SpoolCountActual"),
        5 => name(b"SpoolCountTotal"),
        6 => name(b"SpoolLoad"),
        7 => name(b"SpoolUnload"),
        8 => name(b"AlarmsSet"),
        9 => name(b"ProcessJobCount"),
        10 => name(b"ControlJobCount"),
        12 => name(b"ArmSubstrate"),
        13 => name(b"AlignerSubstrate"),
        21..=28 => numbered(b"ChamberSubstrate", vid - 20, b""),
        31..=34 => numbered(b"PortTransfer", vid - 30, b""),
        41..=44 => numbered(b"PortAccess", vid - 40, b""),
        51..=54 => numbered(b"PortCarrier", vid - 50, b""),
        100 => name(b"EventObject"),
        101 => name(b"EventRow"),
        ecids::ESTABLISH_TIMEOUT => name(b"EstablishTimeout"),
        ecids::MAX_SPOOL_TRANSMIT => name(b"MaxSpoolTransmit"),
        ecids::OVERWRITE_SPOOL => name(b"OverWriteSpool"),
        ecids::T3 => name(b"T3"),
        ecids::T7 => name(b"T7"),
        ecids::T6 => name(b"T6"),
        ecids::LINKTEST_PERIOD => name(b"LinktestPeriod"),
        _ => None,
    }
}

/// Whether a plant of so many ports and chambers knows a VID: it knows the variables of its own alone.
pub fn is_vid(ports: u8, chambers: u8, vid: u32) -> bool
    ensures { result ≡ is_vid ports chambers vid }
{
    is_behind(20, chambers, vid)
        || is_behind(30, ports, vid)
        || is_behind(40, ports, vid)
        || is_behind(50, ports, vid)
        || matches!(vid, 1..=10 | 12 | 13 | 100 | 101)
        || matches!(vid, ecids::ESTABLISH_TIMEOUT..=ecids::LINKTEST_PERIOD)
}
