//! Control messages (SEMI E37, control messages).

use crate::remarks::Remarks;
use hsms_frame::Header;
use std::alloc::{AllocError, Global};

/// The name of a control message, by its SType (SEMI E37, session types). None: it is data, or no message of this standard.
pub(crate) fn control_name(header: Header) -> Option<&'static str> {
    if header.ptype != 0 {
        return None;
    }
    match header.stype {
        1 => Some("Select.req"),
        2 => Some("Select.rsp"),
        3 => Some("Deselect.req"),
        4 => Some("Deselect.rsp"),
        5 => Some("Linktest.req"),
        6 => Some("Linktest.rsp"),
        7 => Some("Reject.req"),
        9 => Some("Separate.req"),
        _ => None,
    }
}

// What the status of a select response means (SEMI E37, select status).
fn select_meaning(status: u8) -> &'static str {
    match status {
        0 => "accepted",
        1 => "selected already",
        2 => "not ready",
        3 => "no session is left",
        _ => "a status of its own",
    }
}

// What the status of a deselect response means (SEMI E37, deselect status).
fn deselect_meaning(status: u8) -> &'static str {
    match status {
        0 => "accepted",
        1 => "not selected",
        2 => "busy",
        _ => "a status of its own",
    }
}

// What the reason of a reject means (SEMI E37, reason codes).
fn reject_meaning(reason: u8) -> &'static str {
    match reason {
        1 => "the SType is not known",
        2 => "the PType is not known",
        3 => "a response to nothing that was asked",
        4 => "data while the link is not selected",
        _ => "a reason of its own",
    }
}

// Says the status of a response, and what it means.
fn say_status(
    alloc: Global,
    status: u8,
    meaning: &str,
    out: &mut Remarks,
) -> Result<(), AllocError> {
    let words = format!(in alloc; "status {status}, {meaning}")?;
    out.say(words.as_str())
}

// Says why a message was rejected: header byte 2 has its PType where the reason is 2, and else its SType.
fn say_reject(alloc: Global, header: Header, out: &mut Remarks) -> Result<(), AllocError> {
    let (kind, reason) = (header.byte2, header.byte3);
    let field = if reason == 2 { "PType" } else { "SType" };
    let meaning = reject_meaning(reason);
    let words = format!(in alloc; "reason {reason}, {meaning}: {field} {kind}")?;
    out.say(words.as_str())
}

/// Says what a control message tells beside its name.
pub(crate) fn say_control(
    alloc: Global,
    header: Header,
    out: &mut Remarks,
) -> Result<(), AllocError> {
    let status = header.byte3;
    match header.stype {
        2 => say_status(alloc, status, select_meaning(status), out),
        4 => say_status(alloc, status, deselect_meaning(status), out),
        7 => say_reject(alloc, header, out),
        _ => Ok(()),
    }
}
