//! Messages in words, as the pages of docs/profile write them: `S3F17 W 2 L[U4 0, A Bind]`, and `Select.req 1`.

use crate::items::add_item;
use anyhow::{Result, bail};
use hsms_frame::{Arrival, Frame, Header};
use secs_items::read_one;
use std::alloc::Global;

// The name of a control message (SEMI E37, message header).
fn control_name(stype: u8) -> &'static str {
    match stype {
        1 => "Select.req",
        2 => "Select.rsp",
        5 => "Linktest.req",
        6 => "Linktest.rsp",
        7 => "Reject.req",
        9 => "Separate.req",
        _ => "control message",
    }
}

// Stream and function with the W-bit, or the name of a control message, and the system bytes.
fn add_header(header: Header, out: &mut String) -> Result<()> {
    if header.stype != 0 {
        write!(out, "{} {}", control_name(header.stype), header.system)?;
        return Ok(());
    }
    let wanted = if header.byte2 >= 0x80 { " W" } else { "" };
    let stream = header.byte2 % 0x80;
    write!(out, "S{stream}F{}{wanted} {}", header.byte3, header.system)?;
    Ok(())
}

// A blank and the item that a text is, nothing for an empty one.
fn add_body(alloc: Global, text: &[u8], out: &mut String) -> Result<()> {
    if text.is_empty() {
        return Ok(());
    }
    match read_one(alloc, text)? {
        Some(item) => {
            out.push_str(" ")?;
            add_item(alloc, &item, out)
        }
        None => bail!("the text is not one item"),
    }
}

fn add_frame(alloc: Global, frame: &Frame, out: &mut String) -> Result<()> {
    add_header(frame.header, out)?;
    add_body(alloc, frame.text.as_slice(), out)
}

/// What has arrived, in words. One whose text was over the limit is told by its header alone.
pub fn words_of(alloc: Global, arrival: &Arrival) -> Result<String> {
    let mut out = String::new(alloc);
    match arrival {
        Arrival::Frame(frame) => add_frame(alloc, frame, &mut out)?,
        Arrival::TooLong(header, _) => add_header(*header, &mut out)?,
    }
    Ok(out)
}
