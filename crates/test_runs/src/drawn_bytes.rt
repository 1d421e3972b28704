//! Bytes of a host that are drawn: frames of any headers and texts, texts over the greatest, lengths below 10, and bytes that are no
//! frames. They are drawn as `sim_modules::draw` gives numbers, of which the upper bytes are taken.

use sim_modules::draw;
use std::alloc::{AllocError, Global};

// So many frames are drawn for a session at most.
const FRAMES: u32 = 64;

// Values that header bytes and lengths in items often have, so that drawn texts are items now and then.
const COMMON: [u8; 16] = [
    0x00, 0x01, 0x02, 0x03, 0x04, 0x05, 0x0D, 0x0F, 0x11, 0x21, 0x25, 0x41, 0x81, 0xA5, 0xA9, 0xB1,
];

/// Draws eight bytes.
pub(crate) fn drawn(last: &mut u64) -> [u8; 8] {
    *last = draw(*last);
    last.to_be_bytes()
}

// One of the common values, by a drawn byte.
fn common(drawn: u8) -> u8 {
    COMMON[(drawn % 16) as usize]
}

// How long the text of a frame is: mostly none or few bytes, and seldom near the greatest text, 262,144 bytes.
fn text_length(last: &mut u64) -> u32 {
    let [kind, rare, few, ..] = drawn(last);
    match kind {
        0..80 => 0,
        255 if rare < 8 => 262_140 + few as u32 % 8,
        _ => few as u32 % 48,
    }
}

// Adds so many drawn bytes, of common values where it is so.
fn add_bytes(
    bytes: &mut Vec<u8>,
    count: u32,
    is_common: bool,
    last: &mut u64,
) -> Result<(), AllocError> {
    for _ in 0..count {
        let [byte, ..] = drawn(last);
        bytes.push(if is_common { common(byte) } else { byte })?;
    }
    Ok(())
}

// An SType that isn't data: those of E37, and some that are none. A select request is one only where it may be.
fn stype(drawn: u8, may_select: bool) -> u8 {
    let stype = drawn % 12;
    if stype == 1 && !may_select { 5 } else { stype }
}

// Adds the header of a frame: mostly data of device 0 without a PType.
fn add_header(bytes: &mut Vec<u8>, may_select: bool, last: &mut u64) -> Result<(), AllocError> {
    let [device, stream, function, ptype, control, kind, system, ..] = drawn(last);
    let device = if device < 16 { device } else { 0 };
    let ptype = if ptype < 8 { ptype } else { 0 };
    let stype = if control < 40 {
        stype(kind, may_select)
    } else {
        0
    };
    let stream = if kind < 128 {
        common(stream) | 0x80
    } else {
        stream
    };
    let function = if kind < 192 { function % 48 } else { function };
    bytes.extend_from_slice(&[0, device, stream, function, ptype, stype, 0, 0, 0, system])
}

// Adds a frame.
fn add_frame(bytes: &mut Vec<u8>, may_select: bool, last: &mut u64) -> Result<(), AllocError> {
    let text = text_length(last);
    let [is_common, ..] = drawn(last);
    bytes.extend_from_slice(&text.saturating_add(10).to_be_bytes())?;
    add_header(bytes, may_select, last)?;
    add_bytes(bytes, text, is_common < 192, last)
}

// Adds a length below 10, and bytes behind it.
fn add_short(bytes: &mut Vec<u8>, last: &mut u64) -> Result<(), AllocError> {
    let [length, ..] = drawn(last);
    bytes.extend_from_slice(&[0, 0, 0, length % 10])?;
    add_bytes(bytes, 40, false, last)
}

// Adds the frames of a session, behind which a length below 10 may stand.
fn add_frames(bytes: &mut Vec<u8>, may_select: bool, last: &mut u64) -> Result<(), AllocError> {
    for _ in 0..FRAMES {
        let [is_short, ..] = drawn(last);
        if is_short < 2 {
            return add_short(bytes, last);
        }
        add_frame(bytes, may_select, last)?;
    }
    Ok(())
}

/// Draws the bytes of a session: mostly frames, and else bytes that are as likely as each other. No select request is drawn where there
/// may be none.
pub(crate) fn session_bytes(
    alloc: Global,
    may_select: bool,
    last: &mut u64,
) -> Result<Vec<u8>, AllocError> {
    let mut bytes = Vec::new(alloc);
    let [kind, ..] = drawn(last);
    if kind < 16 {
        add_bytes(&mut bytes, 1000, false, last)?;
    } else {
        add_frames(&mut bytes, may_select, last)?;
    }
    Ok(bytes)
}
