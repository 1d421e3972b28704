//! The messages of the host: which of the tool's it answers, and what it sends.
ghost use Rattle.std.specs.Prelude.{◌≡◌, ◌≤◌, length, take, drop, IfOk};
ghost use Rattle.hsms_frame.specs.Cut.{header_at};
ghost use Rattle.sim_modules.specs.Lot.{asked_header};
ghost use Rattle.batch_model.specs.Host.{select_request, enable_request, primary_of, primary_in, answer_header, answer_to};

use batch_model::Primary;
use hsms_frame::{Bytes, Frame, Header};
use std::alloc::{AllocError, Global};

/// The text of S2F37 L[BOOL true, L[]], which enables all events (SEMI E5, S2F37).
const ENABLE_ALL: [u8; 7] = [1, 2, 37, 1, 1, 1, 0];

/// The text of S1F14 L[B 0, L[]], which accepts communication (SEMI E5, S1F14).
const ACCEPTED: [u8; 7] = [1, 2, 33, 1, 0, 1, 0];

/// The text of S6F12 B 0, which takes an event report (SEMI E5, S6F12).
const REPORT_TAKEN: [u8; 3] = [33, 1, 0];

// ---- what it answers

// The header of ten bytes.
fn header_at(bytes: &[u8]) -> Header
    requires { 10 ≤ length bytes.now }
    ensures { result ≡ header_at bytes.now }
{
    Header {
        session: u16::from_be_bytes([bytes[0], bytes[1]]),
        byte2: bytes[2],
        byte3: bytes[3],
        ptype: bytes[4],
        stype: bytes[5],
        system: u32::from_be_bytes([bytes[6], bytes[7], bytes[8], bytes[9]]),
    }
}

// The message of a header, where it is S1F13 or S6F11 with the W-bit.
fn primary_of(header: Header) -> Option<Primary>
    ensures { result ≡ primary_of header }
{
    if header.ptype != 0 || header.stype != 0 {
        return None;
    }
    match (header.byte2, header.byte3) {
        (129, 13) => Some(Primary::EstablishRequest(header.system)),
        (134, 11) => Some(Primary::EventReport(header.system)),
        _ => None,
    }
}

// The bytes behind the length of a frame.
fn behind_length(frame: &[u8]) -> &[u8]
    requires { 4 ≤ length frame.now }
    ensures { result.now ≡ drop 4 frame.now }
{
    &frame[4..]
}

/// The message of a frame, where it is one that the host answers: S1F13 or S6F11 (this tool's profile, batch).
pub fn primary_in(frame: &[u8]) -> Option<Primary>
    ensures { result ≡ primary_in frame.now }
{
    if frame.len() < 14 {
        return None;
    }
    primary_of(header_at(behind_length(frame)))
}

// ---- what it sends

/// The select request, under system bytes 1 (SEMI E37, select).
pub fn select_request(alloc: Global) -> Frame
    ensures { result ≡ select_request }
{
    Frame {
        header: Header {
            session: 65535,
            byte2: 0,
            byte3: 0,
            ptype: 0,
            stype: 1,
            system: 1,
        },
        text: Bytes::from_vec(Vec::new(alloc)),
    }
}

// A text of these bytes.
fn text_of(alloc: Global, bytes: &[u8]) -> Result<Bytes, AllocError>
    ensures { IfOk result (λ text. text ≡ bytes.now) }
{
    Ok(Bytes::from_vec(Vec::from_slice(alloc, bytes)?))
}

/// All events are enabled, under system bytes 2 (SEMI E5, S2F37). The device is that of the tool.
pub fn enable_request(alloc: Global, device: u16) -> Result<Frame, AllocError>
    ensures { IfOk result (λ frame. frame ≡ enable_request device) }
{
    let text = text_of(alloc, &ENABLE_ALL)?;
    let header = Header {
        session: device,
        byte2: 130,
        byte3: 37,
        ptype: 0,
        stype: 0,
        system: 2,
    };
    Ok(Frame { header, text })
}

// The header of an answer, under the system bytes of what is answered.
fn answer_header(device: u16, stream: u8, function: u8, system: u32) -> Header
    ensures { result ≡ answer_header device stream function system }
{
    Header {
        session: device,
        byte2: stream,
        byte3: function,
        ptype: 0,
        stype: 0,
        system,
    }
}

/// The answer of a host: S1F14 accepts communication, and S6F12 takes an event report (SEMI E5).
pub fn answer_to(alloc: Global, device: u16, primary: Primary) -> Result<Frame, AllocError>
    ensures { IfOk result (λ frame. frame ≡ answer_to device primary) }
{
    match primary {
        Primary::EstablishRequest(system) => {
            let text = text_of(alloc, &ACCEPTED)?;
            let header = answer_header(device, 1, 14, system);
            Ok(Frame { header, text })
        }
        Primary::EventReport(system) => {
            let text = text_of(alloc, &REPORT_TAKEN)?;
            let header = answer_header(device, 6, 12, system);
            Ok(Frame { header, text })
        }
    }
}
