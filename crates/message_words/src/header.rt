//! The headers of frames in words.

ghost use Rattle.std.specs.Prelude.{◌≡◌, ◌==◌, ◌&&◌, IfOk};
ghost use Rattle.message_words.specs.Frames.{data_words};

use crate::control::control_name;
use hsms_frame::Header;
use std::alloc::{AllocError, Global};

/// Whether a header is that of a data message: PType and SType are 0 (SEMI E37, message header).
pub(crate) fn is_data(header: Header) -> bool
    ensures { result ≡ ((header.ptype == 0) && (header.stype == 0)) }
{
    header.ptype == 0 && header.stype == 0
}

/// The header of a data message in words: `S1F13 W 2` is stream 1, function 13, with the W-bit, under system bytes 2. PType and SType are
/// not looked at. `AllocError` comes for want of memory alone.
pub fn data_words(alloc: Global, header: Header) -> Result<Vec<u8>, AllocError>
    ensures { IfOk result (λ text. text.items ≡ data_words header) }
{
    let stream = header.byte2 % 128;
    let function = header.byte3;
    let system = header.system;
    let words = if header.byte2 >= 128 {
        format!(in alloc; "S{stream}F{function} W {system}")?
    } else {
        format!(in alloc; "S{stream}F{function} {system}")?
    };
    Ok(words.into_bytes())
}

// A header that is neither of a data message nor of a known control message.
fn other_words(alloc: Global, header: Header) -> Result<Vec<u8>, AllocError> {
    let Header {
        session,
        byte2,
        byte3,
        ptype,
        stype,
        system,
    } = header;
    let words = format!(in alloc;
        "header {session:04X} {byte2:02X} {byte3:02X} {ptype:02X} {stype:02X} {system:08X}"
    )?;
    Ok(words.into_bytes())
}

/// A header in words: of a data message as `data_words`; of a control message its name and system bytes, as `Select.req 1`; of any other
/// its fields in hex. `AllocError` comes for want of memory alone.
pub fn header_words(alloc: Global, header: Header) -> Result<Vec<u8>, AllocError> {
    if is_data(header) {
        return data_words(alloc, header);
    }
    let system = header.system;
    match control_name(header) {
        Some(name) => Ok(format!(in alloc; "{name} {system}")?.into_bytes()),
        None => other_words(alloc, header),
    }
}
