//! With what a data message of the host is read, by the table of its stream, and by what one is told that is not read (SEMI E5,
//! streams and functions). It is read where it is done: a message is large, and each hand that it passes through would copy it. The
//! rules that come before it is read ask for the tool's state. Both stand in `core_host`.
ghost use Rattle.std.specs.Prelude.{◌≡◌, IfOk, IfSome, None, if◌then◌else◌, option_map};
ghost use Rattle.item_model.specs.View.{view};
ghost use Rattle.message_model.specs.Few.{HasShortText};
ghost use Rattle.message_model.specs.GemPrimaries.{ignores, reading};
ghost use Rattle.gem_model.specs.Verdict.{Stream9, item_of, stream_of, function_of, told_by};
ghost use Rattle.host_messages.specs.Short.{IsShort};

use crate::arrival::{item_of, stream_of};
use hsms_frame::{Arrival, Header};
use item_model::Item;
use message_model::BodyFault;
use msgs_gem::is_ignored;
use std::alloc::{AllocError, Global};

/// The item of the text of a message of streams 1, 2, 5 and 6, where it is one; a text that is ignored is not decoded, and makes no
/// difference.
pub fn text_item(
    alloc: Global,
    header: &Header,
    arrival: &Arrival,
) -> Result<Option<Item>, AllocError>
    requires short { IsShort arrival.now }
    ensures item { IfOk result (λ item. option_map view item ≡ (if ignores (stream_of header.now) (function_of header.now) then None else item_of arrival.now)) }
    ensures reading { IfOk result (λ item. reading (stream_of header.now) (function_of header.now) (option_map view item) ≡ reading (stream_of header.now) (function_of header.now) (item_of arrival.now)) }
    ensures short { IfOk result (λ item. IfSome item (λ i. HasShortText (view i))) }
{
    if is_ignored(stream_of(header), header.byte3) {
        Ok(None)
    } else {
        item_of(alloc, arrival)
    }
}

/// The function of the message of stream 9 by which a message is told that is not read. `AllocError`: it was not read since
/// there was no memory.
pub fn told_by(fault: BodyFault) -> Result<u8, AllocError>
    ensures { IfOk result (λ function. Stream9 function ≡ told_by fault) }
{
    match fault {
        BodyFault::UnknownStream => Ok(3),
        BodyFault::UnknownFunction => Ok(5),
        BodyFault::IllegalData => Ok(7),
        BodyFault::NoMemory => Err(AllocError),
    }
}
