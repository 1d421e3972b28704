//! What arrived: its header, its stream and function, and its text (SEMI E37, message header; SEMI E5, message text).
ghost use Rattle.std.specs.Prelude.{◌≡◌, ◌≤◌, ◌^◌, length, IfOk, IfSome, option_map};
ghost use Rattle.item_model.specs.One.{one_item};
ghost use Rattle.item_model.specs.View.{view};
ghost use Rattle.message_model.specs.Few.{HasShortText};
ghost use Rattle.gem_model.specs.Verdict.{header_of, is_too_long, item_of, wants_reply, stream_of, is_message};
ghost use Rattle.host_messages.specs.Short.{IsShort};

use hsms_frame::{Arrival, Header};
use item_model::Item;
use secs_items::read_one;
use std::alloc::{AllocError, Global};

/// The header of what arrived.
pub fn header_of(arrival: &Arrival) -> Header
    ensures { result ≡ header_of arrival.now }
{
    match arrival {
        Arrival::Frame(frame) => frame.header,
        Arrival::TooLong(header, _) => *header,
    }
}

/// Whether the text of what arrived was too long to be taken.
pub fn is_too_long(arrival: &Arrival) -> bool
    ensures { result ≡ is_too_long arrival.now }
{
    matches!(arrival, Arrival::TooLong(_, _))
}

/// A text as one item, where it is one.
fn read_text(alloc: Global, text: &[u8]) -> Result<Option<Item>, AllocError>
    ensures item { IfOk result (λ item. option_map view item ≡ one_item text.now) }
    ensures short { length text.now ≤ 2 ^ 29 → IfOk result (λ item. IfSome item (λ i. HasShortText (view i))) }
{
    read_one(alloc, text)
}

/// The text of what arrived as one item, where it is one.
pub fn item_of(alloc: Global, arrival: &Arrival) -> Result<Option<Item>, AllocError>
    ensures item { IfOk result (λ item. option_map view item ≡ item_of arrival.now) }
    ensures short { IsShort arrival.now → IfOk result (λ item. IfSome item (λ i. HasShortText (view i))) }
{
    match arrival {
        Arrival::Frame(frame) => read_text(alloc, frame.text.as_slice()),
        Arrival::TooLong(_, _) => Ok(None),
    }
}

/// Whether the W-bit asks for a reply.
pub fn wants_reply(header: &Header) -> bool
    ensures { result ≡ wants_reply header.now }
{
    header.byte2 >= 128
}

/// The stream of a message.
pub fn stream_of(header: &Header) -> u8
    ensures { result ≡ stream_of header.now }
{
    header.byte2 % 128
}

/// Whether it is a message of this stream and function.
pub fn is_message(stream: u8, function: u8, header: &Header) -> bool
    ensures { result ≡ is_message stream function header.now }
{
    stream_of(header) == stream && header.byte3 == function
}
