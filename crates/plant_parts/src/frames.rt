//! The frames that the tool sends.
ghost use Rattle.std.specs.Prelude.{◌≡◌, ◌≤◌, ◌+◌, ◌^◌, ◌++◌, length, take, [], IfOk};
ghost use Rattle.std.specs.Int.{w32, to_be_bytes};
ghost use Rattle.gem_ids.specs.Texts.{IsText};
ghost use Rattle.item_model.specs.View.{view};
ghost use Rattle.hsms_frame.specs.Spelling.{message_bytes, header_bytes};
ghost use Rattle.message_model.specs.GemReplies.{reply_body, B};
ghost use Rattle.message_model.specs.GemSendable.{HasSendableParts};
ghost use Rattle.message_model.specs.ShopReplies.{shop_reply_body};
ghost use Rattle.message_model.specs.ShopSendable.{HasSendableParts as HasShopParts};
ghost use Rattle.gem_model.specs.Sending.{data_header, data_frame, identity_text, stream9_text};
ghost use Rattle.item_model.specs.Plain.{plain, plain_head};
ghost use Rattle.item_model.specs.Sendable.{IsSendable};

use gem_ids::Text80;
use hsms_frame::{Bytes, Frame, Header, write_frame, write_header};
use item_model::{Format, Item};
use message_model::{GemReply, ShopReply};
use msgs_300::shop_item;
use msgs_gem::gem_item_out;
use secs_items::encode;
use std::alloc::{AllocError, Global};
use tool_events::Config;

// Room for a short text, as most are, which is taken at once.
const TEXT_ROOM: usize = 32;

// Room for what a frame has before its text: the length field and the header.
pub(crate) const FRONT: usize = 14;

// A text of at most so many bytes becomes its frame in its own room.
const SHORT: usize = 128;

/// A frame without text.
pub fn header_frame(alloc: Global, header: Header) -> Result<Bytes, AllocError>
    ensures { IfOk result (λ frame. frame ≡ message_bytes header []) }
{
    let frame = Vec::from_slice(alloc, &write_header(header))?;
    Ok(Bytes::from_vec(frame))
}

/// The header of a data message of the tool, with the W-bit where a reply is wanted.
pub fn data_header(device: u16, wants: bool, stream: u8, function: u8, system: u32) -> Header
    ensures { result ≡ data_header device wants stream function system }
{
    Header {
        session: device,
        byte2: if wants { 128 } else { 0 } + stream % 128,
        byte3: function,
        ptype: 0,
        stype: 0,
        system,
    }
}

/// A data message of the tool. A short text becomes the message in its own room, so that no memory is taken where it has room for
/// 14 bytes more.
pub fn data_frame(alloc: Global, header: Header, text: Bytes) -> Result<Bytes, AllocError>
    requires { length text ≤ 2 ^ 31 }
    ensures { IfOk result (λ frame. frame ≡ message_bytes header text) }
{
    if text.as_slice().len() <= SHORT {
        short_frame(header, text.into_vec())
    } else {
        long_frame(alloc, header, text)
    }
}

/// A data message of a text of any length, in memory of its own.
fn long_frame(alloc: Global, header: Header, text: Bytes) -> Result<Bytes, AllocError>
    requires { length text ≤ 2 ^ 31 }
    ensures { IfOk result (λ frame. frame ≡ message_bytes header text) }
{
    let mut frame = Vec::new(alloc);
    write_frame(&Frame { header, text }, &mut frame)?;
    Ok(Bytes::from_vec(frame))
}

/// A data message of a short text, in the room of the text.
#[tactic(auto, unfolding(hsms_frame::specs::Spelling::message_bytes))]
fn short_frame(header: Header, text: Vec<u8>) -> Result<Bytes, AllocError>
    requires { length text.items ≤ 128 }
    ensures { IfOk result (λ frame. frame ≡ message_bytes header text.items) }
{
    let count = text.len();
    let held = held(text.as_slice());
    let mut frame = text;
    frame.clear();
    frame.extend_from_slice(&front(count as u32, header))?;
    frame.extend_from_slice(&held[..count])?;
    Ok(Bytes::from_vec(frame))
}

/// The bytes of a short text, and zeros behind them.
fn held(text: &[u8]) -> [u8; 128]
    requires { length text.now ≤ 128 }
    ensures { take (length text.now) result ≡ text.now }
{
    let mut held = [0; SHORT];
    held[..text.len()].copy_from_slice(text);
    held
}

/// The length field and the header of a message whose text has so many bytes.
#[tactic(auto, unfolding(hsms_frame::specs::Spelling::header_bytes))]
fn front(count: u32, header: Header) -> [u8; 14]
    requires { count ≤ 128 }
    ensures { result ≡ to_be_bytes w32 (10 + count) ++ header_bytes header }
{
    let [l0, l1, l2, l3] = (10 + count).to_be_bytes();
    let [b0, b1, b2, b3, b4, b5, b6, b7, b8, b9] = ten_bytes(header);
    [l0, l1, l2, l3, b0, b1, b2, b3, b4, b5, b6, b7, b8, b9]
}

/// The text of an item, with room for so many bytes from the start.
fn text_of(alloc: Global, item: &Item, room: usize) -> Result<Bytes, AllocError>
    requires { IsSendable (view item.now) }
    ensures { IfOk result (λ text. text ≡ plain (view item.now)) }
{
    let mut text = Vec::with_capacity(alloc, room)?;
    encode(item, &mut text)?;
    Ok(Bytes::from_vec(text))
}

/// The text of a reply whose parts can be sent. It is sent at once, so it has room for what a frame has before it.
pub fn reply_text(alloc: Global, reply: GemReply) -> Result<Bytes, AllocError>
    requires { HasSendableParts reply }
    ensures text { IfOk result (λ text. text ≡ plain (reply_body reply)) }
    ensures short { IfOk result (λ text. length text ≤ 2 ^ 31) }
{
    let item = gem_item_out(alloc, reply)?;
    text_of(alloc, &item, FRONT + TEXT_ROOM)
}

/// The same of a reply whose text is kept, as that of a note.
pub fn text_of_reply(alloc: Global, reply: GemReply) -> Result<Bytes, AllocError>
    requires { HasSendableParts reply }
    ensures text { IfOk result (λ text. text ≡ plain (reply_body reply)) }
    ensures short { IfOk result (λ text. length text ≤ 2 ^ 31) }
{
    let item = gem_item_out(alloc, reply)?;
    text_of(alloc, &item, TEXT_ROOM)
}

/// The text of a reply to a message of carriers, ports and jobs, whose parts can be sent.
pub fn shop_text(alloc: Global, reply: &ShopReply) -> Result<Bytes, AllocError>
    requires { HasShopParts reply.now }
    ensures text { IfOk result (λ text. text ≡ plain (shop_reply_body reply.now)) }
    ensures short { IfOk result (λ text. length text ≤ 2 ^ 31) }
{
    let item = shop_item(alloc, reply)?;
    text_of(alloc, &item, FRONT + TEXT_ROOM)
}

/// The ten bytes of a header.
#[tactic(auto, unfolding(hsms_frame::specs::Spelling::message_bytes))]
fn ten_bytes(header: Header) -> [u8; 10]
    ensures { result ≡ header_bytes header }
{
    let [_, _, _, _, b0, b1, b2, b3, b4, b5, b6, b7, b8, b9] = write_header(header);
    [b0, b1, b2, b3, b4, b5, b6, b7, b8, b9]
}

/// The ten bytes of a header, as a part of a message.
fn header_part(alloc: Global, header: Header) -> Result<item_model::Bytes, AllocError>
    ensures bytes { IfOk result (λ bytes. bytes ≡ header_bytes header) }
    ensures ten { IfOk result (λ bytes. length bytes ≡ 10) }
{
    let bytes = Vec::from_slice(alloc, &ten_bytes(header))?;
    Ok(item_model::Bytes::from_vec(bytes))
}

/// The text of a message of stream 9: the ten bytes of the header that it is about.
pub fn stream9_text(alloc: Global, about: Header) -> Result<Bytes, AllocError>
    ensures text { IfOk result (λ text. text ≡ stream9_text about) }
    ensures short { IfOk result (λ text. length text ≤ 200) }
{
    let bytes = header_part(alloc, about)?;
    text_of(alloc, &Item::Binary(bytes), FRONT + TEXT_ROOM)
}

/// The bytes of a text, as a part of a reply.
pub fn part(alloc: Global, text: Text80) -> Result<item_model::Bytes, AllocError>
    ensures bytes { IfOk result (λ bytes. bytes ≡ text) }
    ensures text { IfOk result IsText }
{
    Ok(item_model::Bytes::from_vec(Vec::from_slice(alloc, text.as_bytes())?))
}

/// The format byte and the length byte of a short text.
fn text_head(text: &Text80) -> [u8; 2]
    ensures { result ≡ plain_head 16 (length text.now) }
{
    [4 * Format::Ascii.code() + 1, text.len() as u8]
}

/// The text of S1F2 and S1F13, a list of two texts: the model and the software revision. It is written straight from these.
pub fn identity_text(alloc: Global, config: &Config) -> Result<Bytes, AllocError>
    ensures text { IfOk result (λ text. text ≡ identity_text config.now) }
    ensures short { IfOk result (λ text. length text ≤ 2 ^ 31) }
{
    let mdln = config.mdln.as_bytes();
    let softrev = config.softrev.as_bytes();
    let mut text = Vec::with_capacity(alloc, FRONT + 6 + mdln.len() + softrev.len())?;
    text.extend_from_slice(&[4 * Format::List.code() + 1, 2])?;
    text.extend_from_slice(&text_head(&config.mdln))?;
    text.extend_from_slice(mdln)?;
    text.extend_from_slice(&text_head(&config.softrev))?;
    text.extend_from_slice(softrev)?;
    Ok(Bytes::from_vec(text))
}
