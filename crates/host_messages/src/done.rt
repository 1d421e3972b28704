//! What was done of a message of the host that is taken: its reply, with its text, and the direct rows that are still to fire.
ghost use Rattle.std.specs.Prelude.{◌≡◌, ◌≤◌, ◌^◌, ◌∷◌, [], length, IfOk, IfSome};
ghost use Rattle.item_model.specs.Plain.{plain};
ghost use Rattle.message_model.specs.GemReplies.{reply_body};
ghost use Rattle.message_model.specs.GemSendable.{HasSendableParts};
ghost use Rattle.message_model.specs.Printed.{code as code_data};
ghost use Rattle.message_model.specs.ShopReplies.{action_acknowledge, shop_reply_body};
ghost use Rattle.message_model.specs.ShopSendable.{HasSendableParts as HasShopParts};
ghost use Rattle.gem_model.specs.HostMessages.{reply_text};
ghost use Rattle.host_messages.specs.declared.done.HostReply.TheVariants as host;
ghost use Rattle.host_messages.specs.Dones.{reply_view, CanBeSent};

use crate::rows::Rows;
use gem_tables::Firing;
use hsms_frame::Bytes;
use item_model::Format;
use message_model::{GemReply, ShopReply};
use plant_parts::{reply_text as gem_text, shop_text};
use std::alloc::{AllocError, Global};

// Room for what a frame has before its text: the length field and the header.
const FRONT: usize = 14;

/// A reply of the tool.
#[derive(Drop)]
pub enum HostReply {
    Gem(GemReply),
    Shop(ShopReply),
}

/// What was done of a message that is taken, which is to be answered so, and whose direct rows are still to fire.
#[derive(Drop)]
pub struct Done {
    pub reply: HostReply,
    pub rows: Rows,
}

/// A message is answered so, and no row fires.
pub fn answered(alloc: Global, reply: GemReply) -> Done
    ensures reply { result.reply ≡ host.Gem reply }
    ensures rows { result.rows ≡ [] }
{
    Done {
        reply: HostReply::Gem(reply),
        rows: Rows::none(alloc),
    }
}

/// A message is answered so, and this row fires.
pub fn fires_row(alloc: Global, reply: GemReply, row: Firing) -> Done
    ensures reply { result.reply ≡ host.Gem reply }
    ensures rows { result.rows ≡ row ∷ [] }
{
    Done {
        reply: HostReply::Gem(reply),
        rows: Rows::one(alloc, Some(row)),
    }
}

/// The text of a reply, which is let go. It has room for what a frame has before it.
pub fn reply_text(alloc: Global, reply: HostReply) -> Result<Bytes, AllocError>
    requires { CanBeSent reply }
    ensures text { IfOk result (λ text. text ≡ reply_text (reply_view reply)) }
    ensures short { IfOk result (λ text. length text ≤ 2 ^ 31) }
{
    match reply {
        HostReply::Gem(reply) => gem_reply_text(alloc, reply),
        HostReply::Shop(reply) => shop_reply_text(alloc, &reply),
    }
}

/// The text of a reply of streams 1, 2, 5 and 6: that of a code is written straight.
fn gem_reply_text(alloc: Global, reply: GemReply) -> Result<Bytes, AllocError>
    requires { HasSendableParts reply }
    ensures text { IfOk result (λ text. text ≡ plain (reply_body reply)) }
    ensures short { IfOk result (λ text. length text ≤ 2 ^ 31) }
{
    match code_of(&reply) {
        Some(code) => code_text(alloc, code),
        None => gem_text(alloc, reply),
    }
}

/// The code that is all that a reply tells, where it tells no more.
fn code_of(reply: &GemReply) -> Option<u8>
    ensures { IfSome result (λ code. reply_body reply.now ≡ code_data code) }
{
    match reply {
        GemReply::S1F16 => Some(0),
        GemReply::S1F18(code)
        | GemReply::S2F16(code)
        | GemReply::S2F32(code)
        | GemReply::S2F34(code)
        | GemReply::S2F36(code)
        | GemReply::S2F38(code)
        | GemReply::S5F4(code)
        | GemReply::S6F24(code) => Some(*code),
        _ => None,
    }
}

/// The text of a code: a B of one byte.
fn code_text(alloc: Global, code: u8) -> Result<Bytes, AllocError>
    ensures text { IfOk result (λ text. text ≡ plain (code_data code)) }
    ensures short { IfOk result (λ text. length text ≤ 2 ^ 31) }
{
    let mut text = Vec::with_capacity(alloc, FRONT + 3)?;
    text.extend_from_slice(&[4 * Format::Binary.code() + 1, 1, code])?;
    Ok(Bytes::from_vec(text))
}

/// The text of a reply of streams 3, 14 and 16: what an action is answered is written straight.
fn shop_reply_text(alloc: Global, reply: &ShopReply) -> Result<Bytes, AllocError>
    requires { HasShopParts reply.now }
    ensures text { IfOk result (λ text. text ≡ plain (shop_reply_body reply.now)) }
    ensures short { IfOk result (λ text. length text ≤ 2 ^ 31) }
{
    match reply {
        ShopReply::S3F18(caack) | ShopReply::S3F26(caack) | ShopReply::S3F28(caack) => {
            action_text(alloc, *caack)
        }
        _ => shop_text(alloc, reply),
    }
}

/// The text of what an action is answered: a list of CAACK, a U1, and of a list of no errors.
fn action_text(alloc: Global, caack: u8) -> Result<Bytes, AllocError>
    ensures text { IfOk result (λ text. text ≡ plain (action_acknowledge caack)) }
    ensures short { IfOk result (λ text. length text ≤ 2 ^ 31) }
{
    let list = 4 * Format::List.code() + 1;
    let mut text = Vec::with_capacity(alloc, FRONT + 7)?;
    text.extend_from_slice(&[list, 2, 4 * Format::U1.code() + 1, 1, caack, list, 0])?;
    Ok(Bytes::from_vec(text))
}
