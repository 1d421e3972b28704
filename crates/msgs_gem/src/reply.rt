//! The tool's replies, and its own primaries.

ghost use Rattle.std.specs.Prelude.{◌≡◌, ◌<◌, ◌≤◌, ◌^◌, ◌∷◌, [], List, length, map, IfOk};
ghost use Rattle.item_model.specs.Data.{Data};
ghost use Rattle.item_model.specs.Plain.{plain};
ghost use Rattle.item_model.specs.Sendable.{IsSendable};
ghost use Rattle.item_model.specs.View.{view};
ghost use Rattle.item_model.specs.Weight.{IsBounded};
ghost use Rattle.message_model.specs.Functions.{AreFewFunctions};
ghost use Rattle.message_model.specs.Printed.{L, U1, code as code_data, each};
ghost use Rattle.message_model.specs.GemReplies.{alarm as alarm_data, alarm_code as alarm_code_data, alarm_part, event as event_data, identity, parameter_acknowledge, reply_body, spooling, stream_refusal as stream_refusal_data, variable_name};
ghost use Rattle.message_model.specs.GemSendable.{AreFew, HasSendableParts};

use body_parts::writing::{ascii, code, elements, list, text, u1, u4, u8};
use gem_ids::Text80;
use item_model::{Bytes, Item, Items, NoMemory};
use message_model::{AlarmPart, GemReply, ParameterAcknowledge, StreamRefusal, VariableName};
use std::alloc::Global;
use std::mem;

/// The item that is the text of the reply, as it is printed (this tool's profile, messages). The reply stays the caller's; its items
/// and texts are copied.
///
/// It can be encoded, and takes at most 1,073,741,824 bytes, where the parts of the reply are within their bounds. The
/// characters of MDLN, SOFTREV and the time are at most 127; these and a header have fewer than 16,777,216 bytes. Of
/// values there are at most 1,024, each of at most 84 bytes with lists at most 1 deep; of constants 1,024, of 210
/// bytes and 1 deep; of reports 16, of 5,392 bytes and 3 deep. Of names and alarms there are at most 1,024, and of
/// parameters fewer than 16,777,216; so are streams that are refused, and the functions of each, which are at most
/// 268,435,456 together.
#[tactic(auto, using(body_parts::proofs::Bounds::short_text))]
pub fn gem_item(alloc: Global, reply: &GemReply) -> Result<Item, NoMemory>
    ensures exact { IfOk result (λ item. view item ≡ reply_body reply.now) }
    ensures sendable { HasSendableParts reply.now → IfOk result (λ item. IsSendable (view item)) }
    ensures short { HasSendableParts reply.now → IfOk result (λ item. length (plain (view item)) ≤ 2 ^ 31) }
{
    item_of(alloc, reply)
}

/// The same item of a reply that is given away: its items and texts become parts of the item and aren't copied, so that the reply is
/// lost where there is no memory.
#[tactic(auto, using(body_parts::proofs::Bounds::short_text))]
pub fn gem_item_out(alloc: Global, reply: GemReply) -> Result<Item, NoMemory>
    ensures exact { IfOk result (λ item. view item ≡ reply_body reply) }
    ensures sendable { HasSendableParts reply → IfOk result (λ item. IsSendable (view item)) }
    ensures short { HasSendableParts reply → IfOk result (λ item. length (plain (view item)) ≤ 2 ^ 31) }
{
    let mut reply = reply;
    item_out(alloc, &mut reply)
}

// The item of a reply, within bounds.
#[tactic(auto, using(crate::proofs::Bounds::values_bounded, crate::proofs::Bounds::constants_bounded))]
fn item_of(alloc: Global, reply: &GemReply) -> Result<Item, NoMemory>
    ensures exact { IfOk result (λ item. view item ≡ reply_body reply.now) }
    ensures bounded { HasSendableParts reply.now → IfOk result (λ item. IsBounded 5 (2 ^ 31) (view item)) }
{
    match reply {
        GemReply::S1F2(mdln, softrev) | GemReply::S1F13(mdln, softrev) => {
            identity(alloc, mdln.clone()?, softrev.clone()?)
        }
        GemReply::S1F4(values) | GemReply::S2F14(values) | GemReply::S6F20(values) => elements(
            values,
        ),
        GemReply::S1F12(names) => list_of(alloc, names.as_slice()),
        GemReply::S1F14(tool) => established(alloc, tool.mdln.clone()?, tool.softrev.clone()?),
        GemReply::S1F16 => code(alloc, 0),
        GemReply::S1F18(ack)
        | GemReply::S2F16(ack)
        | GemReply::S2F32(ack)
        | GemReply::S2F34(ack)
        | GemReply::S2F36(ack)
        | GemReply::S2F38(ack)
        | GemReply::S5F4(ack)
        | GemReply::S6F24(ack) => code(alloc, *ack),
        GemReply::S2F18(time) => ascii(time),
        GemReply::S2F30(constants) => elements(constants),
        GemReply::S2F42(hcack, parameters) => commanded(alloc, *hcack, parameters.as_slice()),
        GemReply::S2F44(rspack, refusals) => spooled(alloc, *rspack, refusals.as_slice()),
        GemReply::S5F1(alcd, alid, text) => alarm(alloc, Some(*alcd), *alid, text),
        GemReply::S5F6(alarms) | GemReply::S5F8(alarms) => list_of(alloc, alarms.as_slice()),
        GemReply::S6F11(note, ceid, reports) => event(alloc, *note, *ceid, reports.clone()?),
        GemReply::S6F16(ceid, reports) => event(alloc, 0, *ceid, reports.clone()?),
        GemReply::S9F1(header)
        | GemReply::S9F3(header)
        | GemReply::S9F5(header)
        | GemReply::S9F7(header)
        | GemReply::S9F9(header)
        | GemReply::S9F11(header) => Ok(Item::Binary(header.clone()?)),
    }
}

// The same, with the reply's items and texts taken out of it.
#[tactic(auto, using(crate::proofs::Bounds::values_bounded, crate::proofs::Bounds::constants_bounded))]
fn item_out(alloc: Global, reply: &mut GemReply) -> Result<Item, NoMemory>
    ensures exact { IfOk result (λ item. view item ≡ reply_body reply.old) }
    ensures bounded { HasSendableParts reply.old → IfOk result (λ item. IsBounded 5 (2 ^ 31) (view item)) }
{
    match reply {
        GemReply::S1F2(mdln, softrev) => identity(
            alloc,
            text_out(alloc, mdln),
            text_out(alloc, softrev),
        ),
        GemReply::S1F4(values) => Ok(Item::List(items_out(alloc, values))),
        GemReply::S1F13(mdln, softrev) => identity(
            alloc,
            text_out(alloc, mdln),
            text_out(alloc, softrev),
        ),
        GemReply::S1F14(tool) => established(
            alloc,
            text_out(alloc, &mut tool.mdln),
            text_out(alloc, &mut tool.softrev),
        ),
        GemReply::S2F14(values) => Ok(Item::List(items_out(alloc, values))),
        GemReply::S2F18(time) => Ok(Item::Ascii(text_out(alloc, time))),
        GemReply::S2F30(constants) => Ok(Item::List(items_out(alloc, constants))),
        GemReply::S6F11(note, ceid, reports) => event(
            alloc,
            *note,
            *ceid,
            items_out(alloc, reports),
        ),
        GemReply::S6F16(ceid, reports) => event(alloc, 0, *ceid, items_out(alloc, reports)),
        GemReply::S6F20(values) => Ok(Item::List(items_out(alloc, values))),
        GemReply::S9F1(header) => Ok(Item::Binary(text_out(alloc, header))),
        GemReply::S9F3(header) => Ok(Item::Binary(text_out(alloc, header))),
        GemReply::S9F5(header) => Ok(Item::Binary(text_out(alloc, header))),
        GemReply::S9F7(header) => Ok(Item::Binary(text_out(alloc, header))),
        GemReply::S9F9(header) => Ok(Item::Binary(text_out(alloc, header))),
        GemReply::S9F11(header) => Ok(Item::Binary(text_out(alloc, header))),
        small => item_of(alloc, small),
    }
}

// The items are taken out of a part of a reply.
fn items_out(alloc: Global, items: &mut Items) -> Items
    ensures { result ≡ items.old }
{
    mem::replace(items, Items::new(alloc))
}

// The bytes are taken out of a part of a reply.
fn text_out(alloc: Global, text: &mut Bytes) -> Bytes
    ensures { result ≡ text.old }
{
    mem::replace(text, Bytes::new(alloc))
}

// A part of a reply that is an element of a list. Its texts are texts by their type, so it is within bounds.
trait Printed {
    // As what it is printed.
    ghost body: { Self → Data };

    fn item(&self, alloc: Global) -> Result<Item, NoMemory>
        ensures exact { IfOk result (λ item. view item ≡ body self.now) }
        ensures bounded { IfOk result (λ item. IsBounded 1 110 (view item)) };
}

impl Printed for VariableName {
    ghost body = { variable_name };

    fn item(&self, alloc: Global) -> Result<Item, NoMemory> {
        let svid = u4(alloc, self.svid)?;
        let name = text(alloc, &self.name)?;
        list(alloc, [svid, name, Item::Ascii(Bytes::new(alloc))])
    }
}

impl Printed for ParameterAcknowledge {
    ghost body = { parameter_acknowledge };

    fn item(&self, alloc: Global) -> Result<Item, NoMemory> {
        list(alloc, [text(alloc, &self.name)?, code(alloc, self.cpack)?])
    }
}

impl Printed for u8 {
    ghost body = { U1 };

    fn item(&self, alloc: Global) -> Result<Item, NoMemory> {
        u1(alloc, *self)
    }
}

impl Printed for AlarmPart {
    ghost body = { alarm_part };

    fn item(&self, alloc: Global) -> Result<Item, NoMemory> {
        alarm(alloc, self.alcd, self.alid, &self.text)
    }
}

// An alarm. An unknown one has no ALCD.
fn alarm(alloc: Global, alcd: Option<u8>, alid: u32, altx: &Text80) -> Result<Item, NoMemory>
    ensures exact { IfOk result (λ item. view item ≡ alarm_data alcd alid altx.now) }
    ensures bounded { IfOk result (λ item. IsBounded 1 110 (view item)) }
{
    let alcd = alarm_code(alloc, alcd)?;
    let alid = u4(alloc, alid)?;
    list(alloc, [alcd, alid, text(alloc, altx)?])
}

fn alarm_code(alloc: Global, alcd: Option<u8>) -> Result<Item, NoMemory>
    ensures exact { IfOk result (λ item. view item ≡ alarm_code_data alcd) }
{
    match alcd {
        Some(alcd) => code(alloc, alcd),
        None => Ok(Item::Binary(Bytes::new(alloc))),
    }
}

// An event and its reports.
fn event(alloc: Global, note: u64, ceid: u32, reports: Items) -> Result<Item, NoMemory>
    ensures exact { IfOk result (λ item. view item ≡ event_data note ceid reports) }
    ensures bounded { AreFew 16 3 5392 reports → IfOk result (λ item. IsBounded 5 (2 ^ 31) (view item)) }
{
    let note = u8(alloc, note)?;
    let ceid = u4(alloc, ceid)?;
    list(alloc, [note, ceid, Item::List(reports)])
}

// What the host's choice of streams is answered.
fn spooled(alloc: Global, rspack: u8, refusals: &[StreamRefusal]) -> Result<Item, NoMemory>
    ensures exact { IfOk result (λ item. view item ≡ spooling rspack refusals.now) }
    ensures bounded { AreFewFunctions (map (λ r. r.functions) refusals.now) → IfOk result (λ item. IsBounded 5 (2 ^ 31) (view item)) }
{
    list(
        alloc,
        [code(alloc, rspack)?, stream_refusals(alloc, refusals)?],
    )
}

// A list of an item for each stream that is refused. How long one is depends on its functions, so it is no `Printed`.
fn stream_refusals(alloc: Global, refusals: &[StreamRefusal]) -> Result<Item, NoMemory>
    ensures { IfOk result (λ item. view item ≡ each stream_refusal_data refusals.now) }
{
    let mut items = Items::from_vec(Vec::with_capacity(alloc, refusals.len())?);
    for refusal in refusals {
        items.push(stream_refusal(alloc, refusal)?)?;
    }
    Ok(Item::List(items))
}

fn stream_refusal(alloc: Global, refusal: &StreamRefusal) -> Result<Item, NoMemory>
    ensures { IfOk result (λ item. view item ≡ stream_refusal_data refusal.now) }
{
    let stream = u1(alloc, refusal.stream)?;
    let strack = code(alloc, refusal.strack)?;
    let functions = list_of(alloc, refusal.functions.as_slice())?;
    list(alloc, [stream, strack, functions])
}

// A list of an item for each part.
fn list_of<T: Printed>(alloc: Global, parts: &[T]) -> Result<Item, NoMemory>
    ensures exact { IfOk result (λ item. view item ≡ each T.body parts.now) }
    ensures bounded { length parts.now < 2 ^ 24 → IfOk result (λ item. IsBounded 2 1845493654 (view item)) }
{
    let mut items = Items::from_vec(Vec::with_capacity(alloc, parts.len())?);
    for part in parts {
        items.push(part.item(alloc)?)?;
    }
    Ok(Item::List(items))
}

// The model and the revision.
fn identity(alloc: Global, mdln: Bytes, softrev: Bytes) -> Result<Item, NoMemory>
    ensures { IfOk result (λ item. view item ≡ identity mdln softrev) }
{
    list(alloc, [Item::Ascii(mdln), Item::Ascii(softrev)])
}

// That communication is established, and what the tool tells of itself.
fn established(alloc: Global, mdln: Bytes, softrev: Bytes) -> Result<Item, NoMemory>
    ensures { IfOk result (λ item. view item ≡ L (code_data 0 ∷ (identity mdln softrev ∷ []))) }
{
    let commack = code(alloc, 0)?;
    list(alloc, [commack, identity(alloc, mdln, softrev)?])
}

// What a remote command is answered.
fn commanded(
    alloc: Global,
    hcack: u8,
    parameters: &[ParameterAcknowledge],
) -> Result<Item, NoMemory>
    ensures exact { IfOk result (λ item. view item ≡ L (code_data hcack ∷ (each parameter_acknowledge parameters.now ∷ []))) }
    ensures bounded { length parameters.now < 2 ^ 24 → IfOk result (λ item. IsBounded 5 (2 ^ 31) (view item)) }
{
    list(alloc, [code(alloc, hcack)?, list_of(alloc, parameters)?])
}
