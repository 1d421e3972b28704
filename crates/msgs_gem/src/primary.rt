//! The host's primaries.
//!
//! A function clears its locals at entry, with those of each call that is written out in its place. So a large one that few messages
//! need stands apart (`inline(never)`), and the others do not pay for it.

ghost use Rattle.std.specs.Prelude.{◌≡◌, ◌≤◌, length, IfOk, IfSome, option_and_then, option_map};
ghost use Rattle.message_model.specs.Bodies.{byte as byte_form, characters as characters_form, each, flag as flag_form, group, id as id_form, id_or_empty as id_or_empty_form, ids as ids_form, l2, named_value, numbers_or_ids as numbers_or_ids_form, of, text as text_form, zero_or_one as zero_or_one_form};
ghost use Rattle.message_model.specs.Few.{HasFewParts, HasShortText};
ghost use Rattle.body_parts.specs.Given.{Gives};
ghost use Rattle.message_model.specs.declared.gem_primary.GemMsg.TheVariants.{S2F13, S2F15, S2F29, S2F31, S2F33, S2F35, S2F37, S2F41, S2F43, S5F3, S5F5};
ghost use Rattle.item_model.specs.View.{view};
ghost use Rattle.body_parts.specs.Given.{Answers};
ghost use Rattle.message_model.specs.GemPrimaries.{ignores, reading, setting, spooled_stream};

use body_parts::numbers_or_ids;
use body_parts::reading::{
    byte, characters, flag, id, id_or_empty, ids, list_of, one, parts, text, zero_or_one,
};
use gem_ids::{Ids, Listed};
use item_model::Item;
use message_model::{BodyFault, GemMsg};
use std::alloc::Global;

/// Reads a primary of the host by its stream and function. `item` is its text, and None where the text is not one item;
/// where the text is ignored it is not looked at.
///
/// `UnknownStream` comes where no message has the stream, else `UnknownFunction` where none of the stream has the
/// function, else `IllegalData` where the item has not the printed body (this tool's profile, messages). Besides,
/// `NoMemory` may come, for a message whose body has parts to be copied. A list of ids that was read has at most 1,024;
/// parameters and functions are as few as a text of 536,870,912 bytes can list, where the text is no longer.
#[inline(never)]
pub fn read_gem(
    alloc: Global,
    stream: u8,
    function: u8,
    item: Option<&Item>,
) -> Result<GemMsg, BodyFault>
    ensures answer { Answers result (reading stream function (option_map (λ i. view i.now) item.entry)) }
    ensures few { IfSome item.entry (λ i. HasShortText (view i.now)) → IfOk result HasFewParts }
{
    match stream {
        1 => read_stream_1(alloc, function, item),
        2 => read_stream_2(alloc, function, item),
        5 => read_stream_5(alloc, function, item),
        6 => read_stream_6(function, item),
        _ => Err(BodyFault::UnknownStream),
    }
}

// Equipment status.
fn read_stream_1(alloc: Global, function: u8, item: Option<&Item>) -> Result<GemMsg, BodyFault>
    ensures answer { Answers result (reading 1 function (option_map (λ i. view i.now) item.entry)) }
    ensures few { IfSome item.entry (λ i. HasShortText (view i.now)) → IfOk result HasFewParts }
{
    match function {
        1 => Ok(GemMsg::S1F1),
        3 => Ok(GemMsg::S1F3(ids_of(alloc, item)?)),
        11 => Ok(GemMsg::S1F11(ids_of(alloc, item)?)),
        13 => Ok(GemMsg::S1F13),
        15 => Ok(GemMsg::S1F15),
        17 => Ok(GemMsg::S1F17),
        _ => Err(BodyFault::UnknownFunction),
    }
}

// The ids that are the text of a message.
fn ids_of(alloc: Global, item: Option<&Item>) -> Result<Ids, BodyFault>
    ensures form { Gives (λ ids. ids) result (option_and_then ids_form (option_map (λ i. view i.now) item.entry)) }
    ensures few { IfOk result (λ ids. length ids ≤ 1024) }
{
    ids(alloc, one(item)?)
}

// Equipment control and diagnostics.
#[inline(never)]
fn read_stream_2(alloc: Global, function: u8, item: Option<&Item>) -> Result<GemMsg, BodyFault>
    ensures answer { Answers result (reading 2 function (option_map (λ i. view i.now) item.entry)) }
    ensures few { IfSome item.entry (λ i. HasShortText (view i.now)) → IfOk result HasFewParts }
{
    match function {
        13 => constants_asked(alloc, item),
        15 => constants_set(alloc, item),
        17 => Ok(GemMsg::S2F17),
        29 => constant_names_asked(alloc, item),
        31 => clock_set(alloc, item),
        33 => reports_defined(alloc, item),
        35 => events_linked(alloc, item),
        37 => events_enabled(alloc, item),
        41 => remote_command(alloc, one(item)?),
        43 => spooled_streams(alloc, one(item)?),
        _ => Err(BodyFault::UnknownFunction),
    }
}

// The constants whose values are asked.
fn constants_asked(alloc: Global, item: Option<&Item>) -> Result<GemMsg, BodyFault>
    ensures form { Gives (λ m. m) result (option_and_then (of S2F13 ids_form) (option_map (λ i. view i.now) item.entry)) }
    ensures few { IfOk result HasFewParts }
{
    Ok(GemMsg::S2F13(ids_of(alloc, item)?))
}

// The constants that are set, with their values.
fn constants_set(alloc: Global, item: Option<&Item>) -> Result<GemMsg, BodyFault>
    ensures form { Gives (λ m. m) result (option_and_then (of S2F15 (each setting)) (option_map (λ i. view i.now) item.entry)) }
    ensures few { IfOk result HasFewParts }
{
    Ok(GemMsg::S2F15(list_of(alloc, one(item)?)?))
}

// The constants whose names are asked.
fn constant_names_asked(alloc: Global, item: Option<&Item>) -> Result<GemMsg, BodyFault>
    ensures form { Gives (λ m. m) result (option_and_then (of S2F29 ids_form) (option_map (λ i. view i.now) item.entry)) }
    ensures few { IfOk result HasFewParts }
{
    Ok(GemMsg::S2F29(ids_of(alloc, item)?))
}

// The moment that the clock is set to.
fn clock_set(alloc: Global, item: Option<&Item>) -> Result<GemMsg, BodyFault>
    ensures form { Gives (λ m. m) result (option_and_then (of S2F31 characters_form) (option_map (λ i. view i.now) item.entry)) }
    ensures few { IfOk result HasFewParts }
{
    Ok(GemMsg::S2F31(characters(alloc, one(item)?)?))
}

// A DATAID and a list of groups.
fn numbered_groups(alloc: Global, item: &Item) -> Result<(u32, Listed<(u32, Ids)>), BodyFault>
    ensures { Gives (λ parts. parts) result (l2 (λ dataid groups. (dataid, groups)) id_form (each group) (view item.now)) }
{
    let [dataid, groups] = parts::<2>(item)?;
    Ok((id(dataid)?, list_of(alloc, groups)?))
}

// The reports that are defined, with their variables.
fn reports_defined(alloc: Global, item: Option<&Item>) -> Result<GemMsg, BodyFault>
    ensures form { Gives (λ m. m) result (option_and_then (l2 S2F33 id_form (each group)) (option_map (λ i. view i.now) item.entry)) }
    ensures few { IfOk result HasFewParts }
{
    let (dataid, reports) = numbered_groups(alloc, one(item)?)?;
    Ok(GemMsg::S2F33(dataid, reports))
}

// The events that are linked, with their reports.
fn events_linked(alloc: Global, item: Option<&Item>) -> Result<GemMsg, BodyFault>
    ensures form { Gives (λ m. m) result (option_and_then (l2 S2F35 id_form (each group)) (option_map (λ i. view i.now) item.entry)) }
    ensures few { IfOk result HasFewParts }
{
    let (dataid, events) = numbered_groups(alloc, one(item)?)?;
    Ok(GemMsg::S2F35(dataid, events))
}

// A CEED and a list of ids.
fn flagged_ids(alloc: Global, item: &Item) -> Result<(bool, Ids), BodyFault>
    ensures { Gives (λ parts. parts) result (l2 (λ ceed events. (ceed, events)) flag_form ids_form (view item.now)) }
{
    let [ceed, events] = parts::<2>(item)?;
    Ok((flag(ceed)?, ids(alloc, events)?))
}

// The events that are enabled or disabled.
fn events_enabled(alloc: Global, item: Option<&Item>) -> Result<GemMsg, BodyFault>
    ensures form { Gives (λ m. m) result (option_and_then (l2 S2F37 flag_form ids_form) (option_map (λ i. view i.now) item.entry)) }
    ensures few { IfOk result HasFewParts }
{
    let (ceed, events) = flagged_ids(alloc, one(item)?)?;
    Ok(GemMsg::S2F37(ceed, events))
}

// A remote command and its parameters.
fn remote_command(alloc: Global, item: &Item) -> Result<GemMsg, BodyFault>
    ensures form { Gives (λ m. m) result (l2 S2F41 text_form (each named_value) (view item.now)) }
    ensures few { HasShortText (view item.now) → IfOk result HasFewParts }
{
    let [command, parameters] = parts::<2>(item)?;
    Ok(GemMsg::S2F41(text(command)?, list_of(alloc, parameters)?))
}

// The streams that are to be spooled.
fn spooled_streams(alloc: Global, item: &Item) -> Result<GemMsg, BodyFault>
    ensures form { Gives (λ m. m) result (of S2F43 (each spooled_stream) (view item.now)) }
    ensures few { HasShortText (view item.now) → IfOk result HasFewParts }
{
    Ok(GemMsg::S2F43(list_of(alloc, item)?))
}

// Exception handling.
#[inline(never)]
fn read_stream_5(alloc: Global, function: u8, item: Option<&Item>) -> Result<GemMsg, BodyFault>
    ensures answer { Answers result (reading 5 function (option_map (λ i. view i.now) item.entry)) }
    ensures few { IfSome item.entry (λ i. HasShortText (view i.now)) → IfOk result HasFewParts }
{
    match function {
        3 => alarms_enabled(item),
        5 => alarms_asked(alloc, item),
        7 => Ok(GemMsg::S5F7),
        _ => Err(BodyFault::UnknownFunction),
    }
}

// The alarm that is enabled or disabled, or all.
fn alarms_enabled(item: Option<&Item>) -> Result<GemMsg, BodyFault>
    ensures form { Gives (λ m. m) result (option_and_then (l2 S5F3 byte_form id_or_empty_form) (option_map (λ i. view i.now) item.entry)) }
    ensures few { IfOk result HasFewParts }
{
    let [aled, alid] = parts::<2>(one(item)?)?;
    Ok(GemMsg::S5F3(byte(aled)?, id_or_empty(alid)?))
}

// The alarms that are asked.
fn alarms_asked(alloc: Global, item: Option<&Item>) -> Result<GemMsg, BodyFault>
    ensures form { Gives (λ m. m) result (option_and_then (of S5F5 numbers_or_ids_form) (option_map (λ i. view i.now) item.entry)) }
    ensures few { IfOk result HasFewParts }
{
    Ok(GemMsg::S5F5(numbers_or_ids(alloc, one(item)?)?))
}

// Data collection.
#[inline(never)]
fn read_stream_6(function: u8, item: Option<&Item>) -> Result<GemMsg, BodyFault>
    ensures answer { Answers result (reading 6 function (option_map (λ i. view i.now) item.entry)) }
    ensures few { IfSome item.entry (λ i. HasShortText (view i.now)) → IfOk result HasFewParts }
{
    match function {
        15 => Ok(GemMsg::S6F15(id_of(item)?)),
        19 => Ok(GemMsg::S6F19(id_of(item)?)),
        23 => Ok(GemMsg::S6F23(zero_or_one_of(item)?)),
        _ => Err(BodyFault::UnknownFunction),
    }
}

// The id that is the text of a message.
fn id_of(item: Option<&Item>) -> Result<u32, BodyFault>
    ensures { Gives (λ id. id) result (option_and_then id_form (option_map (λ i. view i.now) item.entry)) }
{
    id(one(item)?)
}

// The 0 or 1 that is the text of a message.
fn zero_or_one_of(item: Option<&Item>) -> Result<u8, BodyFault>
    ensures { Gives (λ id. id) result (option_and_then zero_or_one_form (option_map (λ i. view i.now) item.entry)) }
{
    zero_or_one(one(item)?)
}

/// Whether the text of a host's primary is ignored: any text, or none, is taken, and it need not be decoded (this tool's
/// profile, messages). False for a message that is not known.
pub fn is_ignored(stream: u8, function: u8) -> bool
    ensures { result ≡ ignores stream function }
{
    matches!((stream, function), (1, 1 | 13 | 15 | 17) | (2, 17) | (5, 7))
}
