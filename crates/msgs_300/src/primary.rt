//! The host's primaries.
//!
//! A function clears its locals at entry, with those of each call that is written out in its place. So a large one that few messages
//! need stands apart (`inline(never)`), and the others do not pay for it.

ghost use Rattle.std.specs.Prelude.{◌≡◌, ◌∷◌, [], option_map};
ghost use Rattle.message_model.specs.Bodies.{any, byte, each, five, fixed, flag as flag_form, id as id_form, l2, l3, l5, named_value, of, small_id as small_id_form, text as text_form, three};
ghost use Rattle.body_parts.specs.Given.{AnswersAs, Gives};
ghost use Rattle.message_model.specs.ShopParts.{any_list as any_list_form, carrier_slots, l4, l7, recipe_part as recipe_part_form};
ghost use Rattle.message_model.specs.Printed.{items};
ghost use Rattle.message_model.specs.ShopPrimaries.{S3F17, S3F25, S3F27, S14F9, S16F5, S16F17, S16F27, is_shop_stream as is_stream_of_table, job_creation as job_creation_said, reading, said};
ghost use Rattle.item_model.specs.View.{view};

use crate::material::{any_list, material_format, recipe_part};
use body_parts::reading::{copied, flag, id, list_of, one, parts, small_id, text};
use gem_ids::Text80;
use item_model::Item;
use message_model::{BodyFault, ShopMsg};
use std::alloc::Global;

/// Reads a primary of the host by its stream and function. `item` is its text, and None where the text is not one item;
/// where the text is ignored it is not looked at.
///
/// `UnknownStream` comes where no message has the stream, else `UnknownFunction` where none of the stream has the
/// function, else `IllegalData` where the item has not the printed body (after SEMI E87, E40 and E94; this tool's profile,
/// messages). Besides, `NoMemory` may come, for a message whose body has parts to be copied.
#[inline(never)]
pub fn read_shop(
    alloc: Global,
    stream: u8,
    function: u8,
    item: Option<&Item>,
) -> Result<ShopMsg, BodyFault>
    ensures answer { AnswersAs said result (reading stream function (option_map (λ i. view i.now) item.entry)) }
{
    match stream {
        3 => read_stream_3(alloc, function, item),
        14 => read_stream_14(alloc, function, item),
        16 => read_stream_16(alloc, function, item),
        _ => Err(BodyFault::UnknownStream),
    }
}

// Carriers and load ports.
fn read_stream_3(alloc: Global, function: u8, item: Option<&Item>) -> Result<ShopMsg, BodyFault>
    ensures answer { AnswersAs said result (reading 3 function (option_map (λ i. view i.now) item.entry)) }
{
    match function {
        17 => carrier_action(alloc, one(item)?),
        25 => port_action(one(item)?),
        27 => access_change(alloc, one(item)?),
        _ => Err(BodyFault::UnknownFunction),
    }
}

// Objects: a control job is one that is created.
#[inline(never)]
fn read_stream_14(alloc: Global, function: u8, item: Option<&Item>) -> Result<ShopMsg, BodyFault>
    ensures answer { AnswersAs said result (reading 14 function (option_map (λ i. view i.now) item.entry)) }
{
    match function {
        9 => object_creation(alloc, one(item)?),
        _ => Err(BodyFault::UnknownFunction),
    }
}

// Process jobs and control jobs.
#[inline(never)]
fn read_stream_16(alloc: Global, function: u8, item: Option<&Item>) -> Result<ShopMsg, BodyFault>
    ensures answer { AnswersAs said result (reading 16 function (option_map (λ i. view i.now) item.entry)) }
{
    match function {
        5 => job_command(one(item)?),
        11 => job_creation(alloc, one(item)?),
        17 => jobs_dequeued(alloc, one(item)?),
        19 => Ok(ShopMsg::S16F19),
        21 => Ok(ShopMsg::S16F21),
        27 => control_job_command(one(item)?),
        _ => Err(BodyFault::UnknownFunction),
    }
}

// What a carrier action request says.
fn carrier_action(alloc: Global, item: &Item) -> Result<ShopMsg, BodyFault>
    ensures { Gives said result (l5 S3F17 id_form text_form text_form small_id_form (each named_value) (view item.now)) }
{
    let [dataid, action, carrier, port, attributes] = parts::<5>(item)?;
    let dataid = id(dataid)?;
    let action = text(action)?;
    carrier_acted(alloc, dataid, action, carrier, port, attributes)
}

// The same, where the action was read.
fn carrier_acted(
    alloc: Global,
    dataid: u32,
    action: Text80,
    carrier: &Item,
    port: &Item,
    attributes: &Item,
) -> Result<ShopMsg, BodyFault>
    ensures { Gives said result (three (S3F17 dataid action) text_form small_id_form (each named_value)
        (items (view carrier.now ∷ (view port.now ∷ (view attributes.now ∷ []))))) }
{
    Ok(ShopMsg::S3F17(
        dataid,
        action,
        text(carrier)?,
        small_id(port)?,
        list_of(alloc, attributes)?,
    ))
}

// What a port action request says.
#[inline(never)]
fn port_action(item: &Item) -> Result<ShopMsg, BodyFault>
    ensures { Gives said result (l3 S3F25 text_form small_id_form any (view item.now)) }
{
    let [action, port, value] = parts::<3>(item)?;
    Ok(ShopMsg::S3F25(text(action)?, small_id(port)?, copied(value)?))
}

// What a change of access says.
#[inline(never)]
fn access_change(alloc: Global, item: &Item) -> Result<ShopMsg, BodyFault>
    ensures { Gives said result (l2 S3F27 small_id_form (each small_id_form) (view item.now)) }
{
    let [mode, ports] = parts::<2>(item)?;
    Ok(ShopMsg::S3F27(small_id(mode)?, list_of(alloc, ports)?))
}

// What the creation of an object says.
fn object_creation(alloc: Global, item: &Item) -> Result<ShopMsg, BodyFault>
    ensures { Gives said result (l3 S14F9 text_form text_form (each named_value) (view item.now)) }
{
    let [object, kind, attributes] = parts::<3>(item)?;
    Ok(ShopMsg::S14F9(text(object)?, text(kind)?, list_of(alloc, attributes)?))
}

// What a command to a process job says.
fn job_command(item: &Item) -> Result<ShopMsg, BodyFault>
    ensures { Gives said result (l4 S16F5 id_form text_form text_form any (view item.now)) }
{
    let [dataid, job, command, value] = parts::<4>(item)?;
    Ok(ShopMsg::S16F5(id(dataid)?, text(job)?, text(command)?, copied(value)?))
}

// What the creation of a process job says.
fn job_creation(alloc: Global, item: &Item) -> Result<ShopMsg, BodyFault>
    ensures { Gives said result (l7 job_creation_said id_form text_form (fixed 13 byte) (each carrier_slots) recipe_part_form flag_form any_list_form (view item.now)) }
{
    let [dataid, job, format, material, recipe, start, events] = parts::<7>(item)?;
    let dataid = id(dataid)?;
    let job = text(job)?;
    job_created(alloc, dataid, job, format, material, recipe, start, events)
}

// The same, where the job's name was read.
fn job_created(
    alloc: Global,
    dataid: u32,
    job: Text80,
    format: &Item,
    material: &Item,
    recipe: &Item,
    start: &Item,
    events: &Item,
) -> Result<ShopMsg, BodyFault>
    ensures { Gives said result (five (job_creation_said dataid job) (fixed 13 byte) (each carrier_slots) recipe_part_form flag_form any_list_form
        (items (view format.now ∷ (view material.now ∷ (view recipe.now ∷ (view start.now ∷ (view events.now ∷ []))))))) }
{
    material_format(format)?;
    Ok(ShopMsg::S16F11(
        dataid,
        job,
        list_of(alloc, material)?,
        recipe_part(recipe)?,
        flag(start)?,
        any_list(events)?,
    ))
}

// Which process jobs are to be taken off the queue.
fn jobs_dequeued(alloc: Global, item: &Item) -> Result<ShopMsg, BodyFault>
    ensures { Gives said result (of S16F17 (each text_form) (view item.now)) }
{
    Ok(ShopMsg::S16F17(list_of(alloc, item)?))
}

// What a command to a control job says.
fn control_job_command(item: &Item) -> Result<ShopMsg, BodyFault>
    ensures { Gives said result (l3 S16F27 text_form small_id_form any (view item.now)) }
{
    let [job, command, value] = parts::<3>(item)?;
    Ok(ShopMsg::S16F27(text(job)?, small_id(command)?, copied(value)?))
}

/// Whether a message here has the stream: of these `read_shop` tells other faults than `UnknownStream` (after SEMI E87,
/// E40 and E94; this tool's profile, messages).
pub fn is_shop_stream(stream: u8) -> bool
    ensures { result ≡ is_stream_of_table stream }
{
    matches!(stream, 3 | 14 | 16)
}
