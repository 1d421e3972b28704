//! What the host of a batch asks, as items.

ghost use Rattle.std.specs.Prelude.{◌≡◌, true, [], ◌∷◌, IfOk, OnOk, codes};
ghost use Rattle.item_model.specs.Data.{added, boolean};
ghost use Rattle.item_model.specs.View.{view};
ghost use Rattle.message_model.specs.Printed.{A, B, L, U1, U4};
ghost use Rattle.sim_modules.specs.Lot.{control_job_asked, process_job_asked, proceed_asked};

use body_parts::writing::{code, u1, u4};
use item_model::{Bools, Bytes, Item, Items, NoMemory};
use std::alloc::Global;

/// That the carrier may be worked on, at its port: the text of S3F17 (SEMI E87, carrier action request).
pub fn proceed(alloc: Global, carrier: &[u8], port: u8) -> Result<Item, NoMemory>
    ensures { IfOk result (λ item. view item ≡ proceed_asked carrier.now port) }
{
    let mut parts = Items::new(alloc);
    push_zero(alloc, &mut parts)?;
    push_text(alloc, &mut parts, b"ProceedWithCarrier")?;
    push_text(alloc, &mut parts, carrier)?;
    push_u1(alloc, &mut parts, port)?;
    push_none(alloc, &mut parts)?;
    Ok(Item::List(parts))
}

/// A process job over all of a carrier, by a recipe: the text of S16F11 (SEMI E40, process job creation).
pub fn process_job(
    alloc: Global,
    job: &[u8],
    carrier: &[u8],
    recipe: &[u8],
) -> Result<Item, NoMemory>
    ensures { IfOk result (λ item. view item ≡ process_job_asked job.now carrier.now recipe.now) }
{
    let mut parts = Items::new(alloc);
    push_zero(alloc, &mut parts)?;
    push_text(alloc, &mut parts, job)?;
    push_material(alloc, &mut parts, carrier)?;
    push_work(alloc, &mut parts, recipe)?;
    Ok(Item::List(parts))
}

/// A control job of one process job: the text of S14F9 (SEMI E94, control job creation).
pub fn control_job(alloc: Global, control: &[u8], job: &[u8]) -> Result<Item, NoMemory>
    ensures { IfOk result (λ item. view item ≡ control_job_asked control.now job.now) }
{
    let mut parts = Items::new(alloc);
    push_text(alloc, &mut parts, b"")?;
    push_text(alloc, &mut parts, b"ControlJob")?;
    parts.push(attributes(alloc, control, job)?)?;
    Ok(Item::List(parts))
}

// ---- parts

// Adds the format of a process job's material, and the material: a carrier of which no slot is named, alone in its list.
fn push_material(alloc: Global, parts: &mut Items, carrier: &[u8]) -> Result<(), NoMemory>
    ensures { OnOk result (parts.new ≡ added (added parts.old (B (13 ∷ []))) (L (L (A carrier.now ∷ (L [] ∷ [])) ∷ []))) }
{
    parts.push(code(alloc, 13)?)?;
    parts.push(material(alloc, carrier)?)
}

// Adds a recipe by its name, that the job starts by itself, and that it pauses at no event.
fn push_work(alloc: Global, parts: &mut Items, recipe: &[u8]) -> Result<(), NoMemory>
    ensures { OnOk result (parts.new ≡ added (added (added parts.old (L (U1 1 ∷ (A recipe.now ∷ (L [] ∷ []))))) (boolean (true ∷ []))) (L [])) }
{
    parts.push(recipe_part(alloc, recipe)?)?;
    parts.push(truth(alloc)?)?;
    push_none(alloc, parts)
}

// The list of a carrier of which no slot is named.
fn material(alloc: Global, carrier: &[u8]) -> Result<Item, NoMemory>
    ensures { IfOk result (λ item. view item ≡ L (L (A carrier.now ∷ (L [] ∷ [])) ∷ [])) }
{
    let mut parts = Items::new(alloc);
    push_text(alloc, &mut parts, carrier)?;
    push_none(alloc, &mut parts)?;
    one(alloc, Item::List(parts))
}

// A recipe by its name, without variables.
fn recipe_part(alloc: Global, recipe: &[u8]) -> Result<Item, NoMemory>
    ensures { IfOk result (λ item. view item ≡ L (U1 1 ∷ (A recipe.now ∷ (L [] ∷ [])))) }
{
    let mut parts = Items::new(alloc);
    push_u1(alloc, &mut parts, 1)?;
    push_text(alloc, &mut parts, recipe)?;
    push_none(alloc, &mut parts)?;
    Ok(Item::List(parts))
}

// The attributes of a control job of one process job, which starts by itself.
fn attributes(alloc: Global, control: &[u8], job: &[u8]) -> Result<Item, NoMemory>
    ensures { IfOk result (λ item. view item ≡ L (L (A (codes "ObjID") ∷ (A control.now ∷ [])) ∷ (L (A (codes "ProcessingCtrlSpec") ∷ (L (A job.now ∷ []) ∷ [])) ∷ (L (A (codes "StartMethod") ∷ (boolean (true ∷ []) ∷ [])) ∷ [])))) }
{
    let mut attributes = Items::new(alloc);
    push_attribute(alloc, &mut attributes, b"ObjID", ascii(alloc, control)?)?;
    push_attribute(
        alloc,
        &mut attributes,
        b"ProcessingCtrlSpec",
        one_text(alloc, job)?,
    )?;
    push_attribute(alloc, &mut attributes, b"StartMethod", truth(alloc)?)?;
    Ok(Item::List(attributes))
}

// Adds an attribute of an object: its name and its value.
fn push_attribute(
    alloc: Global,
    attributes: &mut Items,
    name: &[u8],
    value: Item,
) -> Result<(), NoMemory>
    ensures { OnOk result (attributes.new ≡ added attributes.old (L (A name.now ∷ (view value ∷ [])))) }
{
    attributes.push(attribute(alloc, name, value)?)
}

// An attribute of an object: its name and its value.
fn attribute(alloc: Global, name: &[u8], value: Item) -> Result<Item, NoMemory>
    ensures { IfOk result (λ item. view item ≡ L (A name.now ∷ (view value ∷ []))) }
{
    let mut parts = Items::new(alloc);
    push_text(alloc, &mut parts, name)?;
    parts.push(value)?;
    Ok(Item::List(parts))
}

// A list of one text.
fn one_text(alloc: Global, text: &[u8]) -> Result<Item, NoMemory>
    ensures { IfOk result (λ all. view all ≡ L (A text.now ∷ [])) }
{
    one(alloc, ascii(alloc, text)?)
}

// A list of one item.
fn one(alloc: Global, item: Item) -> Result<Item, NoMemory>
    ensures { IfOk result (λ all. view all ≡ L (view item ∷ [])) }
{
    let mut parts = Items::new(alloc);
    parts.push(item)?;
    Ok(Item::List(parts))
}

// ---- small parts

// Adds a U4 of 0.
fn push_zero(alloc: Global, parts: &mut Items) -> Result<(), NoMemory>
    ensures { OnOk result (parts.new ≡ added parts.old (U4 0)) }
{
    parts.push(u4(alloc, 0)?)
}

// Adds a U1 of this number.
fn push_u1(alloc: Global, parts: &mut Items, number: u8) -> Result<(), NoMemory>
    ensures { OnOk result (parts.new ≡ added parts.old (U1 number)) }
{
    parts.push(u1(alloc, number)?)
}

// Adds an A of these bytes.
fn push_text(alloc: Global, parts: &mut Items, text: &[u8]) -> Result<(), NoMemory>
    ensures { OnOk result (parts.new ≡ added parts.old (A text.now)) }
{
    parts.push(ascii(alloc, text)?)
}

// Adds a list of no items.
fn push_none(alloc: Global, parts: &mut Items) -> Result<(), NoMemory>
    ensures { OnOk result (parts.new ≡ added parts.old (L [])) }
{
    parts.push(Item::List(Items::new(alloc)))
}

// An A of these bytes.
fn ascii(alloc: Global, text: &[u8]) -> Result<Item, NoMemory>
    ensures { IfOk result (λ item. view item ≡ A text.now) }
{
    Ok(Item::Ascii(Bytes::from_vec(Vec::from_slice(alloc, text)?)))
}

// A BOOL of true.
fn truth(alloc: Global) -> Result<Item, NoMemory>
    ensures { IfOk result (λ item. view item ≡ boolean (true ∷ [])) }
{
    Ok(Item::Bool(Bools::from_vec(vec![in alloc; true]?)))
}
