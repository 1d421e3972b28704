//! Process jobs that are created (SEMI E40, S16F11).

ghost use Rattle.std.specs.Prelude.{◌≡◌, ◌+◌, nat_lt, Bool, None, true, IfOk, length, map, option_to_list};
ghost use Rattle.item_model.specs.View.{view};
ghost use Rattle.process_job.specs.Jobs.{most_jobs};
ghost use Rattle.process_job.specs.Creating.{is_recipe, is_slot, are_slots, is_carrier_name, is_material, are_materials, is_some_material, create_fault};
ghost use Rattle.process_job.specs.declared.job.JobSpec.{JobSpec};
ghost use Rattle.tool_jobs.specs.Jobs.{Jobs};
ghost use Rattle.tool_jobs.specs.Creating.{with_process};
ghost use Rattle.request_model.specs.Errors.{of_process_fault};
ghost use Rattle.request_model.specs.Requests.{is_job_name, material_of, asked_process, is_empty_list, process_error, process_rows};

use crate::names::{is_job_name, is_there, job_name};
use gem_ids::{Listed, Text80};
use gem_tables::{Firing, Table};
use item_model::Item;
use message_model::CarrierSlots;
use process_job::{JobSpec, MOST_JOBS, Material, Materials, ProcessJobs};
use request_model::JobError;
use std::alloc::{AllocError, Global};
use tool_jobs::Jobs;

/// Why a process job isn't created of the parts of a message, the first of these that fits: `NotNow` in ON-LINE LOCAL; `NotOffered`
/// where the last list isn't empty; `UnknownObject` where its name hasn't 1 to 64 bytes; `NameTaken` where one of its name is kept;
/// `NoRecipe` where the tool has no recipe of the name; `NoMaterial` where it names no carrier, or a carrier by a name of no or over
/// 64 bytes, or a slot outside 1 to 25; `NoSpace` where 64 are kept (SEMI E40, S16F11; this tool's profile, messages). `None` where
/// it is created. Takes no memory.
pub fn process_error(
    local: bool,
    job: Text80,
    carriers: &[CarrierSlots],
    recipe: Text80,
    events: &Item,
    jobs: &Jobs,
) -> Option<JobError>
    ensures error { (start : Bool) → result ≡ process_error local (asked_process job carriers.now recipe start) (view events.now) jobs.now }
    ensures named { result ≡ None → is_job_name job ≡ true }
{
    if local {
        return Some(JobError::NotNow);
    }
    if !is_empty_list(events) {
        return Some(JobError::NotOffered);
    }
    if !is_job_name(job) {
        return Some(JobError::UnknownObject);
    }
    creation_error(job, carriers, recipe, jobs)
}

// Why one isn't created of a name that is one.
fn creation_error(
    job: Text80,
    carriers: &[CarrierSlots],
    recipe: Text80,
    jobs: &Jobs,
) -> Option<JobError>
    ensures { (start : Bool) → result ≡ of_process_fault (create_fault (asked_process job carriers.now recipe start) jobs.now.process) }
{
    let process = jobs.process();
    if is_there(process, job) {
        Some(JobError::NameTaken)
    } else if !is_recipe(process, recipe) {
        Some(JobError::NoRecipe)
    } else if !is_some_material(carriers) {
        Some(JobError::NoMaterial)
    } else if !has_room(process) {
        Some(JobError::NoSpace)
    } else {
        None
    }
}

// Whether the tool has a recipe of a name.
fn is_recipe(process: &ProcessJobs, name: Text80) -> bool
    ensures { result ≡ is_recipe name process.now.recipes }
{
    process.recipe(name).is_some()
}

// Whether fewer than 64 process jobs are kept.
fn has_room(process: &ProcessJobs) -> bool
    ensures { result ≡ nat_lt (length process.now.kept) most_jobs }
{
    process.len() < MOST_JOBS
}

// Whether an item is a list without items.
fn is_empty_list(item: &Item) -> bool
    ensures { result ≡ is_empty_list (view item.now) }
{
    match item {
        Item::List(items) => items.as_slice().is_empty(),
        _ => false,
    }
}

// Whether a job can have this material.
fn is_some_material(carriers: &[CarrierSlots]) -> bool
    ensures { result ≡ is_some_material (map material_of carriers.now) }
{
    !carriers.is_empty() && are_materials(carriers)
}

// Whether the names of carriers and the slots are such.
fn are_materials(carriers: &[CarrierSlots]) -> bool
    ensures { result ≡ are_materials (map material_of carriers.now) }
{
    for carrier in carriers {
        if !is_material(carrier) {
            return false;
        }
    }
    true
}

// Whether the name of a carrier and its slots are such.
fn is_material(carrier: &CarrierSlots) -> bool
    ensures { result ≡ is_material (material_of carrier.now) }
{
    is_carrier_name(carrier.carrier) && are_slots(carrier.slots.as_slice())
}

// Whether a text is the name of a carrier.
fn is_carrier_name(name: Text80) -> bool
    ensures { result ≡ is_carrier_name name }
{
    1 <= name.len() && name.len() <= 64
}

// Whether each of these is the number of a slot.
fn are_slots(slots: &[u8]) -> bool
    ensures { result ≡ are_slots slots.now }
{
    slots.iter().all(|slot| is_slot(*slot))
}

// Whether a number is that of a slot.
fn is_slot(slot: u8) -> bool
    ensures { result ≡ is_slot slot }
{
    1 <= slot && slot <= 25
}

/// The process job that the parts of a message ask for, to be created where `process_error` has no error. `AllocError` where there is
/// no memory for its material.
pub fn process_spec(
    alloc: Global,
    job: Text80,
    carriers: &[CarrierSlots],
    recipe: Text80,
    start: bool,
) -> Result<JobSpec, AllocError>
    requires { is_job_name job ≡ true }
    ensures { IfOk result (λ spec. spec ≡ asked_process job carriers.now recipe start) }
{
    let material = materials(alloc, carriers)?;
    Ok(JobSpec {
        id: job_name(job),
        material,
        recipe,
        auto: start,
    })
}

// The material of these carriers.
fn materials(alloc: Global, carriers: &[CarrierSlots]) -> Result<Materials, AllocError>
    ensures { IfOk result (λ materials. materials ≡ map material_of carriers.now) }
{
    let mut materials = Listed::new(alloc);
    for carrier in carriers {
        materials.push(material_of(carrier)?)?;
    }
    Ok(materials)
}

// A carrier with its slots, as a job has it.
fn material_of(carrier: &CarrierSlots) -> Result<Material, AllocError>
    ensures { IfOk result (λ material. material ≡ material_of carrier.now) }
{
    let slots = carrier.slots.clone()?;
    Ok(Material {
        carrier: carrier.carrier,
        slots,
    })
}

/// The firing of the process job that was created last: row 1 of table 14. `None` where none is kept, which is never so behind a
/// creation. Takes no memory.
pub fn process_row(jobs: &Jobs) -> Option<Firing>
    ensures { (w : Jobs) (spec : JobSpec) → jobs.now ≡ with_process spec w → option_to_list result ≡ process_rows w }
{
    let process = jobs.process();
    match process.get(process.len().saturating_sub(1)) {
        Some(job) => Some(Firing::of(Table::ProcessJob, job.number, 1)),
        None => None,
    }
}
