//! A process job.

ghost use Rattle.std.specs.Prelude.{◌≡◌};
ghost use Rattle.process_job.specs.Jobs.{created, name_of, number_of, fires_row};
ghost use Rattle.process_job.specs.Creating.{is_slot, are_slots, is_carrier_name, is_material, are_materials, is_some_material};

use crate::record::ProcessJobRecord;
use gem_ids::{JobId, Listed, Text80};
use records::{Change, Named, Numbered};

/// Slots by their numbers; none stands for all of the carrier (SEMI E40, material).
pub type Slots = Listed<u8>;

/// A carrier by its name as it stands in the message, and the slots of it that a job names.
#[derive(Drop)]
pub struct Material {
    pub carrier: Text80,
    pub slots: Slots,
}

/// The material of a job: carriers with their slots, in the order of the message.
pub type Materials = Listed<Material>;

/// A process job as the host asks for it (SEMI E40, S16F11): its name, its material, its recipe by name, and whether it starts
/// by itself.
#[derive(Drop)]
pub struct JobSpec {
    pub id: JobId,
    pub material: Materials,
    pub recipe: Text80,
    pub auto: bool,
}

/// A process job that is kept: its number of creation, which is its own for good; its name and state; whether it starts by
/// itself; its recipe by name, and its material.
#[derive(Drop)]
pub struct ProcessJob {
    pub number: u64,
    pub id: JobId,
    pub states: ProcessJobRecord,
    pub auto: bool,
    pub recipe: Text80,
    pub material: Materials,
}

impl ProcessJob {
    // A job as it is created, with its number: QUEUED.
    pub(crate) fn new(number: u64, j: JobSpec) -> ProcessJob
        ensures { result ≡ created number j }
    {
        let JobSpec {
            id,
            material,
            recipe,
            auto,
        } = j;
        ProcessJob {
            number,
            id,
            states: ProcessJobRecord::new(),
            auto,
            recipe,
            material,
        }
    }
}

impl Named for ProcessJob {
    ghost name = { name_of };

    fn text(&self) -> Text80 {
        self.id.text()
    }

    fn name_bytes(&self) -> &[u8] {
        self.id.as_bytes()
    }
}

impl Numbered for ProcessJob {
    ghost number = { number_of };

    fn number(&self) -> u64 {
        self.number
    }
}

// A row of table 14 that fires at a job.
#[derive(Drop)]
pub(crate) struct Fires {
    pub(crate) row: u8,
}

impl Change<ProcessJob> for Fires {
    ghost does = { λ f j. fires_row f.row j };

    fn apply(&self, job: &mut ProcessJob) {
        job.states.fire(self.row);
    }
}

// Whether a job can have this material: a carrier is named, and all that is named can be.
pub(crate) fn is_some_material(materials: &[Material]) -> bool
    ensures { result ≡ is_some_material materials.now }
{
    !materials.is_empty() && are_materials(materials)
}

// Whether the names of carriers and the slots are such.
fn are_materials(materials: &[Material]) -> bool
    ensures { result ≡ are_materials materials.now }
{
    for material in materials {
        if !is_material(material) {
            return false;
        }
    }
    true
}

// Whether the name of the carrier and the slots are such.
fn is_material(material: &Material) -> bool
    ensures { result ≡ is_material material.now }
{
    is_carrier_name(material.carrier) && are_slots(material.slots.as_slice())
}

// Whether a text is the name of a carrier.
fn is_carrier_name(name: Text80) -> bool
    ensures { result ≡ is_carrier_name name }
{
    1 <= name.len() && name.len() <= 64
}

// Whether each of these is the number of a slot.
fn are_slots(slots: &[u8]) -> bool
    ensures { result ≡ are_slots slots.now }
{
    for slot in slots {
        if !is_slot(*slot) {
            return false;
        }
    }
    true
}

// Whether a number is that of a slot.
fn is_slot(slot: u8) -> bool
    ensures { result ≡ is_slot slot }
{
    1 <= slot && slot <= 25
}
