//! Which substrates a process job names, and its carriers (this tool's profile, tables 10 and 14).

ghost use Rattle.std.specs.Prelude.{◌≡◌, ◌&&◌, [], [], is_some};
ghost use Rattle.std.specs.List.{list_any, list_all};
ghost use Rattle.gem_tables.specs.Table.{is_one_of};
ghost use Rattle.floor_model.specs.Jobs.{is_carrier_of, is_slot_named, names_slot_of, can_join, all_marked, is_in_use, is_carrier_here, is_material_here, is_here, is_of_carrier, names_carrier};

use carrier::{Accessing, Carrier};
use floor_model::Substrate;
use gem_ids::{LocId, Text80};
use process_job::{Material, ProcessJob};
use shop_floor::ShopFloor;

// ---- the members that it gets

// Whether the carrier of this number has this name.
fn is_carrier_of(name: Text80, number: u64, carrier: &Carrier) -> bool
    ensures { result ≡ is_carrier_of name number carrier.now }
{
    carrier.number == number && carrier.name.as_bytes() == name.as_bytes()
}

// Whether a carrier of this name and number is known.
fn is_any_carrier_of(name: Text80, number: u64, shop: &ShopFloor) -> bool
    ensures { result ≡ list_any (is_carrier_of name number) shop.now.carriers }
{
    for place in 0..shop.carrier_count() {
        if let Some(carrier) = shop.carrier(place) {
            if is_carrier_of(name, number, carrier) {
                return true;
            }
        }
    }
    false
}

// Whether a number is one of these.
fn is_one_of(numbers: &[u8], number: u8) -> bool
    ensures { result ≡ is_one_of numbers.now number }
{
    for one in numbers {
        if *one == number {
            return true;
        }
    }
    false
}

// Whether a slot is among those that are named; where none is named, each is.
fn is_slot_named(slots: &[u8], loc: LocId) -> bool
    ensures { result ≡ is_slot_named slots.now loc }
{
    if slots.is_empty() {
        return true;
    }
    match loc {
        LocId::Slot(_, slot) => is_one_of(slots, slot.0),
        _ => false,
    }
}

// Whether a job's material names the slot of a substrate.
fn names_slot_of(shop: &ShopFloor, s: &Substrate, material: &Material) -> bool
    ensures { result ≡ names_slot_of shop.now s.now material.now }
{
    is_any_carrier_of(material.carrier, s.carrier, shop)
        && is_slot_named(material.slots.as_slice(), s.slot)
}

// Whether one of these materials does.
fn is_slot_of_any(shop: &ShopFloor, s: &Substrate, materials: &[Material]) -> bool
    ensures { result ≡ list_any (names_slot_of shop.now s.now) materials.now }
{
    for material in materials {
        if names_slot_of(shop, s, material) {
            return true;
        }
    }
    false
}

// Whether a substrate becomes a member of a process job that is set up.
pub(crate) fn can_join(job: &ProcessJob, shop: &ShopFloor, s: &Substrate) -> bool
    ensures { result ≡ can_join job.now shop.now s.now }
{
    s.states.transport.is_at_source()
        && s.states.processing.is_needing()
        && s.job == 0
        && is_slot_of_any(shop, s, job.material.as_slice())
}

// ---- its carriers

// The carriers that are named are marked stopped.
pub(crate) fn mark(materials: &[Material], shop: &mut ShopFloor)
    ensures { shop.new ≡ all_marked materials.now shop.old }
{
    for material in materials {
        shop.mark_stopped(material.carrier);
    }
}

// Whether a carrier is present with its map VERIFIED, and NOT ACCESSED or IN ACCESS.
fn is_carrier_here(carrier: &Carrier) -> bool
    ensures { result ≡ is_carrier_here (Some carrier.now) }
{
    carrier.present
        && carrier.states.map.is_verified()
        && matches!(
            carrier.states.access,
            Accessing::NotAccessed | Accessing::InAccess
        )
}

// Whether the carrier that a material names is here.
fn is_material_here(shop: &ShopFloor, material: &Material) -> bool
    ensures { result ≡ is_material_here shop.now material.now }
{
    match shop.carrier_named(material.carrier) {
        Some(carrier) => is_carrier_here(carrier),
        None => false,
    }
}

// Whether the material of a process job is here.
pub(crate) fn is_here(job: &ProcessJob, shop: &ShopFloor) -> bool
    ensures { result ≡ is_here job.now shop.now }
{
    are_here(shop, job.material.as_slice())
}

// Whether each of these is.
fn are_here(shop: &ShopFloor, materials: &[Material]) -> bool
    ensures { result ≡ list_all (is_material_here shop.now) materials.now }
{
    for material in materials {
        if !is_material_here(shop, material) {
            return false;
        }
    }
    true
}

// Whether a process job names a carrier.
pub(crate) fn names_carrier(name: Text80, job: &ProcessJob) -> bool
    ensures { result ≡ names_carrier name job.now }
{
    is_carrier_of_any(name, job.material.as_slice())
}

// Whether one of these materials does.
fn is_carrier_of_any(name: Text80, materials: &[Material]) -> bool
    ensures { result ≡ list_any (is_of_carrier name) materials.now }
{
    for material in materials {
        if material.carrier.as_bytes() == name.as_bytes() {
            return true;
        }
    }
    false
}
