//! Which actions on carriers and load ports the host asks for (SEMI E87, S3F17 and S3F25).
ghost use Rattle.std.specs.Prelude.{◌≡◌, ◌==◌, length, option_and_then};
ghost use Rattle.item_model.specs.View.{view, items_of};
ghost use Rattle.message_model.specs.Bodies.{all_of, meeting};
ghost use Rattle.item_model.specs.Plain.{count_of};
ghost use Rattle.gem_model.specs.Shop.{carrier_word, port_word, slot_code, slot_map, map_given, carrier_action};

use arrayvec::ArrayVec;
use carrier::{CarrierAction, CarrierWord};
use gem_ids::Text80;
use item_model::Item;
use load_port::PortAction;
use message_model::NamedValue;

/// The action on a carrier of a name.
fn carrier_word(name: &Text80) -> CarrierWord
    ensures { result ≡ carrier_word name.now }
{
    let name = name.as_bytes();
    if name == b"Bind".as_slice() {
        CarrierWord::Bind
    } else if name == b"CancelBind".as_slice() {
        CarrierWord::CancelBind
    } else if name == b"ProceedWithCarrier".as_slice() {
        CarrierWord::Proceed
    } else if name == b"CancelCarrier".as_slice() {
        CarrierWord::Cancel
    } else if name == b"CarrierNotification".as_slice() {
        CarrierWord::Notify
    } else if name == b"CancelCarrierNotification".as_slice() {
        CarrierWord::CancelNotify
    } else {
        CarrierWord::Unknown
    }
}

/// The action on a port of a name, at the port of this number.
pub fn port_word(name: &Text80, port: u8) -> PortAction
    ensures { result ≡ port_word name.now port }
{
    let name = name.as_bytes();
    if name == b"ReserveAtPort".as_slice() {
        PortAction::Reserve(port)
    } else if name == b"CancelReservationAtPort".as_slice() {
        PortAction::CancelReserve(port)
    } else {
        PortAction::Unknown
    }
}

/// The code of a slot, 0 to 5.
#[tactic(auto, using(crate::proofs::SlotMaps::is_code, crate::proofs::SlotMaps::no_code))]
fn slot_code(item: &Item) -> Option<u8>
    ensures { result ≡ slot_code (view item.now) }
{
    match item.as_id() {
        Some(code) if code <= 5 => Some(code as u8),
        _ => None,
    }
}

/// The codes of 25 slots. `None`: one has none.
fn slot_codes(slots: &[Item]) -> Option<[u8; 25]>
    requires { length slots.now ≡ 25 }
    ensures { result ≡ all_of slot_code (items_of slots.now) }
{
    let mut codes = ArrayVec::<u8, 25>::new();
    for slot in slots {
        codes.push(slot_code(slot)?);
    }
    codes.into_inner().ok()
}

/// The codes of these slots, where there are 25.
#[tactic(auto, using(crate::proofs::SlotMaps::map_met, crate::proofs::SlotMaps::map_unmet))]
fn codes_of(slots: &[Item]) -> Option<[u8; 25]>
    ensures { result ≡ option_and_then (all_of slot_code) (meeting (λ ds. count_of ds == 25) (items_of slots.now)) }
{
    if slots.len() == 25 {
        slot_codes(slots)
    } else {
        None
    }
}

/// A slot map: the codes of 25 slots. It stands apart (`inline(never)`): few messages have one, and a function clears the places of its
/// locals, with those of each call that is written out in its place.
#[inline(never)]
fn slot_map(item: &Item) -> Option<[u8; 25]>
    ensures { result ≡ slot_map (view item.now) }
{
    match item {
        Item::List(slots) => codes_of(slots.as_slice()),
        _ => None,
    }
}

/// The map of the one attribute that there is, SlotMap. It stands apart, so that its 25 codes are handed on in one place and not one by
/// one.
#[inline(never)]
fn map_given(attributes: &[NamedValue]) -> Option<[u8; 25]>
    ensures { result ≡ map_given attributes.now }
{
    match attributes {
        [one] if one.name().as_bytes() == b"SlotMap".as_slice() => slot_map(one.item()),
        _ => None,
    }
}

/// The action on a carrier that an S3F17 says.
pub fn carrier_action(
    action: &Text80,
    carrier: &Text80,
    port: u8,
    attributes: &[NamedValue],
) -> CarrierAction
    ensures { result ≡ carrier_action action.now carrier.now port attributes.now }
{
    let map = map_given(attributes);
    CarrierAction {
        word: carrier_word(action),
        id: *carrier,
        port,
        map,
        bad_attr: !attributes.is_empty() && map.is_none(),
    }
}
