//! What variables show (SEMI E5, S1F3 and S2F13).

ghost use Rattle.std.specs.Prelude.{◌≡◌, ◌∷◌, [], IfOk, Some, option_map, unwrap_or};
ghost use Rattle.item_model.specs.Data.{ascii, u1, u2, u4};
ghost use Rattle.item_model.specs.View.{view};
ghost use Rattle.gem_ids.specs.Texts.{IsText};
ghost use Rattle.spool.specs.Spool.{load_number, unload_number};

use gem_ids::Text80;
use item_model::{Bytes, Item, U8s, U16s, U32s};
use load_port::Port;
use spool::{Load, Unload};
use std::alloc::{AllocError, Global};

/// Each text prints: what is known of it, for proofs.
pub fn prints(text: &Text80)
    ensures { IsText text.now }
{
    text.as_bytes();
}

/// What a variable shows that is a count.
pub fn count(alloc: Global, number: u32) -> Result<Option<Item>, AllocError>
    ensures { IfOk result (λ value. option_map view value ≡ Some (u4 (number ∷ []))) }
{
    let numbers = vec![in alloc; number]?;
    Ok(Some(Item::U4(U32s::from_vec(numbers))))
}

/// What a variable shows that is a short count.
pub fn short_count(alloc: Global, number: u16) -> Result<Option<Item>, AllocError>
    ensures { IfOk result (λ value. option_map view value ≡ Some (u2 (number ∷ []))) }
{
    let numbers = vec![in alloc; number]?;
    Ok(Some(Item::U2(U16s::from_vec(numbers))))
}

/// The number of a state of the spool's filling.
pub fn load_number(load: Load) -> u8
    ensures { result ≡ load_number load }
{
    match load {
        Load::Inactive => 0,
        Load::NotFull => 1,
        Load::Full => 2,
    }
}

/// The number of a state of the spool's emptying.
pub fn unload_number(unload: Unload) -> u8
    ensures { result ≡ unload_number unload }
{
    match unload {
        Unload::NoOutput => 0,
        Unload::Transmit => 1,
        Unload::Purge => 2,
    }
}

/// The name of the carrier that belongs to a port; empty where none does.
pub fn carrier_text(port: &Port) -> Text80
    ensures { result ≡ unwrap_or port.now.carrier [] }
{
    match port.carrier {
        Some(carrier) => carrier.text(),
        None => Text80::empty(),
    }
}

/// What a variable shows that is the number of a state.
pub fn state_number(alloc: Global, number: u8) -> Result<Option<Item>, AllocError>
    ensures { IfOk result (λ value. option_map view value ≡ Some (u1 (number ∷ []))) }
{
    let numbers = vec![in alloc; number]?;
    Ok(Some(Item::U1(U8s::from_vec(numbers))))
}

/// What a variable shows that is a name.
pub fn name(alloc: Global, text: Text80) -> Result<Option<Item>, AllocError>
    ensures { IfOk result (λ value. option_map view value ≡ Some (ascii text)) }
{
    let bytes = Vec::from_slice(alloc, text.as_bytes())?;
    Ok(Some(Item::Ascii(Bytes::from_vec(bytes))))
}
