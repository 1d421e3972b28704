//! The parts of a process job's creation: the carriers that it names, and its recipe.

use gem_ids::{Listed, Text80};
use item_model::Item;

/// A carrier whose substrates a process job is to process, as S16F11 names it (after SEMI E40; this tool's profile,
/// messages).
#[derive(Drop)]
pub struct CarrierSlots {
    /// CARRIERID, the carrier, by any text.
    pub carrier: Text80,
    /// SLOTID, its slots, by any numbers up to 255. None stands for all that are occupied.
    pub slots: Listed<u8>,
}

/// The recipe of a process job, as S16F11 names it (after SEMI E40; this tool's profile, messages). The recipe method
/// before it is fixed, and so no field.
#[derive(Drop)]
pub struct RecipePart {
    /// RCPSPEC, the recipe, by any text.
    pub recipe: Text80,
    /// The list of its variables, which may hold items of any kind.
    pub variables: Item,
}
