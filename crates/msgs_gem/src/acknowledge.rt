//! What the host answers to the tool's own primaries.

ghost use Rattle.std.specs.Prelude.{◌≡◌, is_some, option_map};
ghost use Rattle.item_model.specs.Data.{list};
ghost use Rattle.item_model.specs.View.{view, items_of};
ghost use Rattle.message_model.specs.Acknowledge.{accepting, accepts};
ghost use Rattle.message_model.specs.Bodies.{byte, fixed};

use item_model::Item;

/// Whether an S1F14 has COMMACK 0 (SEMI E5, S1F14; this tool's profile, messages): exactly where its text is
/// one item, a list of two elements of which the first is `B 0`. `item` is its text, and None where the text is not one
/// item. Takes no memory.
pub fn accepts_communication(item: Option<&Item>) -> bool
    ensures { result ≡ accepts (option_map (λ i. view i.now) item.entry) }
{
    match item {
        Some(Item::List(items)) => are_accepting(items.as_slice()),
        _ => false,
    }
}

// Whether these are the elements of such a list.
#[tactic(auto, using(crate::proofs::Accepting::accepts_two, crate::proofs::Accepting::accepts_fewer, crate::proofs::Accepting::accepts_more))]
fn are_accepting(items: &[Item]) -> bool
    ensures { result ≡ is_some (accepting (list (items_of items.now))) }
{
    match items {
        [commack, _] => is_zero(commack),
        _ => false,
    }
}

// Whether an item is `B 0`.
fn is_zero(item: &Item) -> bool
    ensures { result ≡ is_some (fixed 0 byte (view item.now)) }
{
    match item {
        Item::Binary(bytes) => matches!(bytes.as_slice(), [0]),
        _ => false,
    }
}
