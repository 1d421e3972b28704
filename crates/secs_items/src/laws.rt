//! Laws of the grammar of items, for proofs to cite. Each function is empty: what it ensures holds of the definitions.

ghost use Rattle.std.specs.Prelude.{◌≡◌, ◌⊎◌, ◌↔◌, ◌≤◌, ◌<◌, ◌+◌, ◌*◌, ◌^◌, ℕ, suc, List, ◌++◌, length, take, Some};
ghost use Rattle.item_model.specs.Data.{Data, DataList, list};
ghost use Rattle.secs_items.specs.Faults.{Stands, IsFirst, place_of};
ghost use Rattle.item_model.specs.One.{one_item};
ghost use Rattle.item_model.specs.Plain.{plain, count_of};
ghost use Rattle.secs_items.specs.Ranges.{IsInRange};
ghost use Rattle.item_model.specs.Sendable.{IsSendable};
ghost use Rattle.item_model.specs.Spelling.{AreBelow, Spells, Open};
ghost use Rattle.item_model.specs.Weight.{weight, IsBounded, AreBounded};
ghost use Rattle.item_model.specs.declared.fault.ItemFault.{ItemFault};

/// No spelling is a proper front of another, and bytes spell one item at most. So what was written is read again,
/// whatever follows it.
pub fn no_spelling_begins_another()
    ensures { (a b x y : List ℕ) (d e : Data) → Spells d 0 a → Spells e 0 b → a ++ x ≡ b ++ y → (a ≡ b) × (d ≡ e) }
{}

/// What the tool sends spells the item.
pub fn what_is_sent_spells_the_item()
    ensures { (d : Data) → IsInRange d → IsSendable d → Spells d 0 (plain d) }
{}

/// What is spelled can be sent: it is sent in its one plain spelling.
pub fn what_is_spelled_can_be_sent()
    ensures { (d : Data) (bytes : List ℕ) → Spells d 0 bytes → IsSendable d × IsInRange d }
{}

/// The bytes before the place of a fault are a proper front of a spelling.
pub fn a_fault_stands_behind_open_bytes()
    ensures { (input : List ℕ) (e : ItemFault) → AreBelow 256 input → Stands input e → Open (take (place_of e) input) }
{}

/// Bytes begin with the spelling of an item, or a first fault stands in them.
pub fn bytes_spell_or_have_a_fault()
    ensures { (input : List ℕ) → AreBelow 256 input →
        ((d : Data) × (n : ℕ) × (n ≤ length input) × Spells d 0 (take n input)) ⊎ ((e : ItemFault) × IsFirst input e) }
{}

/// A text is one item exactly where it is a spelling of it from its first byte to its last.
pub fn one_item_is_the_item_that_is_spelled()
    ensures { (text : List ℕ) (d : Data) → AreBelow 256 text → (one_item text ≡ Some d ↔ Spells d 0 text) }
{}

/// What an item is sent as takes at most as many bytes as the item weighs.
pub fn an_item_takes_at_most_what_it_weighs()
    ensures { (d : Data) → length (plain d) ≤ weight d }
{}

/// A list of at most so many items within bounds is within bounds, one list deeper.
pub fn a_list_of_bounded_items_is_bounded()
    ensures { (deep most count : ℕ) (ds : DataList) → count < 2 ^ 24 → count_of ds ≤ count → AreBounded deep most ds → IsBounded (suc deep) (4 + count * most) (list ds) }
{}
