ghost use Rattle.std.specs.Prelude.{◌≡◌};
ghost use Rattle.item_model.specs.View.{view};

use gem_ids::Text80;
use item_model::Item;
use std::marker::Model;

/// A name and its value, as a host gives a parameter or an attribute. Contracts see the text and what the item says.
#[derive(Drop)]
pub struct NamedValue {
    /// The name.
    pub name: Text80,
    /// Its value, which may be an item of any kind.
    pub value: Item,
}

impl Model for NamedValue {
    ghost use Rattle.std.specs.Prelude.{ℕ, List};
    ghost use Rattle.item_model.specs.Data.{Data};
    ghost use Rattle.item_model.specs.View.{view as said};
    ghost use Rattle.message_model.specs.Codes.{text_code};

    ghost Value = { List ℕ × Data };

    ghost coded = { text_code };

    ghost view = { λ p. (p.name, said p.value) };
}

impl NamedValue {
    /// The name.
    pub fn name(&self) -> Text80
        ensures { result ≡ self.now.0 }
    {
        self.name
    }

    /// The item of its value.
    pub fn item(&self) -> &Item
        ensures { view result.now ≡ self.now.1 }
    {
        &self.value
    }
}
