//! Where the values of variables come from.

ghost use Rattle.std.specs.Prelude.{◌≡◌, ℕ, Option, option_map, IfOk};
ghost use Rattle.item_model.specs.Data.{Data};
ghost use Rattle.item_model.specs.View.{view};

use item_model::{Item, NoMemory};
use std::alloc::Global;

/// What gives the values of variables.
pub trait Values {
    ghost value_of: { Self → ℕ → Option Data };

    /// The value of the variable of this VID. `None` exactly where it has none.
    fn value(&self, alloc: Global, vid: u32) -> Result<Option<Item>, NoMemory>
        ensures { IfOk result (λ v. option_map view v ≡ value_of self.now vid) };
}
