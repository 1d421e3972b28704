//! States that are asked about rows.

ghost use Rattle.std.specs.Prelude.{◌≡◌, ℕ, Option};
ghost use Rattle.state_arrows.specs.declared.arrow.Arrow.{Arrow};

use crate::arrow::Arrow;

/// A state that can be asked about a row of its table.
pub(crate) trait Asked {
    /// What it answers.
    ghost answer: { ℕ → Self → Option Arrow };

    /// The arrow of the row from this state. `None` exactly where the row doesn't start in it.
    fn ask(&self, row: u8) -> Option<Arrow>
        ensures { result ≡ answer row self.now };
}
