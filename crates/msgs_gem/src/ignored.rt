//! Laws of the table of messages, for proofs to cite. Each function is empty: what it ensures holds of the definitions.

ghost use Rattle.std.specs.Prelude.{◌≡◌, ℕ, Option, true};
ghost use Rattle.item_model.specs.Data.{Data};
ghost use Rattle.message_model.specs.GemPrimaries.{ignores, reading};

/// Where the text of a message is ignored, it is read alike from any text. So the text need not be decoded.
pub fn an_ignored_text_makes_no_difference()
    ensures { (stream function : ℕ) (a b : Option Data) → ignores stream function ≡ true → reading stream function a ≡ reading stream function b }
{}
