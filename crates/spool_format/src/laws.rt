//! Laws of the format. Each function is a statement about the definitions, and has no code.

ghost use Rattle.std.specs.Prelude.{◌≡◌, ℕ, List};
ghost use Rattle.spool.specs.declared.note.Note.{Note};
ghost use Rattle.spool_format.specs.Format.{Sizes, StandsFor};
ghost use Rattle.spool_format.specs.Unread.{IsUnread};

/// Bytes stand for the notes of one spool only.
pub fn bytes_stand_for_one_spool()
    ensures { (bytes : List ℕ) (s other : Sizes) (notes others : List Note) → StandsFor s notes bytes → StandsFor other others bytes → (s ≡ other) × (notes ≡ others) }
{}

/// Bytes that are not in the format from some place on stand for no notes.
pub fn unread_bytes_stand_for_nothing()
    ensures { (bytes : List ℕ) (place : ℕ) (s : Sizes) (notes : List Note) → IsUnread bytes place → StandsFor s notes bytes → ⊥ }
{}

/// Bytes leave the format at one place only.
pub fn bytes_leave_the_format_at_one_place()
    ensures { (bytes : List ℕ) (place other : ℕ) → IsUnread bytes place → IsUnread bytes other → place ≡ other }
{}
