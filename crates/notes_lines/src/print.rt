//! Notes as lines.
ghost use Rattle.std.specs.Prelude.{◌≡◌, IfOk};
ghost use Rattle.hex.specs.Hex.{encode_upper};
ghost use Rattle.std.specs.String.{string_bytes};
ghost use Rattle.notes_lines.specs.Printed.{kind_word, note_line};

use spool::{Kind, Note};
use std::alloc::{AllocError, Global};

// The word of a kind.
fn kind_word(kind: Kind) -> &'static str
    ensures { result.now ≡ kind_word kind }
{
    match kind {
        Kind::Event => "event",
        Kind::Alarm => "alarm",
    }
}

// The digits of a text, in upper case.
fn digits_of(alloc: Global, text: &[u8]) -> Result<String, AllocError>
    ensures { IfOk result (λ digits. string_bytes digits ≡ encode_upper text.now) }
{
    hex::encode_upper(alloc, text)
}

/// The line of a note, with its line feed. `AllocError` where there is no memory for it.
pub fn print_note(alloc: Global, note: &Note) -> Result<String, AllocError>
    ensures { IfOk result (λ line. string_bytes line ≡ note_line note.now) }
{
    let digits = digits_of(alloc, note.text.as_slice())?;
    let kind = kind_word(note.kind);
    let (number, id) = (note.number, note.id);
    format!(in alloc; "{number} {kind} {id} {digits}\n")
}
