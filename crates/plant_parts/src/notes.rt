//! The parts of a message that sends a note (SEMI E5, S5F1 and S6F11).

ghost use Rattle.std.specs.Prelude.{◌≡◌, IfOk};
ghost use Rattle.gem_model.specs.Effects.{stream_of_kind, function_of_kind};
ghost use Rattle.gem_model.specs.Noting.{alcd, text_of_alarm};

use crate::frames::FRONT;
use gem_ids::Text80;
use hsms_frame::Bytes;
use note_line::{Kind, Note};
use std::alloc::{AllocError, Global};

/// The stream and the function by which a note is sent.
pub fn message_of(kind: Kind) -> (u8, u8)
    ensures { result ≡ (stream_of_kind kind, function_of_kind kind) }
{
    match kind {
        Kind::Event => (6, 11),
        Kind::Alarm => (5, 1),
    }
}

/// A copy of the text of a note, with room for what a frame has before its text.
pub fn text_of(alloc: Global, note: &Note) -> Result<Bytes, AllocError>
    ensures { IfOk result (λ text. text ≡ note.now.text) }
{
    let note_text = note.text.as_slice();
    let mut text = Vec::with_capacity(alloc, FRONT + note_text.len())?;
    text.extend_from_slice(note_text)?;
    Ok(Bytes::from_vec(text))
}

/// ALCD of an alarm: its highest bit says that it is set.
pub fn alcd(is_set: bool) -> u8
    ensures { result ≡ alcd is_set }
{
    if is_set { 134 } else { 6 }
}

/// The text of an alarm; empty for a number that is no alarm.
pub fn text_of_alarm(alid: u32) -> Text80
    ensures { result ≡ text_of_alarm alid }
{
    gem_rows::alarm_text(alid).unwrap_or(Text80::empty())
}
