//! Records as bytes.

ghost use Rattle.std.specs.Prelude.{◌≡◌, ◌++◌, ◌∷◌, [], ◌<◌, ◌≤◌, ◌^◌, length, IfOk};
ghost use Rattle.spool_format.specs.Format.{note_head, kind_byte, body, flag};
ghost use Rattle.spool_format.specs.declared.change.Change.TheVariants.{Push, PutBack, Take};

use spool::{Kind, Note};
use std::alloc::{AllocError, Global};

fn kind_byte(kind: Kind) -> u8
    ensures { result ≡ kind_byte kind }
{
    match kind {
        Kind::Event => 0,
        Kind::Alarm => 1,
    }
}

fn flag(overwrite: bool) -> u8
    ensures { result ≡ flag overwrite }
{
    if overwrite { 1 } else { 0 }
}

// The number, the kind, the id and the length of a note.
fn note_head(note: &Note) -> [u8; 17]
    requires { length note.now.text ≤ 87000 }
    ensures { result ≡ note_head note.now }
{
    let n = note.number.to_be_bytes();
    let kind = kind_byte(note.kind);
    let i = note.id.to_be_bytes();
    let l = (note.text.as_slice().len() as u32).to_be_bytes();
    [
        n[0], n[1], n[2], n[3], n[4], n[5], n[6], n[7], kind, i[0], i[1], i[2], i[3], l[0], l[1],
        l[2], l[3],
    ]
}

/// A push of a note with an open gate and without overwriting, up to its text.
pub fn push_front(note: &Note) -> [u8; 20]
    requires { length note.now.text ≤ 87000 }
    ensures { result ≡ 1 ∷ 1 ∷ 0 ∷ note_head note.now }
{
    let h = note_head(note);
    [
        1, 1, 0, h[0], h[1], h[2], h[3], h[4], h[5], h[6], h[7], h[8], h[9], h[10], h[11], h[12],
        h[13], h[14], h[15], h[16],
    ]
}

// A record of an operation with a note, behind its gate, and a closed gate.
fn noted_text(
    alloc: Global,
    operation: u8,
    note: &Note,
    overwrite: bool,
) -> Result<Vec<u8>, AllocError>
    requires { length note.now.text ≤ 87000 }
    ensures { IfOk result (λ text. text.items ≡ (operation ∷ flag overwrite ∷ note_head note.now ++ note.now.text) ++ 0 ∷ []) }
{
    let mut text = Vec::new(alloc);
    text.extend_from_slice(&[operation, flag(overwrite)])?;
    text.extend_from_slice(&note_head(note))?;
    text.extend_from_slice(note.text.as_slice())?;
    text.push(0)?;
    Ok(text)
}

/// A push of a note behind its gate, and a closed gate. `AllocError` where there is no memory for it.
#[tactic(auto, unfolding(crate::specs::Format::body))]
pub fn push_text(alloc: Global, note: &Note, overwrite: bool) -> Result<Vec<u8>, AllocError>
    requires { length note.now.text ≤ 87000 }
    ensures { IfOk result (λ text. text.items ≡ body (Push overwrite note.now) ++ 0 ∷ []) }
{
    noted_text(alloc, 1, note, overwrite)
}

/// A put back of a note behind its gate, and a closed gate. `AllocError` where there is no memory for it.
#[tactic(auto, unfolding(crate::specs::Format::body))]
pub fn put_back_text(alloc: Global, note: &Note, overwrite: bool) -> Result<Vec<u8>, AllocError>
    requires { length note.now.text ≤ 87000 }
    ensures { IfOk result (λ text. text.items ≡ body (PutBack overwrite note.now) ++ 0 ∷ []) }
{
    noted_text(alloc, 2, note, overwrite)
}

/// A take behind its gate, and a closed gate.
#[tactic(auto, unfolding(crate::specs::Format::body))]
pub fn take_text() -> [u8; 2]
    ensures { result ≡ body Take ++ 0 ∷ [] }
{
    [3, 0]
}
