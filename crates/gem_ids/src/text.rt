ghost use Rattle.std.specs.Prelude.{◌≡◌, ℕ, ◌+◌, ◌-◌, ◌<◌, ◌≤◌, ◌↔◌, List, [], ◌∷◌, ◌++◌, length, take, drop, replicate, IsTrue, IsOk, IfOk, IfErr, MatchOption};
ghost use Rattle.std.specs.List.{All};
ghost use Rattle.gem_ids.specs.Texts.{IsPrintable, IsText, IsFirstUnprintable, IsFaultOf};

use std::marker::Model;
use thiserror::Error;

/// Why bytes are no text.
#[derive(Clone, Copy, Debug, Error)]
pub enum TextFault {
    /// There are so many bytes, which is over 80.
    #[error("a text of {0} bytes")]
    TooLong(usize),
    /// The first byte outside 32 to 126 stands at this place, counted from 0.
    #[error("a byte that does not print at {0}")]
    NotPrintable(usize),
}

/// A text of 0 to 80 bytes, each 32 to 126 (this tool's profile, texts). Contracts see it as the list of its bytes.
#[derive(Clone, Copy, Debug, PartialEq, Eq)]
pub struct Text80 {
    // Zeros stand behind the text, so that equal texts have equal fields.
    bytes: [u8; 80],
    len: u8,
}

impl Model for Text80 {
    ghost use Rattle.std.specs.Prelude.{ℕ, ◌-◌, ◌++◌, List, length, take, replicate};
    ghost use Rattle.gem_ids.specs.Held.{HoldsText, held_length, held_whole};

    ghost Value = { List ℕ };

    ghost view = { λ t. take t.len t.bytes };

    ghost invariant = { λ t. HoldsText t.bytes t.len };

    ghost inverse = { λ bytes. record { bytes = bytes ++ replicate (80 - length bytes) 0; len = length bytes } };

    ghost inverse_ok = { λ t h i. record { bytes = held_whole t.bytes t.len h i; len = held_length t.bytes t.len h i } };
}

impl Text80 {
    /// The text of no bytes.
    pub fn empty() -> Text80
        ensures { result ≡ [] }
    {
        Text80 {
            bytes: [0; 80],
            len: 0,
        }
    }

    /// The text of these bytes. `TooLong` with their number comes exactly where there are over 80, and else
    /// `NotPrintable` with the place of the first byte outside 32 to 126, counted from 0.
    pub fn read(bytes: &[u8]) -> Result<Text80, TextFault>
        ensures text { IfOk result (λ t. t ≡ bytes.now) }
        ensures ok { IsOk result ↔ IsText bytes.now }
        ensures fault { IfErr result (IsFaultOf bytes.now) }
    {
        if bytes.len() > 80 {
            return Err(TextFault::TooLong(bytes.len()));
        }
        if let Some(place) = first_unprintable(bytes) {
            return Err(TextFault::NotPrintable(place));
        }
        Ok(Text80 {
            bytes: padded(bytes),
            len: bytes.len() as u8,
        })
    }

    // Puts a byte that prints behind the text.
    pub(crate) fn push(&mut self, byte: u8)
        requires room { length self.old < 80 }
        requires printable { IsPrintable byte }
        ensures { self.new ≡ self.old ++ byte ∷ [] }
    {
        self.bytes[self.len as usize] = byte;
        self.len += 1;
    }

    /// The bytes of the text.
    pub fn as_bytes(&self) -> &[u8]
        ensures value { result.now ≡ self.now }
        ensures text { IsText self.now }
    {
        &self.bytes[..self.len as usize]
    }

    /// How many bytes the text has, 0 to 80.
    pub fn len(&self) -> usize
        ensures count { result ≡ length self.now }
        ensures fits { result ≤ 80 }
    {
        self.len as usize
    }

    /// Whether the text has no bytes.
    pub fn is_empty(&self) -> bool
        ensures { IsTrue result ↔ (self.now ≡ []) }
    {
        self.len == 0
    }
}

// The bytes, and zeros behind them.
fn padded(bytes: &[u8]) -> [u8; 80]
    requires { length bytes.now ≤ 80 }
    ensures { result ≡ bytes.now ++ replicate (80 - length bytes.now) 0 }
{
    let mut all = [0; 80];
    all[..bytes.len()].copy_from_slice(bytes);
    all
}

// The place of the first byte that does not print.
fn first_unprintable(bytes: &[u8]) -> Option<usize>
    ensures { MatchOption result (All IsPrintable bytes.now) (IsFirstUnprintable bytes.now) }
{
    for (place, byte) in bytes.iter().enumerate() {
        if *byte < 32 || *byte > 126 {
            return Some(place);
        }
    }
    None
}
