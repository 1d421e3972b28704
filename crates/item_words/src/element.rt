//! The elements of items in words, each with a blank before it.

ghost use Rattle.std.specs.Prelude.{◌≡◌, ◌<◌, ◌++◌, ℕ, List, length, flat_map, take, OnOk, IfOk};
ghost use Rattle.item_words.specs.Words.{unsigned_word, signed_word, truth_word, hex_digit, byte_word};

use std::alloc::{AllocError, Global};

/// An element of an item whose words are its kind and its elements.
pub(crate) trait Element: Copy {
    ghost word: { Self → List ℕ };

    /// Adds the word of the element, behind a blank.
    fn add(self, alloc: Global, out: &mut Vec<u8>) -> Result<(), AllocError>
        ensures { OnOk result (out.new.items ≡ out.old.items ++ word self) };
}

impl Element for bool {
    ghost word = { truth_word };

    fn add(self, _alloc: Global, out: &mut Vec<u8>) -> Result<(), AllocError> {
        if self {
            out.extend_from_slice(b" true")
        } else {
            out.extend_from_slice(b" false")
        }
    }
}

/// Adds a number without a sign.
fn add_unsigned(alloc: Global, number: u64, out: &mut Vec<u8>) -> Result<(), AllocError>
    ensures { OnOk result (out.new.items ≡ out.old.items ++ unsigned_word number) }
{
    let word = format!(in alloc; " {number}")?.into_bytes();
    out.extend_from_slice(word.as_slice())
}

/// Adds a number with a sign.
fn add_signed(alloc: Global, number: i64, out: &mut Vec<u8>) -> Result<(), AllocError>
    ensures { OnOk result (out.new.items ≡ out.old.items ++ signed_word number) }
{
    let word = format!(in alloc; " {number}")?.into_bytes();
    out.extend_from_slice(word.as_slice())
}

impl Element for u8 {
    ghost word = { unsigned_word };

    fn add(self, alloc: Global, out: &mut Vec<u8>) -> Result<(), AllocError> {
        add_unsigned(alloc, u64::from(self), out)
    }
}

impl Element for u16 {
    ghost word = { unsigned_word };

    fn add(self, alloc: Global, out: &mut Vec<u8>) -> Result<(), AllocError> {
        add_unsigned(alloc, u64::from(self), out)
    }
}

impl Element for u32 {
    ghost word = { unsigned_word };

    fn add(self, alloc: Global, out: &mut Vec<u8>) -> Result<(), AllocError> {
        add_unsigned(alloc, u64::from(self), out)
    }
}

impl Element for u64 {
    ghost word = { unsigned_word };

    fn add(self, alloc: Global, out: &mut Vec<u8>) -> Result<(), AllocError> {
        add_unsigned(alloc, self, out)
    }
}

impl Element for i8 {
    ghost word = { signed_word };

    fn add(self, alloc: Global, out: &mut Vec<u8>) -> Result<(), AllocError> {
        add_signed(alloc, i64::from(self), out)
    }
}

impl Element for i16 {
    ghost word = { signed_word };

    fn add(self, alloc: Global, out: &mut Vec<u8>) -> Result<(), AllocError> {
        add_signed(alloc, i64::from(self), out)
    }
}

impl Element for i32 {
    ghost word = { signed_word };

    fn add(self, alloc: Global, out: &mut Vec<u8>) -> Result<(), AllocError> {
        add_signed(alloc, i64::from(self), out)
    }
}

impl Element for i64 {
    ghost word = { signed_word };

    fn add(self, alloc: Global, out: &mut Vec<u8>) -> Result<(), AllocError> {
        add_signed(alloc, self, out)
    }
}

/// Adds the name of a kind, and elements of it.
pub(crate) fn add_elements<T: Element>(
    alloc: Global,
    kind: &[u8],
    elements: &[T],
    out: &mut Vec<u8>,
) -> Result<(), AllocError>
    ensures { OnOk result (out.new.items ≡ out.old.items ++ (kind.now ++ flat_map T.word elements.now)) }
{
    out.extend_from_slice(kind)?;
    for element in elements {
        element.add(alloc, out)?;
    }
    Ok(())
}

// The hex digit of a number below 16.
fn hex_digit(number: u8) -> u8
    requires { number < 16 }
    ensures { result ≡ hex_digit number }
{
    if number < 10 {
        b'0' + number
    } else {
        b'A' - 10 + number
    }
}

// Adds a byte in two hex digits.
fn add_byte(byte: u8, out: &mut Vec<u8>) -> Result<(), AllocError>
    ensures { OnOk result (out.new.items ≡ out.old.items ++ byte_word byte) }
{
    out.extend_from_slice(&[b' ', hex_digit(byte / 16), hex_digit(byte % 16)])
}

/// Adds a mark, and bytes in hex.
pub(crate) fn add_bytes(mark: &[u8], bytes: &[u8], out: &mut Vec<u8>) -> Result<(), AllocError>
    ensures { OnOk result (out.new.items ≡ out.old.items ++ (mark.now ++ flat_map byte_word bytes.now)) }
{
    out.extend_from_slice(mark)?;
    for byte in bytes {
        add_byte(*byte, out)?;
    }
    Ok(())
}
