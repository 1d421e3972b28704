//! Texts in words.

ghost use Rattle.std.specs.Prelude.{◌≡◌, ◌++◌, flat_map, OnOk, codes};
ghost use Rattle.std.specs.List.{list_any, list_all};
ghost use Rattle.item_words.specs.Words.{prints, is_mark, wants_quotes, quoted, plain_text, text_words};

use crate::element::add_bytes;
use std::alloc::AllocError;

// Whether a character prints.
fn prints(character: u8) -> bool
    ensures { result ≡ prints character }
{
    32 <= character && character <= 126
}

// Whether all characters print.
fn all_print(text: &[u8]) -> bool
    ensures { result ≡ list_all prints text.now }
{
    for character in text {
        if !prints(*character) {
            return false;
        }
    }
    true
}

// Whether a character ends a piece of words.
fn is_mark(character: u8) -> bool
    ensures { result ≡ is_mark character }
{
    matches!(character, b',' | b'[' | b']' | b'"')
}

// Whether a character of the text does.
fn has_mark(text: &[u8]) -> bool
    ensures { result ≡ list_any is_mark text.now }
{
    for character in text {
        if is_mark(*character) {
            return true;
        }
    }
    false
}

// Whether the text has to stand between quotes.
fn wants_quotes(text: &[u8]) -> bool
    ensures { result ≡ wants_quotes text.now }
{
    text.is_empty()
        || has_mark(text)
        || text.starts_with(b" ".as_slice())
        || text.ends_with(b" ".as_slice())
}

// Adds a character that stands between quotes.
fn add_quoted(character: u8, out: &mut Vec<u8>) -> Result<(), AllocError>
    ensures { OnOk result (out.new.items ≡ out.old.items ++ quoted character) }
{
    if character == b'"' {
        out.extend_from_slice(b"\"\"")
    } else {
        out.extend_from_slice(&[character])
    }
}

// Adds a text between quotes.
fn add_between_quotes(text: &[u8], out: &mut Vec<u8>) -> Result<(), AllocError>
    ensures { OnOk result (out.new.items ≡ out.old.items ++ (codes " \"" ++ (flat_map quoted text.now ++ codes "\""))) }
{
    out.extend_from_slice(b" \"")?;
    for character in text {
        add_quoted(*character, out)?;
    }
    out.extend_from_slice(b"\"")
}

// Adds a text that prints.
fn add_plain(text: &[u8], out: &mut Vec<u8>) -> Result<(), AllocError>
    ensures { OnOk result (out.new.items ≡ out.old.items ++ plain_text text.now) }
{
    if wants_quotes(text) {
        return add_between_quotes(text, out);
    }
    out.extend_from_slice(b" ")?;
    out.extend_from_slice(text)
}

/// Adds a text, behind the name of its kind.
pub(crate) fn add_text(text: &[u8], out: &mut Vec<u8>) -> Result<(), AllocError>
    ensures { OnOk result (out.new.items ≡ out.old.items ++ (codes "A" ++ text_words text.now)) }
{
    out.extend_from_slice(b"A")?;
    if all_print(text) {
        add_plain(text, out)
    } else {
        add_bytes(b" \"bytes\"", text, out)
    }
}
