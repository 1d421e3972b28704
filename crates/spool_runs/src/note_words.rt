//! Notes in words: number, kind, id, and text. A text is its hex digits, `-` for none; one of more than sixteen bytes, all the same, is
//! their count, a star and the byte, and another its count alone.

use anyhow::Result;
use hsms_frame::Bytes;
use spool::{Kind, MOST_TEXT, Note};
use std::alloc::Global;
use test_lines::{bytes, number, word};

// The byte of which a text has more than sixteen, and nothing else.
fn repeated(text: &[u8]) -> Option<u8> {
    let first = *text.first()?;
    if text.len() > 16 && text.iter().all(|byte| *byte == first) {
        Some(first)
    } else {
        None
    }
}

/// A text in words.
pub fn text_words(alloc: Global, text: &[u8]) -> Result<String> {
    if let Some(byte) = repeated(text) {
        let count = text.len();
        return Ok(format!(in alloc; "{count}*{byte:02X}")?);
    }
    match text.len() {
        0 => Ok(String::from_str(alloc, "-")?),
        1..=16 => Ok(hex::encode_upper(alloc, text)?),
        count => Ok(format!(in alloc; "{count}")?),
    }
}

/// A note in words.
pub fn words_of(
    alloc: Global,
    number: u64,
    is_alarm: bool,
    id: u32,
    text: &[u8],
) -> Result<String> {
    let kind = if is_alarm { "alarm" } else { "event" };
    let text = text_words(alloc, text)?;
    Ok(format!(in alloc; "{number} {kind} {id} {text}")?)
}

/// The note in words.
pub fn note_words(alloc: Global, note: &Note) -> Result<String> {
    let is_alarm = matches!(note.kind, Kind::Alarm);
    words_of(alloc, note.number, is_alarm, note.id, note.text.as_slice())
}

// The bytes of a text in words.
fn text_of(alloc: Global, words: &str) -> Result<Vec<u8>> {
    match words.split_once('*') {
        Some((count, byte)) => {
            let byte = bytes(alloc, byte)?.first().copied().unwrap_or(0);
            let mut text = Vec::new(alloc);
            for _ in 0..count.parse::<u32>()? {
                text.push(byte)?;
            }
            Ok(text)
        }
        None => bytes(alloc, words),
    }
}

/// The note whose words stand from a place of a line on; none where its text is longer than the greatest.
pub fn note_of(alloc: Global, words: &[&str], place: usize) -> Result<Option<Note>> {
    let text = text_of(alloc, word(words, place.saturating_add(3))?)?;
    if text.len() > MOST_TEXT {
        return Ok(None);
    }
    let kind = match word(words, place.saturating_add(1))? {
        "alarm" => Kind::Alarm,
        _ => Kind::Event,
    };
    let id = word(words, place.saturating_add(2))?.parse::<u32>()?;
    Ok(Some(Note {
        number: number(words, place)?,
        kind,
        id,
        text: Bytes::from_vec(text),
    }))
}
