//! The words of a command, as the program hands them in.

use gem_ids::Text80;
use std::alloc::{AllocError, Global};

/// A word. One that is no text of at most 80 bytes that print is an empty one.
pub fn text_of(typed: &str) -> Text80 {
    Text80::read(typed.as_bytes()).unwrap_or(Text80::empty())
}

/// The words of a command that is typed.
pub fn texts_of(alloc: Global, typed: &str) -> Result<Vec<Text80>, AllocError> {
    let mut words = Vec::new(alloc);
    for word in typed.split_whitespace() {
        words.push(text_of(word))?;
    }
    Ok(words)
}
