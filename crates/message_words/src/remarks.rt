//! Remarks: lines behind a line, each with a mark that makes it a comment of a transcript.

use item_model::Item;
use item_words::words;
use std::alloc::{AllocError, Global};

// What stands in front of a remark.
const MARK: &[u8] = b"    # ";

/// Remarks in lines, each behind four blanks and `# `.
#[derive(Drop)]
pub struct Remarks {
    text: Vec<u8>,
}

impl Remarks {
    /// No remark.
    pub fn new(alloc: Global) -> Remarks {
        Remarks {
            text: Vec::new(alloc),
        }
    }

    /// The lines of all remarks.
    pub fn as_slice(&self) -> &[u8] {
        self.text.as_slice()
    }

    /// Begins a remark.
    pub(crate) fn begin(&mut self, words: &str) -> Result<(), AllocError> {
        self.text.extend_from_slice(MARK)?;
        self.add(words)
    }

    /// Goes on with a remark.
    pub(crate) fn add(&mut self, words: &str) -> Result<(), AllocError> {
        self.text.extend_from_slice(words.as_bytes())
    }

    /// Goes on with characters that print.
    pub(crate) fn add_bytes(&mut self, words: &[u8]) -> Result<(), AllocError> {
        self.text.extend_from_slice(words)
    }

    /// Goes on with a number.
    pub(crate) fn add_number(&mut self, alloc: Global, number: u64) -> Result<(), AllocError> {
        let words = format!(in alloc; "{number}")?;
        self.add(words.as_str())
    }

    /// Goes on with an item.
    pub(crate) fn add_item(&mut self, alloc: Global, item: &Item) -> Result<(), AllocError> {
        let words = words(alloc, item)?;
        self.add_bytes(words.as_slice())
    }

    /// Goes on with a time, which sixteen digits say: `2000-01-01 00:00:00.00`.
    pub(crate) fn add_time(&mut self, digits: &[u8; 16]) -> Result<(), AllocError> {
        let [a, b, c, d, m, n, x, y, h, i, p, q, s, t, u, v] = *digits;
        self.add_bytes(&[a, b, c, d, b'-', m, n, b'-', x, y])?;
        self.add_bytes(&[b' ', h, i, b':', p, q, b':', s, t, b'.', u, v])
    }

    /// Makes a whole remark of a time, which sixteen digits say.
    pub fn say_time(&mut self, digits: &[u8; 16]) -> Result<(), AllocError> {
        self.begin("")?;
        self.add_time(digits)?;
        self.end()
    }

    /// Ends a remark.
    pub(crate) fn end(&mut self) -> Result<(), AllocError> {
        self.add("\n")
    }

    /// Makes a whole remark of words that print.
    pub fn say(&mut self, words: &str) -> Result<(), AllocError> {
        self.begin(words)?;
        self.end()
    }

    /// Makes a whole remark of three parts, of which the last are characters that print.
    pub fn say_three(&mut self, first: &str, then: &str, last: &[u8]) -> Result<(), AllocError> {
        self.begin(first)?;
        self.add(then)?;
        self.add_bytes(last)?;
        self.end()
    }
}
