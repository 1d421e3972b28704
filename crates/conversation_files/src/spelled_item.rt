//! An item as SECS-II spells it (SEMI E5, data items), from words. Begin with `item`.
//!
//! It follows the standard alone, and takes nothing of the tool: a fault of the tool's writers is not to be shared.
//!
//! Words are `L[..]` with items between commas, `A text`, `B 00 0A` with bytes in hex, `BOOL true false`, and `U1`, `U2`,
//! `U4`, `U8`, `I1`, `I2`, `I4` or `I8` with decimal numbers; an item with nothing behind its name has no element. A text
//! that has a comma, a bracket, a quote or a space at an end stands in quotes, and a quote in it is written twice. In a
//! list `25 times U1 3` stands for that item 25 times. Lengths are spelled in the fewest bytes.
//!
//! What can fail here tells whether it did by a truth value, and `Spelling::why` says why.

use crate::names::of_name;
use anyhow::{Result, bail};
use std::alloc::Global;

/// The format codes, each of two octal digits (SEMI E5, item formats). Below those of numbers stands the number of their
/// bytes, with 0 for 8.
const LIST: u8 = 0o00;

const BINARY: u8 = 0o10;

const BOOLEAN: u8 = 0o11;

const ASCII: u8 = 0o20;

const SIGNED: u8 = 0o30;

const UNSIGNED: u8 = 0o50;

/// The formats of items that are no lists, by their names.
const FORMATS: [(&str, u8); 11] = [
    ("A", ASCII),
    ("B", BINARY),
    ("BOOL", BOOLEAN),
    ("I1", SIGNED | 1),
    ("I2", SIGNED | 2),
    ("I4", SIGNED | 4),
    ("I8", SIGNED),
    ("U1", UNSIGNED | 1),
    ("U2", UNSIGNED | 2),
    ("U4", UNSIGNED | 4),
    ("U8", UNSIGNED),
];

/// The bytes of truth values, by their words.
const TRUTHS: [(&str, u8); 2] = [("true", 1), ("false", 0)];

/// The most elements of a list, and the most bytes of another item.
const MOST: usize = 0xFF_FFFF;

// ---- the parts of an item

/// How many bytes a length takes at least.
fn length_bytes(length: usize) -> u8 {
    match length {
        0..=0xFF => 1,
        0x100..=0xFFFF => 2,
        _ => 3,
    }
}

/// Adds the last of eight bytes, so many.
fn push_last(out: &mut Vec<u8>, bytes: [u8; 8], count: u8) -> bool {
    match bytes.get(8usize.saturating_sub(count as usize)..) {
        Some(last) => out.extend_from_slice(last).is_ok(),
        None => false,
    }
}

/// Adds the header of an item: the format code with the number of length bytes in its two low bits, and then the length,
/// in the fewest bytes (SEMI E5, item header). It is the elements of a list, and the bytes of any other item.
fn push_header(out: &mut Vec<u8>, format: u8, length: usize) -> bool {
    let count = length_bytes(length);
    length <= MOST
        && out.push((format << 2) | count).is_ok()
        && push_last(out, (length as u64).to_be_bytes(), count)
}

/// Adds a letter of a text in quotes, in which a quote is written twice, behind the first of two or not. Tells whether it is
/// the first of two; none where it may not stand there, or there is no memory.
fn push_letter(out: &mut Vec<u8>, letter: u8, is_quote_begun: bool) -> Option<bool> {
    let is_quote = letter == b'"';
    if is_quote && !is_quote_begun {
        return Some(true);
    }
    if is_quote == is_quote_begun && out.push(letter).is_ok() {
        Some(false)
    } else {
        None
    }
}

/// Adds what stands between the quotes of a text.
fn push_quoted(out: &mut Vec<u8>, inner: &str) -> bool {
    let mut is_quote_begun = false;
    for letter in inner.as_bytes() {
        match push_letter(out, *letter, is_quote_begun) {
            Some(is_begun) => is_quote_begun = is_begun,
            None => return false,
        }
    }
    !is_quote_begun
}

/// Adds a text without quotes.
fn push_plain(out: &mut Vec<u8>, text: &str) -> bool {
    !text.contains('"') && out.extend_from_slice(text.as_bytes()).is_ok()
}

/// What stands between the quotes of a text.
fn between_quotes(text: &str) -> Option<&str> {
    match text.strip_prefix('"') {
        Some(text) => text.strip_suffix('"'),
        None => None,
    }
}

/// Adds a text, in quotes or without.
fn push_text(out: &mut Vec<u8>, text: &str) -> bool {
    text.is_ascii()
        && match between_quotes(text) {
            Some(inner) => push_quoted(out, inner),
            None => push_plain(out, text),
        }
}

/// The number of a hex digit, which has an upper-case letter.
pub fn digit(letter: u8) -> Option<u8> {
    match letter {
        b'0'..=b'9' => Some(letter - b'0'),
        b'A'..=b'F' => Some(letter - b'A' + 10),
        _ => None,
    }
}

/// The byte of two hex digits.
fn byte_of(high: u8, low: u8) -> Option<u8> {
    match (digit(high), digit(low)) {
        (Some(high), Some(low)) => Some((high << 4) | low),
        _ => None,
    }
}

/// Adds a byte, where there is one.
fn push_some(out: &mut Vec<u8>, byte: Option<u8>) -> bool {
    match byte {
        Some(byte) => out.push(byte).is_ok(),
        None => false,
    }
}

/// Adds the byte of a word of two hex digits.
fn push_byte(out: &mut Vec<u8>, word: &str) -> bool {
    match word.as_bytes() {
        [high, low] => push_some(out, byte_of(*high, *low)),
        _ => false,
    }
}

/// Adds a truth value.
fn push_truth(out: &mut Vec<u8>, word: &str) -> bool {
    push_some(out, of_name(&TRUTHS, word))
}

/// The eight bytes of a number without a sign, the most significant first. None where a word is none, or is greater than this.
fn unsigned(word: &str, greatest: u64) -> Option<[u8; 8]> {
    match word.parse::<u64>() {
        Ok(number) if number <= greatest => Some(number.to_be_bytes()),
        _ => None,
    }
}

/// The same of a number with a sign. A negative one may not be less than this with its bits inverted.
fn signed(word: &str, greatest: i64) -> Option<[u8; 8]> {
    match word.parse::<i64>() {
        Ok(number) if !greatest <= number && number <= greatest => Some(number.to_be_bytes()),
        _ => None,
    }
}

/// The same of a number of a format.
fn number_of(format: u8, word: &str) -> Option<[u8; 8]> {
    let (greatest, greatest_signed) = match format & 7 {
        1 => (0xFF, 0x7F),
        2 => (0xFFFF, 0x7FFF),
        4 => (0xFFFF_FFFF, 0x7FFF_FFFF),
        _ => (u64::MAX, i64::MAX),
    };
    if format >= UNSIGNED {
        unsigned(word, greatest)
    } else {
        signed(word, greatest_signed)
    }
}

/// How many bytes a number of a format has.
fn bytes_of_number(format: u8) -> u8 {
    match format & 7 {
        0 => 8,
        count => count,
    }
}

/// Adds a number, the most significant byte first.
fn push_number(out: &mut Vec<u8>, format: u8, word: &str) -> bool {
    match number_of(format, word) {
        Some(bytes) => push_last(out, bytes, bytes_of_number(format)),
        None => false,
    }
}

/// Adds the element of an item that is neither a list nor a text.
fn push_element(out: &mut Vec<u8>, format: u8, word: &str) -> bool {
    match format {
        BINARY => push_byte(out, word),
        BOOLEAN => push_truth(out, word),
        _ => push_number(out, format, word),
    }
}

/// Adds the elements of an item that is neither a list nor a text.
fn push_elements(out: &mut Vec<u8>, format: u8, words: &str) -> bool {
    for word in words.split_whitespace() {
        if !push_element(out, format, word) {
            return false;
        }
    }
    true
}

/// Adds what stands behind the header of an item of a format, of the words behind its name.
fn push_value(out: &mut Vec<u8>, format: u8, words: &str) -> bool {
    if format == ASCII {
        push_text(out, words)
    } else {
        push_elements(out, format, words)
    }
}

/// Adds what stands behind the header of an item that is no list, of its words; its format.
fn push_body(out: &mut Vec<u8>, words: &str) -> Option<u8> {
    let (name, value) = words.split_once(' ').unwrap_or((words, ""));
    match of_name(&FORMATS, name) {
        Some(format) if push_value(out, format, value.trim_start()) => Some(format),
        _ => None,
    }
}

// ---- marks

/// What ends a piece of words.
#[derive(Clone, Copy, PartialEq, Eq)]
enum Mark {
    Opens,
    Comma,
    Closes,
    End,
}

fn mark_of(letter: u8) -> Option<Mark> {
    match letter {
        b'[' => Some(Mark::Opens),
        b',' => Some(Mark::Comma),
        b']' => Some(Mark::Closes),
        _ => None,
    }
}

/// The number of times that a word says.
fn number_of_times(word: &str) -> Option<u32> {
    match word.parse::<u32>() {
        Ok(number) if 1 <= number && number <= 0xFF_FFFF => Some(number),
        _ => None,
    }
}

/// How often what these words say stands here, and the words without that.
pub fn times_of(words: &str) -> (u32, &str) {
    match words.split_once(" times ") {
        Some((times, item)) => match number_of_times(times) {
            Some(number) => (number, item.trim_start()),
            None => (1, words),
        },
        None => (1, words),
    }
}

// ---- lists

/// A list whose elements are read, and how often it stands where it stands.
#[derive(Drop)]
struct Open {
    times: u32,
    elements: usize,
    bytes: Vec<u8>,
}

impl Open {
    fn new(alloc: Global, times: u32) -> Open {
        Open {
            times,
            elements: 0,
            bytes: Vec::new(alloc),
        }
    }

    /// Adds an element.
    fn push(&mut self, format: u8, length: usize, body: &[u8]) -> bool {
        self.elements = self.elements.saturating_add(1);
        push_header(&mut self.bytes, format, length) && self.bytes.extend_from_slice(body).is_ok()
    }

    /// Adds an element so many times.
    fn push_times(&mut self, format: u8, length: usize, body: &[u8], times: u32) -> bool {
        for _ in 0..times {
            if !self.push(format, length, body) {
                return false;
            }
        }
        true
    }
}

/// Where the piece of words begins that is read, and the letter that is read stands, the mark in front of the piece, and whether a
/// quote is open.
#[derive(Clone, Copy)]
struct Cut {
    begin: usize,
    place: usize,
    before: Mark,
    is_quoted: bool,
}

impl Cut {
    fn new() -> Cut {
        Cut {
            begin: 0,
            place: 0,
            before: Mark::Comma,
            is_quoted: false,
        }
    }

    /// The mark that a letter is, if it is one and stands in no quotes.
    fn mark(&mut self, letter: u8) -> Option<Mark> {
        if letter == b'"' {
            self.is_quoted = !self.is_quoted;
        }
        if self.is_quoted {
            None
        } else {
            mark_of(letter)
        }
    }

    /// The piece in front of a mark that is read; the next begins behind it.
    fn piece<'a>(&mut self, words: &'a str, mark: Mark) -> &'a str {
        let piece = words.get(self.begin..self.place).unwrap_or("").trim();
        self.begin = self.place.saturating_add(1);
        self.before = mark;
        piece
    }
}

/// The lists whose elements are read, of which the outermost is what has the item itself; what of the words is read; and why they
/// cannot be.
#[derive(Drop)]
struct Spelling {
    open: Vec<Open>,
    cut: Cut,
    why: &'static str,
}

impl Spelling {
    fn new(alloc: Global) -> Spelling {
        Spelling {
            open: Vec::new(alloc),
            cut: Cut::new(),
            why: "an item is too long, or there is no memory",
        }
    }

    /// The words cannot be read, for this reason.
    fn wrong(&mut self, why: &'static str) -> bool {
        self.why = why;
        false
    }

    /// Begins a list.
    fn open(&mut self, alloc: Global, times: u32) -> bool {
        self.open.push(Open::new(alloc, times)).is_ok()
    }

    /// Begins a list, as words in front of a bracket say.
    fn begin(&mut self, alloc: Global, words: &str) -> bool {
        match times_of(words) {
            (times, "L") => self.open(alloc, times),
            _ => self.wrong("a bracket opens behind other words than L"),
        }
    }

    /// Adds an element to the innermost list, so many times.
    fn add(&mut self, format: u8, length: usize, body: &[u8], times: u32) -> bool {
        match self.open.last_mut() {
            Some(list) => list.push_times(format, length, body, times),
            None => self.wrong("a bracket closes nothing"),
        }
    }

    /// Ends the innermost list, which is then an element of the one around it.
    fn close(&mut self) -> bool {
        match self.open.pop() {
            Some(list) => self.add(LIST, list.elements, list.bytes.as_slice(), list.times),
            None => false,
        }
    }

    /// Adds the item that these words say, so many times.
    fn add_item(&mut self, alloc: Global, words: &str, times: u32) -> bool {
        let mut body = Vec::new(alloc);
        match push_body(&mut body, words) {
            Some(format) => self.add(format, body.len(), body.as_slice(), times),
            None => self.wrong("an item is spelled in no known way"),
        }
    }

    /// Takes the words in front of a comma, a bracket that closes or the end, where there may be none or must be some.
    fn take_words(&mut self, alloc: Global, words: &str, may_be_none: bool) -> bool {
        if !words.is_empty() {
            let (times, words) = times_of(words);
            return self.add_item(alloc, words, times);
        }
        may_be_none || self.wrong("an item is missing")
    }

    /// Takes the words in front of a bracket that closes.
    fn take_last(&mut self, alloc: Global, words: &str, before: Mark) -> bool {
        self.take_words(alloc, words, before != Mark::Comma) && self.close()
    }

    /// Takes the words between two marks.
    fn take(&mut self, alloc: Global, words: &str, before: Mark, mark: Mark) -> bool {
        let is_behind_list = before == Mark::Closes;
        if is_behind_list && !words.is_empty() {
            return self.wrong("words stand right behind a list");
        }
        match mark {
            Mark::Opens => self.begin(alloc, words),
            Mark::Closes => self.take_last(alloc, words, before),
            _ => self.take_words(alloc, words, is_behind_list),
        }
    }

    /// Takes the words in front of a mark that is read.
    fn take_to(&mut self, alloc: Global, words: &str, mark: Mark) -> bool {
        let before = self.cut.before;
        let piece = self.cut.piece(words, mark);
        self.take(alloc, piece, before, mark)
    }

    /// Takes a letter of these words, and the words in front of it where it is a mark.
    fn take_letter(&mut self, alloc: Global, words: &str, letter: u8) -> bool {
        let is_taken = match self.cut.mark(letter) {
            Some(mark) => self.take_to(alloc, words, mark),
            None => true,
        };
        self.cut.place = self.cut.place.saturating_add(1);
        is_taken
    }

    /// Reads these words, which are cut at the brackets and commas that stand in no quotes.
    fn take_all(&mut self, alloc: Global, words: &str) -> bool {
        for letter in words.as_bytes() {
            if !self.take_letter(alloc, words, *letter) {
                return false;
            }
        }
        self.take_to(alloc, words, Mark::End)
    }

    /// The bytes of the one item that was read, where all lists are closed.
    fn whole(&mut self) -> Option<Vec<u8>> {
        self.why = "a list has no bracket at its end, or a message has several items";
        match self.open.pop() {
            Some(whole) if self.open.is_empty() && whole.elements == 1 => Some(whole.bytes),
            _ => None,
        }
    }

    /// Reads the one item that these words say.
    fn read(&mut self, alloc: Global, words: &str) -> Option<Vec<u8>> {
        if self.open(alloc, 1) && self.take_all(alloc, words) {
            self.whole()
        } else {
            None
        }
    }
}

/// The item that these words say. The error is why they cannot be read.
pub fn bytes_of(alloc: Global, words: &str) -> Result<Vec<u8>, &'static str> {
    let mut spelling = Spelling::new(alloc);
    match spelling.read(alloc, words) {
        Some(bytes) => Ok(bytes),
        None => Err(spelling.why),
    }
}

/// The item that these words say. The error tells what of them cannot be read.
pub fn item(alloc: Global, words: &str) -> Result<Vec<u8>> {
    match bytes_of(alloc, words) {
        Ok(bytes) => Ok(bytes),
        Err(why) => bail!("{why}"),
    }
}
