//! Whole frames in words.

ghost use Rattle.std.specs.Prelude.{◌≡◌, ◌<◌, ◌≤◌, IfOk, IfSome, Some, None};
ghost use Rattle.item_model.specs.Data.{Data};
ghost use Rattle.item_model.specs.Height.{height};
ghost use Rattle.item_model.specs.One.{one_item};
ghost use Rattle.item_model.specs.View.{view};
ghost use Rattle.message_words.specs.Frames.{data_words, message_words};

use crate::header::{data_words, header_words, is_data};
use hsms_frame::{Frame, Header};
use item_model::{Item, ItemFault};
use item_words::{LINE_WIDTH, laid_words, words};
use secs_items::{decode, read_one};
use std::alloc::{AllocError, Global};

// The columns in front of the lines of an item that doesn't stand behind its message.
const ITEM_MARGIN: usize = 4;

// How many bytes of a text stand on a line.
const BYTES_OF_LINE: usize = 24;

/// What the text of a frame is.
#[derive(Drop)]
pub enum Body {
    /// There is none.
    Empty,
    /// One item (SEMI E5, message text).
    Item(Item),
    /// No item stands at its front, for this fault; the words have its bytes.
    Faulty(ItemFault),
    /// Bytes stand behind its item, which has so many; the words have all.
    Behind(usize),
    /// Bytes of which nothing is known, since the frame is none of a data message; the words have them.
    Bytes,
}

/// A frame in words, and what its text is.
#[derive(Drop)]
pub struct FrameWords {
    pub text: Vec<u8>,
    pub body: Body,
}

// A data message with its item in words, behind so many columns.
fn message_words(
    alloc: Global,
    column: usize,
    header: Header,
    item: &Item,
) -> Result<Vec<u8>, AllocError>
    requires column { column < 1000 }
    requires height { height (view item.now) ≤ 16 }
    ensures { IfOk result (λ text. text.items ≡ message_words column header (view item.now)) }
{
    let mut text = data_words(alloc, header)?;
    let line = words(alloc, item)?;
    if column
        .saturating_add(text.len())
        .saturating_add(1)
        .saturating_add(line.len())
        <= LINE_WIDTH
    {
        text.push(b' ')?;
        text.extend_from_slice(line.as_slice())?;
        return Ok(text);
    }
    text.extend_from_slice(b"\n    ")?;
    let lines = laid_words(alloc, ITEM_MARGIN, item)?;
    text.extend_from_slice(lines.as_slice())?;
    Ok(text)
}

// Adds bytes in hex, each behind a blank.
fn add_bytes(alloc: Global, bytes: &[u8], text: &mut Vec<u8>) -> Result<(), AllocError> {
    for byte in bytes {
        let word = format!(in alloc; " {byte:02X}")?;
        text.extend_from_slice(word.as_str().as_bytes())?;
    }
    Ok(())
}

// Adds the bytes of a text: on the line where they fit, and else on lines of their own.
fn add_text(alloc: Global, bytes: &[u8], text: &mut Vec<u8>) -> Result<(), AllocError> {
    text.extend_from_slice(b" bytes")?;
    if bytes.len() <= BYTES_OF_LINE {
        return add_bytes(alloc, bytes, text);
    }
    for piece in bytes.chunks(BYTES_OF_LINE) {
        text.extend_from_slice(b"\n   ")?;
        add_bytes(alloc, piece, text)?;
    }
    Ok(())
}

// The words of a frame whose text is shown as bytes.
fn bytes_words(alloc: Global, frame: &Frame) -> Result<Vec<u8>, AllocError> {
    let mut text = header_words(alloc, frame.header)?;
    if !frame.text.as_slice().is_empty() {
        add_text(alloc, frame.text.as_slice(), &mut text)?;
    }
    Ok(text)
}

// What a text is that is not one item.
fn faulty(alloc: Global, text: &[u8]) -> Result<Body, AllocError> {
    if text.is_empty() {
        return Ok(Body::Empty);
    }
    match decode(alloc, text) {
        Ok((_item, used)) => Ok(Body::Behind(used)),
        Err(ItemFault::NoMemory) => Err(AllocError),
        Err(fault) => Ok(Body::Faulty(fault)),
    }
}

// The words of a frame that is none of a data message.
fn control_words(alloc: Global, frame: &Frame) -> Result<FrameWords, AllocError> {
    let text = bytes_words(alloc, frame)?;
    let body = if frame.text.as_slice().is_empty() {
        Body::Empty
    } else {
        Body::Bytes
    };
    Ok(FrameWords { text, body })
}

// The words of a data message whose text is not one item.
fn faulty_words(alloc: Global, frame: &Frame) -> Result<FrameWords, AllocError> {
    let body = faulty(alloc, frame.text.as_slice())?;
    let text = bytes_words(alloc, frame)?;
    Ok(FrameWords { text, body })
}

/// A frame in words, which stand behind so many columns (this tool's profile, messages in words): of a data message whose text is one
/// item `S1F13 W 2 L[]`, with the item on lines of its own where all is longer than 100 columns. Where the text is not one item its bytes
/// are shown in hex. Of a control message its name and system bytes, of any other frame the fields of its header. `AllocError` comes for
/// want of memory alone.
pub fn frame_words(alloc: Global, column: usize, frame: &Frame) -> Result<FrameWords, AllocError>
    requires { column < 1000 }
    // What a data message says is in its words.
    ensures item { (d : Data) → frame.now.header.ptype ≡ 0 → frame.now.header.stype ≡ 0 → one_item frame.now.text ≡ Some d
        → IfOk result (λ w. w.text.items ≡ message_words column frame.now.header d) }
{
    if !is_data(frame.header) {
        return control_words(alloc, frame);
    }
    match read_one(alloc, frame.text.as_slice())? {
        Some(item) => {
            let text = message_words(alloc, column, frame.header, &item)?;
            Ok(FrameWords {
                text,
                body: Body::Item(item),
            })
        }
        None => faulty_words(alloc, frame),
    }
}
