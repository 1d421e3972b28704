//! A line of a transcript: what came in, or what was printed.

use crate::printed::{Printed, is_marked, read_printed};
use line_grammar::Line;
use std::alloc::Global;
use tool_texts::{LineFault, read_feed_line};

/// What a line of a transcript says.
#[derive(Drop)]
pub(crate) enum TranscriptLine<'a> {
    /// It came in.
    Input(Line),
    /// It was printed. The bytes are the line as it was, without what makes a comment of it.
    Printed(Printed<'a>, &'a [u8]),
}

// The printed line that stands as a comment, as in the shipped examples; none where the comment says nothing of this kind.
fn commented(alloc: Global, line: &[u8]) -> Result<Option<TranscriptLine<'_>>, LineFault> {
    let [b'#', b' ', words @ ..] = line else {
        return Ok(None);
    };
    if !is_marked(words) {
        return Ok(None);
    }
    match read_printed(alloc, words) {
        Ok(printed) => Ok(Some(TranscriptLine::Printed(printed, words))),
        Err(LineFault::Place(_)) => Ok(None),
        Err(LineFault::NoMemory) => Err(LineFault::NoMemory),
    }
}

/// Reads a line of a transcript, without its line feed: one that `feed` takes, or one that it prints, which may stand as a comment.
/// `Place` is the first byte, counted from 0, with which none of them goes on.
pub(crate) fn read_transcript_line(
    alloc: Global,
    line: &[u8],
) -> Result<TranscriptLine<'_>, LineFault> {
    if is_marked(line) {
        return Ok(TranscriptLine::Printed(read_printed(alloc, line)?, line));
    }
    match commented(alloc, line)? {
        Some(printed) => Ok(printed),
        None => Ok(TranscriptLine::Input(read_feed_line(alloc, line)?)),
    }
}
