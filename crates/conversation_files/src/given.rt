//! What the lines of a conversation give to the tool: the words of the command, the configuration, and the input.

use crate::script::{Kind, Line, last_of};
use std::alloc::{AllocError, Global};

/// What stands in front of a configuration that does not say how communication begins: most conversations begin with it.
const COMMUNICATING: &str = "communication = \"communicating\"\n";

/// Adds a line, with its line feed. False where there is no memory.
fn add_line(text: &mut String, line: &Line<'_>) -> bool {
    text.push_str(line.spelled()).is_ok() && text.push('\n').is_ok()
}

/// Adds the lines of a kind, each with its line feed. False where there is no memory.
fn add_lines(text: &mut String, lines: &[Line<'_>], kind: Kind) -> bool {
    for line in lines {
        if line.kind == kind && !add_line(text, line) {
            return false;
        }
    }
    true
}

/// The lines of a kind, each with its line feed, behind what stands in front of them.
fn text_of(
    alloc: Global,
    front: &str,
    lines: &[Line<'_>],
    kind: Kind,
) -> Result<String, AllocError> {
    let mut text = String::new(alloc);
    if text.push_str(front).is_ok() && add_lines(&mut text, lines, kind) {
        Ok(text)
    } else {
        Err(AllocError)
    }
}

/// The lines that come in, each with its line feed.
pub fn input_of(alloc: Global, lines: &[Line<'_>]) -> Result<String, AllocError> {
    text_of(alloc, "", lines, Kind::Said)
}

/// The text of the configuration: the lines of keys. The tool begins COMMUNICATING where none of these names communication.
pub fn configuration_of(alloc: Global, lines: &[Line<'_>]) -> Result<String, AllocError> {
    let front = if is_communication(lines) {
        ""
    } else {
        COMMUNICATING
    };
    text_of(alloc, front, lines, Kind::Key)
}

/// Whether a line of keys names communication.
fn is_communication(lines: &[Line<'_>]) -> bool {
    for line in lines {
        if line.kind == Kind::Key && line.text.contains("communication") {
            return true;
        }
    }
    false
}

/// Adds the words of a line. False where there is no memory.
fn push_words<'a>(words: &mut Vec<&'a str>, text: &'a str) -> bool {
    for word in text.split_whitespace() {
        if words.push(if word == "''" { "" } else { word }).is_err() {
            return false;
        }
    }
    true
}

/// The words of the command: those of the last line that has them, and else `feed c`.
pub fn words_of<'a>(alloc: Global, lines: &[Line<'a>]) -> Result<Vec<&'a str>, AllocError> {
    let mut words = Vec::new(alloc);
    if push_words(
        &mut words,
        last_of(lines, Kind::Command).unwrap_or("feed c"),
    ) {
        Ok(words)
    } else {
        Err(AllocError)
    }
}
