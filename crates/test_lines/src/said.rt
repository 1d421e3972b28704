//! What lines are said to, and how they are compared with what is answered.

use anyhow::{Error, Result};
use conversation_files::{Line, Player, Section};
use std::alloc::{AllocError, Global};
use std::process::ExitCode;

/// What lines are said to.
pub trait Subject {
    /// What is answered to a line, without what stands behind its ` = `. The error tells why the line says nothing.
    fn answer(&mut self, alloc: Global, said: &str) -> Result<String>;
}

/// The subjects of a program's files.
pub trait Texts {
    /// Says lines to the subject that this line names, which begins as it says. Tells the first line that is answered
    /// otherwise, as `answers` does. The error tells that there is no such subject.
    fn play(&self, alloc: Global, begins: &str, lines: &[Line<'_>]) -> Result<Option<String>>;
}

/// Says lines to a subject, and tells the first that is answered otherwise than stands there.
pub fn answers<S: Subject>(
    alloc: Global,
    subject: &mut S,
    lines: &[Line<'_>],
) -> Result<Option<String>> {
    for line in lines {
        match otherwise(alloc, subject, line) {
            Ok(None) => {}
            told => return told,
        }
    }
    Ok(None)
}

/// What is told, where there is memory for it.
fn some(told: Result<String, AllocError>) -> Result<Option<String>> {
    Ok(Some(told?))
}

/// What is said in a line, and what is to be answered.
fn parts<'a>(text: &'a str) -> (&'a str, &'a str) {
    text.split_once(" = ").unwrap_or((text, ""))
}

/// Says a line, and tells whether it is answered otherwise than stands there.
fn otherwise<S: Subject>(
    alloc: Global,
    subject: &mut S,
    line: &Line<'_>,
) -> Result<Option<String>> {
    let (said, wanted) = parts(line.text);
    match subject.answer(alloc, said) {
        Ok(answer) if answer.as_str() == wanted => Ok(None),
        Ok(answer) => some(told(alloc, line, wanted, answer.as_str())),
        Err(why) => some(told_unsaid(alloc, line, &why)),
    }
}

/// Tells what is wanted of a line, and what it is answered.
fn told(alloc: Global, line: &Line<'_>, wanted: &str, got: &str) -> Result<String, AllocError> {
    let number = line.number;
    let (said, _) = parts(line.text);
    let wanted = or_nothing(wanted);
    let got = or_nothing(got);
    format!(in alloc; "line {number}: {said}: wanted {wanted}, got {got}")
}

/// Tells why a line says nothing.
fn told_unsaid(alloc: Global, line: &Line<'_>, why: &Error) -> Result<String, AllocError> {
    let number = line.number;
    let text = line.text;
    format!(in alloc; "line {number}: {text}: {why}")
}

fn or_nothing(text: &str) -> &str {
    if text.is_empty() { "nothing" } else { text }
}

/// Whether some line says what is to be answered.
fn is_answered(lines: &[Line<'_>]) -> bool {
    for line in lines {
        if line.text.contains(" = ") {
            return true;
        }
    }
    false
}

/// What plays conversations by saying their lines to these texts' subjects.
#[derive(Drop)]
struct Said<'t, T> {
    texts: &'t T,
}

/// Says the lines below the first to the subject that this names, and tells the first that is answered otherwise, or why nothing
/// can be said. Some line has to say what is to be answered.
pub fn play_lines<T: Texts>(
    alloc: Global,
    texts: &T,
    first: &Line<'_>,
    lines: &[Line<'_>],
) -> Result<Option<String>> {
    if !is_answered(lines) {
        return some(String::from_str(alloc, "no line says what is to be answered"));
    }
    match texts.play(alloc, first.text, lines) {
        Ok(told) => Ok(told),
        Err(why) => some(told_unsaid(alloc, first, &why)),
    }
}

impl<T: Texts> Player for Said<'_, T> {
    /// Says the lines of a conversation to the subject that its first line names, and tells the first line that is answered
    /// otherwise, or why nothing can be said.
    fn play(&self, alloc: Global, section: &Section<'_>) -> Result<Option<String>> {
        match section.lines.as_slice().split_first() {
            Some((first, lines)) => play_lines(alloc, self.texts, first, lines),
            None => some(String::from_str(alloc, "no line")),
        }
    }
}

/// Says each file of the folder in which a program is run to the subjects of these texts, as `conversation_files::play_folder`
/// plays it.
pub fn play_folder<T: Texts>(rt: &HostRuntime, texts: &T) -> ExitCode {
    conversation_files::play_folder(rt, &Said { texts })
}
