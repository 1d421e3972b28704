//! What a tool is told and asked, and its answers.
//!
//! `at 5 up` posts an event at a moment, and `waits 5 up` asks whether it has to wait. Without a moment stand `up`, which
//! session is up; `sessions`, how many came; `end 1` and `bytes 1`, why a session ended and how many bytes went out in it;
//! `entries` and `entry 0`, how many the history has, and one of them; `fate 1`, what became of a note; and `value 2`, the
//! value of a variable outside a firing, as `U1 [3]`, or `none`. `close` takes the tool apart, and tells how many entries it
//! hands out; nothing can be asked of it then.

use crate::events::{add_answer, add_fault, event, moment, number, word};
use crate::tool::Tool;
use anyhow::{Result, bail};
use gem_ids::Moment;
use item_model::Item;
use std::alloc::Global;
use test_lines::{Subject, words};
use tool_events::Event;

/// A tool, until it is closed.
#[derive(Drop)]
pub(crate) struct Spoken<T> {
    tool: Option<T>,
}

impl<T> Spoken<T> {
    pub(crate) fn new(tool: T) -> Spoken<T> {
        Spoken { tool: Some(tool) }
    }
}

impl<T: Tool + Drop> Subject for Spoken<T> {
    fn answer(&mut self, alloc: Global, said: &str) -> Result<String> {
        let mut answer = String::new(alloc);
        match say(alloc, &mut self.tool, said, &mut answer) {
            Some(()) => Ok(answer),
            None => bail!("it says nothing, there is no memory, or the tool is closed"),
        }
    }
}

// Says a line to a tool; the answer. None where it says nothing.
fn say<T: Tool + Drop>(
    alloc: Global,
    tool: &mut Option<T>,
    said: &str,
    answer: &mut String,
) -> Option<()> {
    if said == "close" {
        return add_closed(tool.take(), answer);
    }
    let Ok(words) = words(alloc, said) else {
        return None;
    };
    match tool {
        Some(tool) => answer_of(alloc, tool, words.as_slice(), answer),
        None => None,
    }
}

// How many entries a tool hands out that is closed.
fn add_closed<T: Tool + Drop>(tool: Option<T>, answer: &mut String) -> Option<()> {
    match tool {
        Some(tool) => write!(answer, "{}", tool.close()).ok(),
        None => None,
    }
}

fn answer_of<T: Tool>(
    alloc: Global,
    tool: &mut T,
    words: &[&str],
    answer: &mut String,
) -> Option<()> {
    match word(words, 0) {
        "at" => post(alloc, tool, words, answer),
        "waits" => add_waits(alloc, tool, words, answer),
        asked => asked_of(tool, alloc, asked, words, answer),
    }
}

// What a tool is asked by a word, and a number where one stands.
fn asked_of<T: Tool>(
    tool: &T,
    alloc: Global,
    asked: &str,
    words: &[&str],
    answer: &mut String,
) -> Option<()> {
    if words.len() == 1 {
        return tool.tell(asked, answer);
    }
    match (asked, number(words, 1)) {
        ("value", Some(number)) => show_value(alloc, tool, number, answer),
        (_, Some(number)) => tool.tell_of(asked, number, answer),
        (_, None) => None,
    }
}

fn post<T: Tool>(alloc: Global, tool: &mut T, words: &[&str], answer: &mut String) -> Option<()> {
    match (moment(words), event(alloc, words)) {
        (Some(at), Some(event)) => add_posted(alloc, tool, at, event, answer),
        _ => None,
    }
}

// Posts an event; its answer.
fn add_posted<T: Tool>(
    alloc: Global,
    tool: &mut T,
    at: Moment,
    event: Event,
    answer: &mut String,
) -> Option<()> {
    match &tool.post(alloc, at, event) {
        Ok(given) => add_answer(alloc, given, answer),
        Err(fault) => add_fault(*fault, answer),
    }
}

// Whether an event has to wait.
fn add_waits<T: Tool>(alloc: Global, tool: &T, words: &[&str], answer: &mut String) -> Option<()> {
    match (moment(words), event(alloc, words)) {
        (Some(at), Some(event)) => add_truth(tool.waits(at, &event), answer),
        _ => None,
    }
}

fn add_truth(truth: Option<bool>, answer: &mut String) -> Option<()> {
    match truth {
        Some(true) => answer.push_str("true").ok(),
        Some(false) => answer.push_str("false").ok(),
        None => None,
    }
}

// The value of a variable of this number.
fn show_value<T: Tool>(alloc: Global, tool: &T, number: u64, answer: &mut String) -> Option<()> {
    let Ok(variable) = u32::try_from(number) else {
        return None;
    };
    match &tool.value(alloc, variable) {
        Some(Some(item)) => add_item(alloc, item, answer),
        Some(None) => answer.push_str("none").ok(),
        None => None,
    }
}

// A text in words.
fn add_text(alloc: Global, text: &[u8], answer: &mut String) -> Option<()> {
    match String::from_utf8_lossy(alloc, text) {
        Ok(text) => write!(answer, "A {:?}", text.as_str()).ok(),
        Err(_) => None,
    }
}

// An item in words.
fn add_item(alloc: Global, item: &Item, answer: &mut String) -> Option<()> {
    match item {
        Item::Ascii(text) => add_text(alloc, text.as_slice(), answer),
        Item::Bool(truths) => write!(answer, "BOOL {:?}", truths.as_slice()).ok(),
        item => add_numbers(item, answer),
    }
}

// An item of numbers in words.
fn add_numbers(item: &Item, answer: &mut String) -> Option<()> {
    match item {
        Item::U1(numbers) => write!(answer, "U1 {:?}", numbers.as_slice()).ok(),
        Item::U2(numbers) => write!(answer, "U2 {:?}", numbers.as_slice()).ok(),
        Item::U4(numbers) => write!(answer, "U4 {:?}", numbers.as_slice()).ok(),
        _ => None,
    }
}
