//! A tool that conversations test.

use crate::subject::Runs;
use crate::tool::Tools;
use crate::{cores, play};
use anyhow::Result;
use conversation_files::{Line, Player, Section};
use std::alloc::Global;
use test_lines::{Texts, answers, play_lines};

/// A tool, by what it gives of itself.
#[derive(Drop)]
pub struct Tested<O> {
    /// The tool.
    pub tools: O,
}

impl<O: Tools> Player for Tested<O> {
    fn play(&self, alloc: Global, section: &Section<'_>) -> Result<Option<String>> {
        match section.lines.as_slice().split_first() {
            Some((first, lines)) if first.text.starts_with("to ") => {
                let said = Said { tools: &self.tools };
                play_lines(alloc, &said, first, lines)
            }
            _ => play_run(&self.tools, alloc, section),
        }
    }
}

// Runs and tools, to which lines are said.
#[derive(Drop)]
struct Said<'a, O> {
    tools: &'a O,
}

impl<O: Tools> Texts for Said<'_, O> {
    fn play(&self, alloc: Global, begins: &str, lines: &[Line<'_>]) -> Result<Option<String>> {
        if begins == "to runs" {
            answers(alloc, &mut Runs::new(self.tools, alloc), lines)
        } else {
            cores::say(self.tools, alloc, begins, lines)
        }
    }
}

// Plays a conversation that is a whole run, and tells where it goes otherwise.
fn play_run<O: Tools>(tools: &O, alloc: Global, section: &Section<'_>) -> Result<Option<String>> {
    match play::play(tools, alloc, section) {
        Ok(told) if told.is_empty() => Ok(None),
        Ok(told) => Ok(Some(told)),
        Err(error) => Err(error.into()),
    }
}
