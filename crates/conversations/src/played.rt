//! What the conversations of files are played to.

use crate::runs::Program;
use crate::served::BEGINS;
use anyhow::Result;
use conversation_files::{Player, Section};
use std::alloc::Global;
use test_runs::Tested;

/// The program over lines, and its core. Those that begin with `to runs of serve` are read here, and said by `served`.
#[derive(Drop)]
pub struct Played {
    pub tested: Tested<Program>,
}

impl Player for Played {
    fn play(&self, alloc: Global, section: &Section<'_>) -> Result<Option<String>> {
        match section.lines.as_slice().split_first() {
            Some((first, _)) if first.text == BEGINS => Ok(None),
            _ => self.tested.play(alloc, section),
        }
    }
}
