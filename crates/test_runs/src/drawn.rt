//! Lots that are drawn from seeds. Begin with `Shape` and `Played::begin`, which say what lots there are, and with
//! `Played::plays`, which says what is wanted of each.
//!
//! A line names lots, as `a process job over a carrier, from seed 0`: 250 of them, whose seeds are the numbers from that on.
//! It is answered how many substrates they have, and how many Dones they took until their control jobs were COMPLETED, as
//! `3279 substrates, 26232 Dones`. Each lot is played with modules that do all that they are told, and once more with one
//! disturbance. Where one goes otherwise than is wanted, the answer tells of which seed, behind how many commands, and what.

use crate::lots::Shape;
use crate::plant::Plant;
use crate::played::Played;
use crate::tool::Tools;
use anyhow::{Result, bail};
use std::alloc::Global;
use test_lines::Subject;

// How many lots a line names.
const LOTS: u64 = 250;

/// Lots that are named by lines.
#[derive(Drop)]
pub(crate) struct Lots<'a, O> {
    pub(crate) tools: &'a O,
}

impl<O: Tools> Subject for Lots<'_, O> {
    fn answer(&mut self, alloc: Global, said: &str) -> Result<String> {
        let mut answer = String::new(alloc);
        if say(self.tools, alloc, said, &mut answer) {
            Ok(answer)
        } else {
            bail!("it names no lots, or there is no memory")
        }
    }
}

// How process jobs lie over carriers, in words.
fn shape_of(words: &str) -> Option<Shape> {
    match words {
        "a process job over a carrier" => Some(Shape::One),
        "two process jobs that share slots of a carrier" => Some(Shape::Shared),
        "a process job over each of two carriers" => Some(Shape::Each),
        "a process job over two carriers" => Some(Shape::Both),
        _ => None,
    }
}

// The lots that a line names: their shape, and the first seed.
fn named(said: &str) -> Option<(Shape, u64)> {
    let Some((words, seed)) = said.split_once(", from seed ") else {
        return None;
    };
    match (shape_of(words), seed.parse::<u64>()) {
        (Some(shape), Ok(seed)) => Some((shape, seed)),
        _ => None,
    }
}

fn say<O: Tools>(tools: &O, alloc: Global, said: &str, answer: &mut String) -> bool {
    match named(said) {
        Some((shape, first)) => add_counts(play_all(tools, alloc, shape, first, answer), answer),
        None => false,
    }
}

// Adds how many substrates and Dones there were. Where there are no counts, it is told already why.
fn add_counts(counts: Option<Counts>, answer: &mut String) -> bool {
    match counts {
        Some(counts) => {
            let Counts { substrates, dones } = counts;
            write!(answer, "{substrates} substrates, {dones} Dones").is_ok()
        }
        None => !answer.is_empty(),
    }
}

/// How many substrates a lot has, and how many commands ended.
#[derive(Clone, Copy)]
pub(crate) struct Counts {
    pub(crate) substrates: u64,
    pub(crate) dones: u64,
}

// The sum of counts.
fn sum(counts: Counts, more: Counts) -> Counts {
    Counts {
        substrates: counts.substrates.saturating_add(more.substrates),
        dones: counts.dones.saturating_add(more.dones),
    }
}

// Plays the lots of a shape, whose seeds are the numbers from this one on. None: one goes otherwise than is wanted, which is told in
// the answer.
fn play_all<O: Tools>(
    tools: &O,
    alloc: Global,
    shape: Shape,
    first: u64,
    answer: &mut String,
) -> Option<Counts> {
    let mut counts = Counts {
        substrates: 0,
        dones: 0,
    };
    for seed in first..first.saturating_add(LOTS) {
        match play_both(tools, alloc, shape, seed, answer) {
            Some(more) => counts = sum(counts, more),
            None => return None,
        }
    }
    Some(counts)
}

// Plays the lot of a seed undisturbed, and once more with a disturbance. The counts are those of the first.
fn play_both<O: Tools>(
    tools: &O,
    alloc: Global,
    shape: Shape,
    seed: u64,
    answer: &mut String,
) -> Option<Counts> {
    let counts = play(tools, alloc, shape, seed, false, answer);
    if counts.is_some() && play(tools, alloc, shape, seed, true, answer).is_some() {
        counts
    } else {
        None
    }
}

// Plays the lot of a seed. The tool that it is played to has a plant that is drawn.
fn play<O: Tools>(
    tools: &O,
    alloc: Global,
    shape: Shape,
    seed: u64,
    is_disturbed: bool,
    answer: &mut String,
) -> Option<Counts> {
    let mut last = seed;
    let plant = Plant::draw(shape, &mut last);
    match tool_of(tools, alloc, &plant) {
        Some(tool) => {
            let mut played = Played::new(alloc, tool, last, plant);
            let counts = played.plays(alloc, shape, is_disturbed);
            told(&played, counts, seed, is_disturbed, answer)
        }
        None => None,
    }
}

// A tool with this plant.
fn tool_of<O: Tools>(tools: &O, alloc: Global, plant: &Plant) -> Option<O::Tool> {
    match &plant.configuration(alloc) {
        Some(configuration) => tools.opened(alloc, configuration.as_str()),
        None => None,
    }
}

// Tells of a lot that went otherwise than is wanted, which gave no counts; else gives them.
fn told<T>(
    played: &Played<T>,
    counts: Option<Counts>,
    seed: u64,
    is_disturbed: bool,
    answer: &mut String,
) -> Option<Counts> {
    if counts.is_none() {
        let (ended, why) = (played.ended, played.why);
        let how = if is_disturbed {
            "disturbed"
        } else {
            "undisturbed"
        };
        let _ = write!(answer, "seed {seed}, {how}, behind {ended} commands: {why}");
    }
    counts
}
