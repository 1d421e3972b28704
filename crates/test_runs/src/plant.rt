//! The plant of a seed: how many chambers and ports a tool has, and the routes of its two recipes, R1 and R2.

use crate::lots::{Shape, up_to};
use std::alloc::Global;

// The greatest number of steps of a route.
const MOST_STEPS: u64 = 6;

/// A route: of each chamber the number of the step that it can do, from 1 on, and 0 where it can do none; and how many steps there are.
#[derive(Clone, Copy)]
pub(crate) struct Steps {
    of_chamber: [u64; 8],
    count: u64,
}

/// A plant of one to eight chambers and one to four ports.
#[derive(Clone, Copy)]
pub(crate) struct Plant {
    chambers: u64,
    pub(crate) ports: u64,
    first: Steps,
    second: Steps,
}

// How many ports a tool of this shape has, at most 4, which is drawn: as many at least as carriers come.
fn ports_of(shape: Shape, last: &mut u64) -> u64 {
    match shape {
        Shape::One | Shape::Shared => up_to(last, 4),
        Shape::Each | Shape::Both => up_to(last, 3).saturating_add(1),
    }
}

// The step that the next chamber can do, where those before it can do so many: none, the last of them, or one more, as is drawn.
fn step_for(drawn: u64, steps: u64) -> u64 {
    match drawn {
        1 => 0,
        2 if steps > 0 => steps,
        _ if steps < MOST_STEPS => steps.saturating_add(1),
        _ => steps,
    }
}

// The greater of two numbers.
fn greater(one: u64, other: u64) -> u64 {
    if one < other { other } else { one }
}

// Draws a route over so many chambers. Where each of them is left out, the first can do the one step.
fn draw_steps(last: &mut u64, chambers: u64) -> Steps {
    let mut of_chamber = [0; 8];
    let mut count: u64 = 0;
    for place in 0..8 {
        let drawn = up_to(last, 3);
        if (place as u64) < chambers {
            let step = step_for(drawn, count);
            of_chamber[place] = step;
            count = greater(count, step);
        }
    }
    if count == 0 {
        of_chamber[0] = 1;
        count = 1;
    }
    Steps { of_chamber, count }
}

impl Steps {
    /// How many commands a substrate takes by such a route: five to the aligner and back, and three for each step.
    pub(crate) fn dones(&self) -> u64 {
        self.count.saturating_mul(3).saturating_add(5)
    }

    // Adds the chambers of a step, as a configuration lists them.
    fn push_step(&self, words: &mut String, step: u64) -> bool {
        let mut before = "[";
        for place in 0..8 {
            if self.of_chamber[place] == step {
                if write!(words, "{before}{}", place + 1).is_err() {
                    return false;
                }
                before = ", ";
            }
        }
        words.push_str("]").is_ok()
    }

    // Adds its steps, as a configuration lists them.
    fn push_to(&self, words: &mut String) -> bool {
        let mut before = "[";
        for step in 1..self.count.saturating_add(1) {
            if words.push_str(before).is_err() || !self.push_step(words, step) {
                return false;
            }
            before = ", ";
        }
        words.push_str("]").is_ok()
    }
}

impl Plant {
    /// Draws the plant of a tool for lots of this shape.
    pub(crate) fn draw(shape: Shape, last: &mut u64) -> Plant {
        let chambers = up_to(last, 8);
        let ports = ports_of(shape, last);
        let first = draw_steps(last, chambers);
        let second = draw_steps(last, chambers);
        Plant {
            chambers,
            ports,
            first,
            second,
        }
    }

    /// How many commands so many substrates take by recipe R1, and so many more by R2.
    pub(crate) fn dones(&self, substrates: u64, more: u64) -> u64 {
        let first = substrates.saturating_mul(self.first.dones());
        first.saturating_add(more.saturating_mul(self.second.dones()))
    }

    // Adds the two recipes, as a configuration lists them.
    fn push_recipes(&self, words: &mut String) -> bool {
        words
            .push_str("recipes = [{ name = \"R1\", route = ")
            .is_ok()
            && self.first.push_to(words)
            && words.push_str(" }, { name = \"R2\", route = ").is_ok()
            && self.second.push_to(words)
            && words.push_str(" }]\n").is_ok()
    }

    // Adds what else its configuration says.
    fn push_counts(&self, words: &mut String) -> bool {
        let (chambers, ports) = (self.chambers, self.ports);
        words
            .push_str("version = 2\ncommunication = \"communicating\"\n")
            .is_ok()
            && write!(words, "chambers = {chambers}\nports = {ports}\n").is_ok()
    }

    /// Its configuration. None: there is no memory.
    pub(crate) fn configuration(&self, alloc: Global) -> Option<String> {
        let mut words = String::new(alloc);
        if self.push_counts(&mut words) && self.push_recipes(&mut words) {
            Some(words)
        } else {
            None
        }
    }
}
