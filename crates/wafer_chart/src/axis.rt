//! The axis: what it counts, and where its ticks stand.

use crate::story::{Axis, Story};

/// Where the rows begin and how wide they are, in pixels.
pub(crate) const LEFT: f64 = 96.0;

pub(crate) const WIDTH: f64 = 688.0;

// The steps of ticks, of entries, and of tenths of a second.
const ENTRY_STEPS: [u32; 20] = [
    1, 2, 5, 10, 20, 50, 100, 200, 500, 1000, 2000, 5000, 10000, 20000, 50000, 100000, 200000,
    500000, 1000000, 2000000,
];

const TIME_STEPS: [u32; 20] = [
    1, 2, 5, 10, 20, 50, 100, 200, 300, 600, 1200, 3000, 6000, 12000, 18000, 36000, 72000, 144000,
    864000, 8640000,
];

// The steps of a minute and of an hour, in tenths of a second.
const MINUTE: u32 = 600;

/// The most ticks.
pub(crate) const MOST_TICKS: u32 = 12;

// The first of these steps of which few are in a length, or else the last.
fn step_of(steps: &[u32], end: u32) -> u32 {
    let mut last = 1;
    for step in steps {
        last = *step;
        if end / MOST_TICKS < *step {
            return last;
        }
    }
    last
}

/// The step of the ticks of a story's axis.
pub(crate) fn tick_step(story: &Story) -> u32 {
    match story.axis {
        Axis::Entries => step_of(&ENTRY_STEPS, story.end),
        Axis::Time => step_of(&TIME_STEPS, story.end),
    }
}

/// The number that stands at a tick.
pub(crate) fn tick_number(story: &Story, at: u32) -> u32 {
    match story.axis {
        Axis::Entries => at,
        Axis::Time if tick_step(story) < MINUTE => at / 10,
        Axis::Time => at / MINUTE,
    }
}

/// What the ticks count.
pub(crate) fn axis_words(story: &Story) -> &'static str {
    match story.axis {
        Axis::Entries => "entries of the history",
        Axis::Time if tick_step(story) < MINUTE => "seconds",
        Axis::Time => "minutes",
    }
}

/// Where a place of the axis is in the picture.
pub(crate) fn across(story: &Story, at: u32) -> f64 {
    let end = if story.end == 0 { 1 } else { story.end };
    LEFT + WIDTH * f64::from(at) / f64::from(end)
}
