//! What is drawn.

use crate::lane::Lane;
use gem_ids::Text80;
use std::alloc::{AllocError, Global};

/// What the axis counts: the entries of the history, or tenths of a second since the first moment.
#[derive(Clone, Copy, PartialEq, Eq)]
pub enum Axis {
    Entries,
    Time,
}

/// An alarm that was set: where on the axis, and its ALID.
#[derive(Clone, Copy)]
pub struct Mark {
    pub at: u32,
    pub alarm: u32,
}

/// What happened in a run: the carriers, a row for each port; the process jobs; the substrates and the modules; the alarms; where the axis
/// ends, and how many entries the history has.
#[derive(Drop)]
pub struct Story {
    pub axis: Axis,
    pub end: u32,
    pub entries: u64,
    pub carriers: Vec<Lane>,
    pub jobs: Vec<Lane>,
    pub substrates: Vec<Lane>,
    pub modules: Vec<Lane>,
    pub marks: Vec<Mark>,
}

impl Story {
    /// Nothing has happened. Takes no memory.
    pub fn new(alloc: Global, axis: Axis) -> Story {
        Story {
            axis,
            end: 0,
            entries: 0,
            carriers: Vec::new(alloc),
            jobs: Vec::new(alloc),
            substrates: Vec::new(alloc),
            modules: Vec::new(alloc),
            marks: Vec::new(alloc),
        }
    }

    /// Ends each span that is open, and the axis. `AllocError` where there is no memory.
    pub fn finish(&mut self, end: u32) -> Result<(), AllocError> {
        self.end = end;
        stop_all(&mut self.carriers, end)?;
        stop_all(&mut self.jobs, end)?;
        stop_all(&mut self.substrates, end)?;
        stop_all(&mut self.modules, end)
    }
}

// Ends the open span of each of these rows.
fn stop_all(lanes: &mut [Lane], at: u32) -> Result<(), AllocError> {
    for lane in lanes {
        lane.stop(at)?;
    }
    Ok(())
}

/// The place of the last of these rows that has a name.
pub(crate) fn last_named(lanes: &[Lane], name: Text80) -> Option<usize> {
    let mut found = None;
    for (place, lane) in lanes.iter().enumerate() {
        if lane.name() == name {
            found = Some(place);
        }
    }
    found
}
