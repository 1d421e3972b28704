//! What is told of a run, moment by moment.

use gem_ids::Text80;

/// A process job: its name, and the number of its state (docs/profile/jobs.md).
#[derive(Clone, Copy)]
pub struct JobShot {
    pub name: Text80,
    pub state: u8,
}

/// What a tool has at a moment. A text is empty where nothing is there: of the carriers that are present at the ports, port by port, and of
/// the substrates on the arm, at the aligner and in the chambers. Of the modules, by their numbers, it tells which have a command that they
/// fetched; of alarms the ALIDs of those that are set.
#[derive(Drop)]
pub struct Shot {
    pub carriers: Vec<Text80>,
    pub arm: Text80,
    pub aligner: Text80,
    pub chambers: Vec<Text80>,
    pub busy: Vec<bool>,
    pub alarms: Vec<u32>,
    pub jobs: Vec<JobShot>,
}

/// What an entry is, as far as what the tool has doesn't tell it: a carrier was placed at a port with this slot map; a module did its command,
/// or is down, or up again; or a substrate is lost.
#[derive(Clone, Copy)]
pub enum Happening {
    Placed(u8, [u8; 25]),
    Done(u8),
    Down(u8),
    Up(u8),
    Lost(Text80),
    Other,
}
