//! A row of the picture.

use gem_ids::Text80;
use std::alloc::{AllocError, Global};

/// What is so in a span: where a substrate is and what becomes of it, what a module does, or that a carrier or a job is there.
#[derive(Clone, Copy, PartialEq, Eq)]
pub enum Kind {
    /// The substrate is in its slot, and has not left it yet.
    Slot,
    /// It is on the arm of the robot; the robot is busy.
    Arm,
    /// It is at the aligner; the aligner is busy.
    Aligner,
    /// It is in a chamber, which doesn't process it.
    Chamber,
    /// It is in a chamber, which processes it; the chamber is busy.
    AtWork,
    /// It is back in its slot, and its last Process was done.
    Finished,
    /// It is back in its slot, and its last Process was not done, or it had none.
    Unfinished,
    /// The operator said that it is lost.
    Lost,
    /// The module is down.
    Down,
    /// The carrier is there; or the job is, and doesn't run.
    There,
    /// The job runs.
    Running,
}

impl Kind {
    /// The class of the sheet of pictures, by which it is coloured.
    pub fn class(self) -> &'static str {
        match self {
            Kind::Slot => "in-slot",
            Kind::Arm => "on-arm",
            Kind::Aligner => "at-aligner",
            Kind::Chamber => "in-chamber",
            Kind::AtWork => "at-work",
            Kind::Finished => "finished",
            Kind::Unfinished => "unfinished",
            Kind::Lost => "lost",
            Kind::Down => "down",
            Kind::There => "bar",
            Kind::Running => "running",
        }
    }
}

/// A span of a row: where it begins and ends, on the axis, what is so in it, and words that stand in it, empty where none do.
#[derive(Clone, Copy)]
pub struct Span {
    pub begin: u32,
    pub end: u32,
    pub kind: Kind,
    pub words: Text80,
}

/// A row: its name, and its spans in their order. The last of them may be open: it goes on until `stop`.
#[derive(Drop)]
pub struct Lane {
    name: Text80,
    spans: Vec<Span>,
    open: Option<Span>,
}

impl Lane {
    /// A row without spans. Takes no memory.
    pub fn new(alloc: Global, name: Text80) -> Lane {
        Lane {
            name,
            spans: Vec::new(alloc),
            open: None,
        }
    }

    /// The name of the row.
    pub fn name(&self) -> Text80 {
        self.name
    }

    /// The spans that have ended.
    pub fn spans(&self) -> &[Span] {
        self.spans.as_slice()
    }

    /// What is so in the open span, where there is one.
    pub fn kind(&self) -> Option<Kind> {
        match self.open {
            Some(span) => Some(span.kind),
            None => None,
        }
    }

    /// The words of the open span, empty where there is none.
    pub fn words(&self) -> Text80 {
        match self.open {
            Some(span) => span.words,
            None => Text80::empty(),
        }
    }

    /// Ends the open span, where there is one, and begins one. `AllocError`, here and in `stop`, where there is no memory.
    pub fn begin(&mut self, at: u32, kind: Kind, words: Text80) -> Result<(), AllocError> {
        self.stop(at)?;
        self.open = Some(Span {
            begin: at,
            end: at,
            kind,
            words,
        });
        Ok(())
    }

    /// Ends the open span, where there is one.
    pub fn stop(&mut self, at: u32) -> Result<(), AllocError> {
        if let Some(span) = self.open.take() {
            self.spans.push(Span { end: at, ..span })?;
        }
        Ok(())
    }
}
