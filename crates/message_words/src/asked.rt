//! What the host asked, of which a reply tells.

use crate::reports::Changes;
use std::alloc::{AllocError, Global};

// So many requests are kept at most. One that is never answered goes when others come.
const MOST_OPEN: usize = 256;

/// What a request of the host means for its reply.
#[derive(Drop)]
pub(crate) enum Asked {
    /// The values of these variables.
    Values(Vec<u32>),
    /// The values of this report.
    Report(u32),
    /// That reports are defined or deleted.
    Define(Changes),
}

#[derive(Drop)]
struct Request {
    system: u32,
    asked: Asked,
}

/// The requests that wait for their replies, the oldest first.
#[derive(Drop)]
pub(crate) struct Requests {
    open: Vec<Request>,
}

impl Requests {
    pub(crate) fn new(alloc: Global) -> Requests {
        Requests {
            open: Vec::new(alloc),
        }
    }

    /// A request waits for its reply, under these system bytes. The oldest is forgotten where there are many.
    pub(crate) fn push(&mut self, system: u32, asked: Asked) -> Result<(), AllocError> {
        if self.open.len() >= MOST_OPEN {
            let _oldest = self.open.remove(0);
        }
        self.open.push(Request { system, asked })?;
        Ok(())
    }

    // The place of the oldest request with these system bytes.
    fn place_of(&self, system: u32) -> Option<usize> {
        self.open
            .iter()
            .position(|request| request.system == system)
    }

    /// What was asked under these system bytes, which now have their reply.
    pub(crate) fn take(&mut self, system: u32) -> Option<Asked> {
        match self.place_of(system) {
            Some(place) if place < self.open.len() => {
                let Request { system: _, asked } = self.open.remove(place);
                Some(asked)
            }
            _ => None,
        }
    }

    /// The session has ended: no request is answered any more.
    pub(crate) fn clear(&mut self) {
        self.open.clear();
    }
}
