//! A tool that a program drives: a core, and the cutters of what comes from the host and of what goes to it.

use anyhow::{Result, bail};
use configuration::read_config;
use gem_ids::Moment;
use hsms_frame::{Arrival, Cutter};
use std::alloc::Global;
use tool_core::{Core, Recorder};
use tool_events::{Answer, Event, PostFault, TEXT_BYTES};

// All events here are of one seat, and at the tool's moment: a program with a clock posts `Event::Tick` at a moment of it.
const SEAT: u32 = 0;

const NOW: Moment = Moment(0);

/// A core whose one link is up.
#[derive(Drop)]
pub struct Driven {
    core: Core,
    session: u64,
    received: Cutter,
    written: Cutter,
}

// A core under the configuration that a text says.
fn open_core(alloc: Global, configuration: &str) -> Result<Core> {
    match read_config(alloc, configuration.as_bytes()) {
        Ok(config) => Ok(Core::open(alloc, &config)?),
        Err(_) => bail!("the text is no configuration"),
    }
}

// A link comes up. Which session it is.
fn link_up(alloc: Global, core: &mut Core) -> Result<u64> {
    match core.apply(alloc, SEAT, NOW, Event::LinkUp) {
        Ok(Answer::Session(session)) => Ok(session),
        _ => bail!("the link did not come up"),
    }
}

// The arrivals that a piece of a stream makes whole.
fn cut(alloc: Global, cutter: &mut Cutter, piece: &[u8]) -> Result<Vec<Arrival>> {
    let mut arrivals = Vec::new(alloc);
    match cutter.feed(alloc, piece, &mut arrivals) {
        Ok(()) => Ok(arrivals),
        Err(_) => bail!("no frame begins so, or there is no memory"),
    }
}

impl Driven {
    /// A tool under the configuration that a text says, with a link that has come up.
    pub fn open(alloc: Global, configuration: &str) -> Result<Driven> {
        let mut core = open_core(alloc, configuration)?;
        let session = link_up(alloc, &mut core)?;
        Ok(Driven {
            core,
            session,
            received: Cutter::new(alloc, TEXT_BYTES)?,
            written: Cutter::new(alloc, TEXT_BYTES)?,
        })
    }

    /// The messages that this piece of the host's stream makes whole.
    pub fn cut(&mut self, alloc: Global, piece: &[u8]) -> Result<Vec<Arrival>> {
        cut(alloc, &mut self.received, piece)
    }

    /// An event happens.
    pub fn tell(&mut self, alloc: Global, event: Event) -> Result<()> {
        match self.core.apply(alloc, SEAT, NOW, event) {
            Ok(_) => Ok(()),
            Err(PostFault::Again) => bail!("it has to wait"),
            Err(PostFault::Full(_)) => bail!("the history is full"),
            Err(PostFault::NoMemory) => bail!("there is no memory"),
        }
    }

    /// A message of the host has arrived.
    pub fn tell_host(&mut self, alloc: Global, arrival: Arrival) -> Result<()> {
        let session = self.session;
        self.tell(alloc, Event::Host { session, arrival })
    }

    // The next frame that waits for the host, cut.
    fn next_sent(&mut self, alloc: Global) -> Result<Vec<Arrival>> {
        let session = self.session;
        match self.core.apply(alloc, SEAT, NOW, Event::Take { session }) {
            Ok(Answer::Frame(frame)) => cut(alloc, &mut self.written, frame.as_slice()),
            _ => Ok(Vec::new(alloc)),
        }
    }

    /// The frames that wait for the host, the oldest first. None waits behind it.
    pub fn sent(&mut self, alloc: Global) -> Result<Vec<Arrival>> {
        let mut all = Vec::new(alloc);
        for _ in 0..u64::MAX {
            let mut next = self.next_sent(alloc)?;
            if next.is_empty() {
                break;
            }
            all.append(&mut next)?;
        }
        Ok(all)
    }

    /// How many entries the history has.
    pub fn entries(&self) -> usize {
        self.core.history().len()
    }
}
