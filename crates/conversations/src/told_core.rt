//! The core, as tests tell it events and ask it. Its contracts are long, so each of its calls stands in one function without a clause.

use configuration::read_config;
use event_reports::Values;
use gem_ids::Moment;
use item_model::Item;
use std::alloc::Global;
use test_runs::Tool;
use tool_core::{Core, Recorder};
use tool_events::{Answer, Event, PostFault};

/// A core.
#[derive(Drop)]
pub struct ToldCore {
    core: Core,
}

impl ToldCore {
    /// A core under the configuration that a text says. None where none says it, or there is no memory.
    pub fn under(alloc: Global, text: &str) -> Option<ToldCore> {
        match read_config(alloc, text.as_bytes()) {
            Ok(config) => Some(ToldCore {
                core: Core::open(alloc, &config).ok()?,
            }),
            Err(_) => None,
        }
    }
}

impl Tool for ToldCore {
    fn post(&mut self, alloc: Global, at: Moment, event: Event) -> Result<Answer, PostFault> {
        self.core.apply(alloc, 1, at, event)
    }

    // A core that is not whole is asked nothing.
    fn waits(&self, at: Moment, event: &Event) -> Option<bool> {
        if self.core.is_whole() {
            Some(self.core.idle(at, event))
        } else {
            None
        }
    }

    fn value(&self, alloc: Global, variable: u32) -> Option<Option<Item>> {
        self.core.value(alloc, variable).ok()
    }

    fn tell(&self, word: &str, answer: &mut String) -> Option<()> {
        match word {
            "up" => write!(answer, "{:?}", self.core.session_up()).ok(),
            "sessions" => write!(answer, "{}", self.core.session_count()).ok(),
            "entries" => write!(answer, "{}", self.core.history().len()).ok(),
            _ => None,
        }
    }

    fn tell_of(&self, word: &str, number: u64, answer: &mut String) -> Option<()> {
        match word {
            "fate" => add_fate(&self.core, number, answer),
            "end" => add_end(&self.core, number, answer),
            "bytes" => write!(answer, "{}", self.core.session_bytes(number)).ok(),
            "entry" => add_entry(&self.core, number as usize, answer),
            _ => None,
        }
    }

    fn close(self) -> usize {
        let ToldCore { core } = self;
        core.close().as_slice().len()
    }
}

// What became of a note; a core that is not whole is asked nothing.
fn add_fate(core: &Core, number: u64, answer: &mut String) -> Option<()> {
    if !core.is_whole() {
        return None;
    }
    let fate = core.fate(number);
    write!(answer, "{fate:?}").ok()
}

fn add_end(core: &Core, session: u64, answer: &mut String) -> Option<()> {
    let end = core.session_end(session);
    write!(answer, "{end:?}").ok()
}

// The seat of an entry of the history, its moment, and whether it is of a link that came up.
fn add_entry(core: &Core, place: usize, answer: &mut String) -> Option<()> {
    let entry = core.history().get(place)?;
    let is_up = matches!(entry.event, Event::LinkUp);
    write!(answer, "seat {} at {} up {is_up}", entry.seat, entry.at.0).ok()
}
