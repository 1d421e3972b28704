//! A history that is played to a core, and told as a story.

ghost use Rattle.tool_events.specs.Configs.{IsConfig};

use crate::tool::Tool;
use gem_ids::Moment;
use history_parts::Entries;
use hsms_frame::{Arrival, Bytes, Frame};
use std::alloc::{AllocError, Global};
use tool_events::{Answer, Config, Entry, Event, OperCmd, Signal};
use wafer_chart::{Axis, Happening, Teller, draw_story};

// Where on the axis the entries stand: by their numbers, from 1 on; or by the moments, in tenths of a second since the first.
#[derive(Clone, Copy)]
struct Place {
    axis: Axis,
    first: u64,
    now: u64,
    count: u32,
}

impl Place {
    // Before the first entry.
    fn new(history: &[Entry]) -> Place {
        let moments = moments_of(history);
        match moments {
            Some((first, last)) if first < last => Place {
                axis: Axis::Time,
                first,
                now: first,
                count: 0,
            },
            _ => Place {
                axis: Axis::Entries,
                first: 0,
                now: 0,
                count: 0,
            },
        }
    }

    // At the next entry, which was posted with this moment.
    fn go_on(&mut self, at: Moment) {
        self.count = self.count.saturating_add(1);
        self.now = self.now.max(at.0);
    }

    // Where the entry stands.
    fn at(&self) -> u32 {
        match self.axis {
            Axis::Entries => self.count,
            Axis::Time => (self.now.saturating_sub(self.first) / 10).min(u64::from(
                u32::MAX,
            )) as u32,
        }
    }
}

// The first and the last of the moments that entries were posted with, other than 0, which raises no moment.
fn moments_of(history: &[Entry]) -> Option<(u64, u64)> {
    let mut found = None;
    for entry in history {
        let at = entry.at.0;
        found = match found {
            _ if at == 0 => found,
            None => Some((at, at)),
            Some((first, last)) => Some((first, last.max(at))),
        };
    }
    found
}

// What is to be known of an event when it is done.
fn happening_of(tool: &Tool, event: &Event) -> Happening {
    match event {
        Event::Signal(signal) => signalled(tool, signal),
        Event::Oper(OperCmd::Up(m)) => Happening::Up(m.0),
        Event::Oper(OperCmd::Lost(name)) => Happening::Lost(name.text()),
        _ => Happening::Other,
    }
}

// What is to be known of a signal: a Failed of the command that a module has takes it down.
fn signalled(tool: &Tool, signal: &Signal) -> Happening {
    match signal {
        Signal::Placed { port, map, .. } => Happening::Placed(port.0, *map),
        Signal::Done(m, _) => Happening::Done(m.0),
        Signal::Failed(m, n) if tool.has_command(*m, *n) => Happening::Down(m.0),
        Signal::Down(m) => Happening::Down(m.0),
        Signal::Failed(_, _) | Signal::Removed(_) => Happening::Other,
    }
}

// What happened, where the operator's command was accepted; what he isn't granted didn't happen.
fn granted(happening: Happening, answer: Option<Answer>) -> Happening {
    match answer {
        Some(Answer::Oper(false)) | None => Happening::Other,
        Some(_) => happening,
    }
}

// A copy of what has arrived.
fn arrival_copy(alloc: Global, arrival: &Arrival) -> Result<Arrival, AllocError> {
    match arrival {
        Arrival::Frame(frame) => Ok(Arrival::Frame(Frame {
            header: frame.header,
            text: Bytes::from_vec(Vec::from_slice(alloc, frame.text.as_slice())?),
        })),
        Arrival::TooLong(header, length) => Ok(Arrival::TooLong(*header, *length)),
    }
}

// A copy of an event.
fn event_copy(alloc: Global, event: &Event) -> Result<Event, AllocError> {
    Ok(match event {
        Event::Host { session, arrival } => Event::Host {
            session: *session,
            arrival: arrival_copy(alloc, arrival)?,
        },
        Event::LinkDown { session, cause } => Event::LinkDown {
            session: *session,
            cause: *cause,
        },
        Event::Take { session } => Event::Take { session: *session },
        Event::Oper(command) => Event::Oper(*command),
        Event::Signal(signal) => Event::Signal(*signal),
        Event::Fetch(m) => Event::Fetch(*m),
        Event::Watch(port) => Event::Watch(*port),
        Event::LinkUp => Event::LinkUp,
        Event::Tick => Event::Tick,
        Event::Listen => Event::Listen,
    })
}

// Plays an entry, and tells what happened with it. Frames are taken where they wait, and so an entry that takes one is only counted.
fn play_entry(alloc: Global, tool: &mut Tool, entry: &Entry) -> Result<Happening, AllocError> {
    if matches!(&entry.event, Event::Take { .. }) {
        return Ok(Happening::Other);
    }
    let happening = happening_of(tool, &entry.event);
    let event = event_copy(alloc, &entry.event)?;
    let answer = tool.play(alloc, entry.seat, entry.at, event)?;
    Ok(granted(happening, answer))
}

/// The chart of a history as SVG text. The configuration keeps its bounds (docs/profile/configuration.md).
pub(crate) fn chart_of(
    alloc: Global,
    config: &Config,
    history: Entries,
) -> Result<Vec<u8>, AllocError>
    requires { IsConfig config.now }
{
    let mut place = Place::new(history.as_slice());
    let mut tool = Tool::open(alloc, config)?;
    let mut teller = Teller::new(alloc, place.axis, config.ports, config.chambers)?;
    for entry in history.as_slice() {
        place.go_on(entry.at);
        let happening = play_entry(alloc, &mut tool, entry)?;
        let shot = tool.shot(alloc)?;
        teller.tell(alloc, place.at(), &happening, &shot)?;
    }
    let story = teller.finish(place.at())?;
    draw_story(alloc, &story)
}
