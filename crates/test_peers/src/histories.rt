//! Histories in words.

use std::alloc::{AllocError, Global};
use tool_events::{Entry, Event, OperCmd, Signal};

// An event: a message of the host by its name alone.
fn event_words(alloc: Global, event: &Event) -> Result<String, AllocError> {
    match event {
        Event::LinkDown { session, cause } => {
            format!(in alloc; "LinkDown {{ session: {session}, cause: {cause:?} }}")
        }
        Event::Take { session } => format!(in alloc; "Take {{ session: {session} }}"),
        Event::Fetch(m) => format!(in alloc; "Fetch(ModuleId({}))", m.0),
        Event::Watch(p) => format!(in alloc; "Watch(PortNo({}))", p.0),
        Event::Signal(Signal::Removed(p)) => {
            format!(in alloc; "Signal(Removed(PortNo({})))", p.0)
        }
        other => String::from_str(alloc, word_of(other)),
    }
}

// An event in one word.
fn word_of(event: &Event) -> &'static str {
    match event {
        Event::LinkUp => "LinkUp",
        Event::Host { .. } => "Host",
        Event::Tick => "Tick",
        Event::Listen => "Listen",
        Event::Oper(OperCmd::Local) => "Oper(Local)",
        Event::Oper(OperCmd::Remote) => "Oper(Remote)",
        Event::Oper(OperCmd::Quit) => "Oper(Quit)",
        _ => "other",
    }
}

/// Adds what a seat posted, in its order, each behind a blank; ` none` where it posted nothing.
pub fn add_seat(
    alloc: Global,
    text: &mut String,
    entries: &[Entry],
    seat: u32,
) -> Result<(), AllocError> {
    let before = text.len();
    for entry in entries {
        if entry.seat == seat {
            add_event(alloc, text, &entry.event)?;
        }
    }
    if text.len() == before {
        text.push_str(" none")?;
    }
    Ok(())
}

// Adds an event behind a blank.
fn add_event(alloc: Global, text: &mut String, event: &Event) -> Result<(), AllocError> {
    let words = event_words(alloc, event)?;
    text.push_str(" ")?;
    text.push_str(words.as_str())
}

/// The tool's moment at the first command of the operator: the greatest that was given with an entry up to it. 0: it gave none.
pub fn operator_moment(entries: &[Entry]) -> u64 {
    let mut moment: u64 = 0;
    for entry in entries {
        moment = moment.max(entry.at.0);
        if let Event::Oper(_) = &entry.event {
            return moment;
        }
    }
    0
}

/// Whether a command of the operator stands in front of the first message of the host.
pub fn is_operator_first(entries: &[Entry]) -> bool {
    for entry in entries {
        match &entry.event {
            Event::Oper(_) => return true,
            Event::Host { .. } => return false,
            _ => {}
        }
    }
    false
}
