//! Events as words of a line, and what they are answered. None where a line says nothing, or there is no memory.

use gem_ids::Moment;
use hsms_frame::{Arrival, Bytes, Frame};
use std::alloc::Global;
use test_lines::{bytes, header};
use tool_events::{Answer, Event, OperCmd, PostFault, SessionCause};

/// The word at a place of a line, empty where there is none.
pub(crate) fn word<'a>(words: &[&'a str], place: usize) -> &'a str {
    match words.get(place) {
        Some(word) => *word,
        None => "",
    }
}

/// The number at a place of a line.
pub(crate) fn number(words: &[&str], place: usize) -> Option<u64> {
    word(words, place).parse::<u64>().ok()
}

/// The moment that stands behind the first word of a line.
pub(crate) fn moment(words: &[&str]) -> Option<Moment> {
    match number(words, 1) {
        Some(at) => Some(Moment(at)),
        None => None,
    }
}

/// The event of the words behind the moment.
pub(crate) fn event(alloc: Global, words: &[&str]) -> Option<Event> {
    match word(words, 2) {
        "up" => Some(Event::LinkUp),
        "tick" => Some(Event::Tick),
        "listen" => Some(Event::Listen),
        word => other_event(alloc, word, words),
    }
}

// The event of an operator or of a session.
fn other_event(alloc: Global, word: &str, words: &[&str]) -> Option<Event> {
    match word {
        "local" => Some(Event::Oper(OperCmd::Local)),
        "remote" => Some(Event::Oper(OperCmd::Remote)),
        _ => match number(words, 3) {
            Some(session) => session_event(alloc, word, session, words),
            None => None,
        },
    }
}

// The event of a session: its writer wants a frame, its link is lost, or the host sends something.
fn session_event(alloc: Global, word: &str, session: u64, words: &[&str]) -> Option<Event> {
    match word {
        "take" => Some(Event::Take { session }),
        "lost" => lost(session, words),
        _ => match arrival(alloc, word, words) {
            Some(arrival) => Some(Event::Host { session, arrival }),
            None => None,
        },
    }
}

fn lost(session: u64, words: &[&str]) -> Option<Event> {
    let cause = match word(words, 4) {
        "PeerEnd" => SessionCause::PeerEnd,
        "WriteFault" => SessionCause::WriteFault,
        _ => return None,
    };
    Some(Event::LinkDown { session, cause })
}

/// A frame whose ten bytes of header and whose text are these hex digits.
pub(crate) fn frame(alloc: Global, head: &str, text: &str) -> Option<Frame> {
    let Ok(header) = header(alloc, head) else {
        return None;
    };
    match bytes(alloc, text) {
        Ok(text) => Some(Frame {
            header,
            text: Bytes::from_vec(text),
        }),
        Err(_) => None,
    }
}

// The start of a frame with too long a text: its header as hex digits, and its length field.
fn too_long(alloc: Global, head: &str, length: &str) -> Option<Arrival> {
    match (header(alloc, head), length.parse::<u32>()) {
        (Ok(header), Ok(length)) => Some(Arrival::TooLong(header, length)),
        _ => None,
    }
}

// What the host sends: a frame, or one with too long a text.
fn arrival(alloc: Global, kind: &str, words: &[&str]) -> Option<Arrival> {
    let (head, text) = (word(words, 4), word(words, 5));
    match kind {
        "frame" => match frame(alloc, head, text) {
            Some(frame) => Some(Arrival::Frame(frame)),
            None => None,
        },
        "long" => too_long(alloc, head, text),
        _ => None,
    }
}

// Adds a frame as hex digits.
fn add_digits(alloc: Global, frame: &[u8], answer: &mut String) -> Option<()> {
    match hex::encode_upper(alloc, frame) {
        Ok(digits) => answer.push_str(digits.as_str()).ok(),
        Err(_) => None,
    }
}

// The word for an answer that has no more than that.
fn word_of(given: &Answer) -> Option<&'static str> {
    match given {
        Answer::Done => Some("done"),
        Answer::Ended => Some("ended"),
        Answer::Oper(true) => Some("accepted true"),
        Answer::Oper(false) => Some("accepted false"),
        _ => None,
    }
}

/// What an event is answered, in words; a frame as hex digits.
pub(crate) fn add_answer(alloc: Global, given: &Answer, answer: &mut String) -> Option<()> {
    match given {
        Answer::Session(session) => write!(answer, "session {session}").ok(),
        Answer::Frame(frame) => add_digits(alloc, frame.as_slice(), answer),
        given => match word_of(given) {
            Some(word) => answer.push_str(word).ok(),
            None => None,
        },
    }
}

/// Why an event is not answered, in words.
pub(crate) fn add_fault(fault: PostFault, answer: &mut String) -> Option<()> {
    write!(answer, "{fault:?}").ok()
}
