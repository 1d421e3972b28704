//! The reader of a session: what comes in over a link is cut into messages, and each is posted.
ghost use Rattle.std.specs.Prelude.{◌≡◌, ◌≢◌, ◌⊎◌, ℕ, List, [], ◌∷◌, Err};
ghost use Rattle.outside.specs.Counts.{Rose};
ghost use Rattle.tool_events.specs.declared.event.SessionCause.{SessionCause};
ghost use Rattle.actors.specs.Reads.{ReaderDid, FaultTold, reader_counts};
ghost use Rattle.actors.specs.ReaderSteps.{DownTried, IsCut, MessagesPosted, MessagesRead, PieceTaken, QuitTried, StopTold};

use crate::end::ActorEnd;
use gem_ids::Moment;
use hsms_frame::{Arrival, CutFault, Cutter};
use outside::{Gate, LinkIn, Point, front};
use std::alloc::Global;
use std::sync::Wait;
use tool_events::{Answer, Desk, Event, OperCmd, PostFault, SessionCause, TEXT_BYTES};

/// The moment of what isn't a look at the clock.
const AT_ONCE: Moment = Moment(0);

/// So many bytes are read at once at most.
const PIECE: usize = 4096;

/// Why the reader reads no more.
#[derive(Clone, Copy)]
pub enum ReadStop {
    /// The session ends, for this cause.
    Down(SessionCause),
    /// A message was answered `Ended`.
    Ended,
    /// A message was answered `Full`.
    Full,
    /// A message was answered `NoMemory`.
    NoMemory,
    /// There was no memory to cut what was read.
    Uncut,
}

/// Posts that the run ends, whatever that is answered, and gives back how the reader ends.
fn end_run<D: Desk>(desk: &mut D, end: ActorEnd) -> ActorEnd
    ensures tried { QuitTried (D.fulls desk.old) (D.fulls desk.new) (D.wants desk.old) (D.wants desk.new) (D.posts desk.old) (D.posts desk.new) }
    ensures end { result ≡ end }
{
    let _answer = desk.post(AT_ONCE, Event::Oper(OperCmd::Quit));
    end
}

/// Posts that the session ends.
fn post_down<D: Desk>(desk: &mut D, session: u64, cause: SessionCause) -> ActorEnd
    ensures { DownTried session cause (D.fulls desk.old) (D.fulls desk.new) (D.posts desk.old) (D.posts desk.new) result }
{
    match desk.post(AT_ONCE, Event::LinkDown { session, cause }) {
        Ok(_) => ActorEnd::Quit,
        Err(PostFault::Full(_)) => ActorEnd::Full,
        Err(PostFault::NoMemory) => ActorEnd::NoMemory,
        Err(PostFault::Again) => unreachable!(),
    }
}

/// Posts a message of the session, and tells where the reader stops at it. Behind one with which the session goes on it passes
/// `HostPosted`.
fn post_message<D: Desk, G: Gate>(
    desk: &mut D,
    session: u64,
    arrival: Arrival,
    gate: &G,
) -> Result<(), ReadStop>
    ensures posted { MessagesPosted session (arrival ∷ []) (D.fulls desk.old) (D.fulls desk.new) (D.wants desk.old) (D.wants desk.new) (D.posts desk.old) (D.posts desk.new) result }
    ensures no_down { (why : SessionCause) → result ≢ Err (ReadStop.Down why) }
{
    match desk.post(AT_ONCE, Event::Host { session, arrival }) {
        Ok(Answer::Done) => {
            gate.pass(Point::HostPosted);
            Ok(())
        }
        Ok(Answer::Ended) => Err(ReadStop::Ended),
        Ok(Answer::Session(_) | Answer::Frame(_) | Answer::Command(_) | Answer::Oper(_)) => {
            unreachable!()
        }
        Err(PostFault::Full(_)) => Err(ReadStop::Full),
        Err(PostFault::NoMemory) => Err(ReadStop::NoMemory),
        Err(PostFault::Again) => unreachable!(),
    }
}

/// Posts messages of the session, in their order, up to one at which the reader stops.
fn post_messages<D: Desk, G: Gate>(
    desk: &mut D,
    session: u64,
    arrivals: Vec<Arrival>,
    gate: &G,
) -> Result<(), ReadStop>
    ensures posted { MessagesPosted session arrivals.items (D.fulls desk.old) (D.fulls desk.new) (D.wants desk.old) (D.wants desk.new) (D.posts desk.old) (D.posts desk.new) result }
    ensures no_down { (why : SessionCause) → result ≢ Err (ReadStop.Down why) }
{
    for arrival in arrivals {
        match post_message(desk, session, arrival, gate) {
            Ok(()) => {}
            Err(stop) => return Err(stop),
        }
    }
    Ok(())
}

/// Cuts the next bytes of the session, and posts each message that they make whole. Behind a length below 10, with which
/// no frame begins, the session ends.
fn take_piece<D: Desk, G: Gate>(
    alloc: Global,
    desk: &mut D,
    session: u64,
    cutter: &mut Cutter,
    bytes: &[u8],
    gate: &G,
) -> Result<(), ReadStop>
    ensures { (stream : List ℕ) → IsCut stream cutter.old
        → PieceTaken session stream bytes.now cutter.new (D.fulls desk.old) (D.fulls desk.new) (D.wants desk.old) (D.wants desk.new) (D.posts desk.old) (D.posts desk.new) result }
{
    let mut arrivals = Vec::new(alloc);
    match cutter.feed(alloc, bytes, &mut arrivals) {
        Ok(()) => post_messages(desk, session, arrivals, gate),
        Err(CutFault::ShortLength(_)) => match post_messages(desk, session, arrivals, gate) {
            Ok(()) => Err(ReadStop::Down(SessionCause::ShortLength)),
            Err(stop) => Err(stop),
        },
        Err(CutFault::NoMemory) => Err(ReadStop::Uncut),
    }
}

/// Reads the link and posts each message, until it stops. Answers why, and how many bytes were read; that count stands
/// still at the greatest number.
fn read_messages<W: Wait, D: Desk, L: LinkIn, G: Gate>(
    rt: &W,
    alloc: Global,
    desk: &mut D,
    link: &mut L,
    session: u64,
    gate: &G,
) -> (ReadStop, u64)
    ensures read { MessagesRead session (L.left link.old) (L.left link.new)
        (reader_counts D.fulls D.wants L.faults L.ends desk.old link.old) (reader_counts D.fulls D.wants L.faults L.ends desk.new link.new)
        (D.posts desk.old) (D.posts desk.new) result.1 result.0 }
    ensures unfailed { result.0 ≢ ReadStop.Down SessionCause.ReadFault → L.faults link.new ≡ L.faults link.old }
{
    let Ok(mut cutter) = Cutter::new(alloc, TEXT_BYTES) else {
        unreachable!()
    };
    let mut buf = [0; PIECE];
    let mut count: u64 = 0;
    for _ in rt.forever() {
        gate.pass(Point::HostRead);
        let Ok(more) = link.read(&mut buf) else {
            return (ReadStop::Down(SessionCause::ReadFault), count);
        };
        if more == 0 {
            return (ReadStop::Down(SessionCause::PeerEnd), count);
        }
        count = count.saturating_add(more as u64);
        match take_piece(alloc, desk, session, &mut cutter, front(&buf, more), gate) {
            Ok(()) => {}
            Err(stop) => return (stop, count),
        }
    }
    unreachable!()
}

/// Tells the desk why the reader reads no more, where that is its own to tell, and answers how the reader ends.
fn tell_stop<D: Desk>(desk: &mut D, session: u64, stop: ReadStop) -> ActorEnd
    ensures { StopTold session stop (D.fulls desk.old) (D.fulls desk.new) (D.wants desk.old) (D.wants desk.new) (D.posts desk.old) (D.posts desk.new) result }
{
    match stop {
        ReadStop::Down(cause) => post_down(desk, session, cause),
        ReadStop::Ended => ActorEnd::Quit,
        ReadStop::Full => end_run(desk, ActorEnd::Full),
        ReadStop::NoMemory => ActorEnd::NoMemory,
        ReadStop::Uncut => end_run(desk, ActorEnd::NoMemory),
    }
}

/// Reads a session's link, and posts each message that arrives, in order, at moment 0. Answers how it ended, and how many
/// bytes it read, at most the greatest number of 64 bits. It passes `HostRead` before each read, `HostPosted` behind each message
/// that was answered while its session goes on, and `SessionEnd` at its end.
///
/// It ends with `Quit` once the link ended, a read failed or a length below 10 came, which it tells by `LinkDown`, and
/// where a message was answered `Ended`. Where a message is answered `Full` it posts `Quit` and ends with `Full`, and
/// for want of memory of its own it posts `Quit` and ends with `NoMemory`. Where any other post is refused it ends with
/// `Full` or `NoMemory`, as that was answered.
pub fn read_host<W: Wait, D: Desk, L: LinkIn, G: Gate>(
    rt: &W,
    alloc: Global,
    desk: &mut D,
    link: &mut L,
    session: u64,
    gate: &G,
) -> (ActorEnd, u64)
    ensures did { ReaderDid session (L.left link.old) (L.left link.new)
        (reader_counts D.fulls D.wants L.faults L.ends desk.old link.old) (reader_counts D.fulls D.wants L.faults L.ends desk.new link.new)
        (D.posts desk.old) (D.posts desk.new) result.1 result.0 }
    ensures full { result.0 ≡ ActorEnd.Full → Rose (D.fulls desk.old) (D.fulls desk.new) }
    ensures unfailed { (L.faults link.new ≡ L.faults link.old) ⊎ FaultTold session (D.posts desk.new) result.0 }
{
    let (stop, count) = read_messages(rt, alloc, desk, link, session, gate);
    let end = tell_stop(desk, session, stop);
    gate.pass(Point::SessionEnd);
    (end, count)
}
