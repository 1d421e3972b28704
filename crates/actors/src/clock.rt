//! How the clock is looked at.

ghost use Rattle.std.specs.Prelude.{◌≡◌, ◌≢◌, Some};
ghost use Rattle.outside.specs.Counts.{Rose};
ghost use Rattle.actors.specs.Times.{TimeLooked, TimeDid};
ghost use Rattle.actors.specs.declared.end.ActorEnd.TheVariants as end;

use crate::end::ActorEnd;
use outside::{Clock, Gate, Point};
use std::sync::Wait;
use tool_events::{Answer, Desk, Event, PostFault};

/// The hundredths of a second between two looks at the clock.
const BETWEEN_TICKS: u32 = 10;

// The end of the clock, behind the point where it has ended.
fn over<G: Gate>(gate: &G, end: ActorEnd) -> Option<ActorEnd>
    ensures { result ≡ Some end }
{
    gate.pass(Point::Over);
    Some(end)
}

/// Looks at the clock once: it reads it, and posts `Tick` at that moment. `None`: it goes on, since the look was answered `Done`, or
/// has to wait because nothing was due; then it passed `Idle`. Else it has ended. It takes no memory of its own.
///
/// `Quit`: the look was answered `Ended`. `Full` and `NoMemory`: it was answered so.
pub fn look<D: Desk, T: Clock, G: Gate>(desk: &mut D, clock: &mut T, gate: &G) -> Option<ActorEnd>
    ensures did { TimeLooked (T.given clock.old) (T.given clock.new) (D.posts desk.old) (D.posts desk.new) result }
    ensures full { result ≡ Some end.Full → Rose (D.fulls desk.old) (D.fulls desk.new) }
    ensures not_full { result ≢ Some end.Full → D.fulls desk.new ≡ D.fulls desk.old }
    ensures want { result ≡ Some end.NoMemory → Rose (D.wants desk.old) (D.wants desk.new) }
    ensures no_want { result ≢ Some end.NoMemory → D.wants desk.new ≡ D.wants desk.old }
{
    gate.pass(Point::Tick);
    let at = clock.now();
    match desk.post(at, Event::Tick) {
        Ok(Answer::Done) => {
            gate.pass(Point::Posted);
            None
        }
        Ok(Answer::Ended) => over(gate, ActorEnd::Quit),
        Err(PostFault::Again) => {
            gate.pass(Point::Idle);
            None
        }
        Err(PostFault::Full(_)) => over(gate, ActorEnd::Full),
        Err(PostFault::NoMemory) => over(gate, ActorEnd::NoMemory),
        _ => unreachable!(),
    }
}

/// Goes on behind a look at the clock: it waits for ten hundredths of a second and looks again, as `look` does, until it has
/// ended. It takes no memory of its own, and posts nothing else.
///
/// `Quit`: its last post was answered `Ended`. `Full` and `NoMemory`: a post was answered so.
pub fn keep_time<W: Wait, D: Desk, T: Clock, G: Gate>(
    rt: &W,
    desk: &mut D,
    clock: &mut T,
    gate: &G,
) -> ActorEnd
    ensures did { TimeDid (T.given clock.old) (T.given clock.new) (D.posts desk.old) (D.posts desk.new) result }
    ensures full { result ≡ end.Full → Rose (D.fulls desk.old) (D.fulls desk.new) }
    ensures not_full { result ≢ end.Full → D.fulls desk.new ≡ D.fulls desk.old }
    ensures want { result ≡ end.NoMemory → Rose (D.wants desk.old) (D.wants desk.new) }
    ensures no_want { result ≢ end.NoMemory → D.wants desk.new ≡ D.wants desk.old }
{
    for _ in rt.forever() {
        clock.wait(BETWEEN_TICKS);
        if let Some(end) = look(desk, clock, gate) {
            return end;
        }
    }
    unreachable!()
}
