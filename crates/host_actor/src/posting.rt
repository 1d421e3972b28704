//! What the host actor posts itself, at its reader's desk.

ghost use Rattle.std.specs.Prelude.{◌≡◌, ◌<◌, Err};
ghost use Rattle.host_actor.specs.HostSteps.{ClosedEnds, LinkedUp, Listened, RunEnded};

use actors::ActorEnd;
use gem_ids::Moment;
use outside::{Gate, Point};
use tool_events::{Answer, Desk, Event, OperCmd, PostFault};

/// The moment of what isn't a look at the clock.
const AT_ONCE: Moment = Moment(0);

/// Posts that the run ends, whatever that is answered, and gives back how the host actor ends.
pub(crate) fn end_run<D: Desk>(reader: &mut D, end: ActorEnd) -> ActorEnd
    ensures tried { RunEnded (D.fulls reader.new) (D.wants reader.new) (D.posts reader.old) (D.posts reader.new) }
    ensures end { result ≡ end }
{
    let _answer = reader.post(AT_ONCE, Event::Oper(OperCmd::Quit));
    end
}

/// Posts that a link came up, and gives the number of its session, or how the host actor ends.
pub(crate) fn link_up<D: Desk>(reader: &mut D) -> Result<u64, ActorEnd>
    ensures up { LinkedUp (D.fulls reader.new) (D.wants reader.new) (D.posts reader.old) (D.posts reader.new) result }
    ensures full { result ≡ Err ActorEnd.Full → 0 < D.fulls reader.new }
{
    match reader.post(AT_ONCE, Event::LinkUp) {
        Ok(Answer::Session(session)) => Ok(session),
        Ok(Answer::Ended) => Err(ActorEnd::Quit),
        Ok(Answer::Done | Answer::Frame(_) | Answer::Command(_) | Answer::Oper(_)) => {
            unreachable!()
        }
        Err(PostFault::Full(_)) => Err(ActorEnd::Full),
        Err(PostFault::NoMemory) => Err(ActorEnd::NoMemory),
        Err(PostFault::Again) => unreachable!(),
    }
}

/// Asks whether the run has ended. The error is how the host actor ends.
fn listen<D: Desk>(reader: &mut D) -> Result<(), ActorEnd>
    ensures listened { Listened (D.fulls reader.new) (D.wants reader.new) (D.posts reader.old) (D.posts reader.new) result }
    ensures full { result ≡ Err ActorEnd.Full → 0 < D.fulls reader.new }
{
    match reader.post(AT_ONCE, Event::Listen) {
        Ok(Answer::Ended) => Err(ActorEnd::Quit),
        Ok(
            Answer::Done
            | Answer::Session(_)
            | Answer::Frame(_)
            | Answer::Command(_)
            | Answer::Oper(_),
        ) => unreachable!(),
        Err(PostFault::Again) => Ok(()),
        Err(PostFault::Full(_)) => Err(ActorEnd::Full),
        Err(PostFault::NoMemory) => Err(ActorEnd::NoMemory),
    }
}

/// What comes where no link has come up yet: while the run has not ended, it passes `Idle`.
pub(crate) fn await_link<D: Desk, G: Gate>(reader: &mut D, gate: &G) -> Result<(), ActorEnd>
    ensures listened { Listened (D.fulls reader.new) (D.wants reader.new) (D.posts reader.old) (D.posts reader.new) result }
    ensures full { result ≡ Err ActorEnd.Full → 0 < D.fulls reader.new }
{
    match listen(reader) {
        Ok(()) => {
            gate.pass(Point::Idle);
            Ok(())
        }
        Err(end) => Err(end),
    }
}

/// What comes where no link will come up: it ends the run, unless that has ended.
pub(crate) fn close<D: Desk>(reader: &mut D) -> ActorEnd
    ensures closed { ClosedEnds (D.fulls reader.new) (D.wants reader.new) (D.posts reader.old) (D.posts reader.new) result }
    ensures full { result ≡ ActorEnd.Full → 0 < D.fulls reader.new }
{
    match listen(reader) {
        Ok(()) => end_run(reader, ActorEnd::Door),
        Err(end) => end,
    }
}
