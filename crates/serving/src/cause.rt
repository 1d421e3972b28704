//! Why a run ended.
ghost use Rattle.std.specs.Prelude.{◌≡◌};
ghost use Rattle.host_actor.specs.Sessions.{end_behind};
ghost use Rattle.serving.specs.Ending.{told_end, cause_of};

use actors::ActorEnd;
use line_feeding::Cause;
use tool_crew::Ends;

// This end, or the one behind it where this is `Quit`.
fn or_behind(end: ActorEnd, behind: ActorEnd) -> ActorEnd
    ensures { result ≡ end_behind end behind }
{
    match end {
        ActorEnd::Quit => behind,
        _ => end,
    }
}

/// The end of the first actor that didn't end with `Quit`.
pub fn told_end(ends: &Ends) -> ActorEnd
    ensures { result ≡ told_end ends.now }
{
    or_behind(
        ends.host,
        or_behind(ends.operator, or_behind(ends.clock, ends.modules)),
    )
}

/// The cause of an end.
pub fn cause_of(end: ActorEnd, logged: bool, entries: u64, bytes: u64, script: u64) -> Cause
    ensures { result ≡ cause_of end logged entries bytes script }
{
    match end {
        ActorEnd::Quit if logged => Cause::Done,
        ActorEnd::Quit => Cause::WriteFault,
        ActorEnd::Full => Cause::Full(entries, bytes, script),
        ActorEnd::NoMemory => Cause::NoMemory,
        ActorEnd::ReadFault => Cause::ReadFault,
        ActorEnd::Line { number, place } => Cause::Line(number, place),
        ActorEnd::Door => Cause::Door,
    }
}
