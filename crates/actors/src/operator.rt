//! The operator: it posts what a script says, line by line.
ghost use Rattle.std.specs.Prelude.{◌≡◌, ◌≢◌, ℕ, ◌+◌, ◌<◌, ◌^◌, [], false, if◌then◌else◌, Result, Ok, Err};
ghost use Rattle.tool_events.specs.Answering.{may_wait};
ghost use Rattle.tool_events.specs.declared.event.Event.TheVariants as event;
ghost use Rattle.line_grammar.specs.Reading.{script_line_of};
ghost use Rattle.line_grammar.specs.Texts.{is_quit};
ghost use Rattle.line_grammar.specs.declared.line.Line.TheVariants as line;
ghost use Rattle.actors.specs.Operates.{OperatorDid};
ghost use Rattle.actors.specs.Operating.{Posts, PostsLine, GivesUp, TakesLine, TakesLast, Quits, EndsAt, after_answer, desk_told, counts_of};
ghost use Rattle.source_lines.specs.Reads.{source_told};
ghost use Rattle.actors.specs.declared.end.ActorEnd.TheVariants as end;

use crate::end::ActorEnd;
use gem_ids::{Moment, PortNo};
use line_grammar::{Line, LineFault};
use outside::{Gate, Point, Source};
use source_lines::{NoLine, SourceLines};
use std::alloc::Global;
use std::sync::Wait;
use tool_events::{Answer, Desk, Event, OperCmd, PostFault};
use tool_texts::{LINE_BYTES, read_script_line};

/// The operator posts no moment of its own.
const AT_ONCE: Moment = Moment(0);

/// Reads a script, and posts what its lines say, one after the other and each at moment 0: an `O` line and an `S` line once,
/// and a `W` line until it is answered; where that is `Again`, it passes `Point::Idle` before it posts again. Behind each line
/// that was answered it passes `Point::OperLine`. Answers how it ended, and how many bytes of the script were read.
///
/// It ends with
/// - `Quit`, where a post was answered `Ended`, and behind `O quit`, of which nothing more is read or posted. At the end of the
///   script, which may lack its last line feed, it posts that the run ends, and ends with `Quit` too;
/// - `Full` or `NoMemory`, where a post was answered so.
///
/// It ends for a cause of its own with
/// - `ReadFault`, where a read of the script failed;
/// - `Line`, at the first line that is outside the grammar of a script, or that has over 600,000 bytes (then at place 600,000,
///   as soon as they were read);
/// - `Full`, where 4,294,967,296 bytes of the script were read, and none of their lines ended it;
/// - `NoMemory`, where there was none to gather a line.
///
/// Before it ends for such a cause it posts that the run ends, whatever that is answered.
pub fn operate<W: Wait, D: Desk, S: Source, G: Gate>(
    rt: &W,
    alloc: Global,
    desk: &mut D,
    script: &mut S,
    gate: &G,
) -> (ActorEnd, u64)
    ensures did { OperatorDid (S.left script.old) (S.left script.new)
        (counts_of (desk_told D.posts D.fulls D.wants desk.old) (source_told S.left S.faults S.ends script.old))
        (counts_of (desk_told D.posts D.fulls D.wants desk.new) (source_told S.left S.faults S.ends script.new))
        (D.posts desk.old) (D.posts desk.new) result.1 result.0 }
    ensures unfailed { result.0 ≢ end.ReadFault → S.faults script.new ≡ S.faults script.old }
{
    let mut lines = SourceLines::new(alloc);
    let end = post_lines(rt, desk, script, gate, &mut lines);
    (end, lines.count())
}

// Posts what the lines say, from the first on, until the actor ends.
fn post_lines<W: Wait, D: Desk, S: Source, G: Gate>(
    rt: &W,
    desk: &mut D,
    script: &mut S,
    gate: &G,
    lines: &mut SourceLines,
) -> ActorEnd
    requires { lines.old ≡ record { line = []; kept = []; count = 0 } }
    ensures did { OperatorDid (S.left script.old) (S.left script.new)
        (counts_of (desk_told D.posts D.fulls D.wants desk.old) (source_told S.left S.faults S.ends script.old))
        (counts_of (desk_told D.posts D.fulls D.wants desk.new) (source_told S.left S.faults S.ends script.new))
        (D.posts desk.old) (D.posts desk.new) lines.new.count result }
    ensures unfailed { result ≢ end.ReadFault → S.faults script.new ≡ S.faults script.old }
{
    let mut number: u64 = 1;
    loop {
        match lines.next_line(script) {
            Ok(()) => {}
            Err(why) => return end_script(rt, desk, gate, why, lines.line(), number),
        }
        match take_line(rt, desk, gate, lines.line(), number) {
            Ok(()) => {}
            Err(end) => return end,
        }
        number += 1;
    }
}

// No line is given any more: what came of the line of this number is a line too where the script is over.
fn end_script<W: Wait, D: Desk, G: Gate>(
    rt: &W,
    desk: &mut D,
    gate: &G,
    why: NoLine,
    line: &[u8],
    number: u64,
) -> ActorEnd
    ensures { EndsAt why (script_line_of line.now) number (desk_told D.posts D.fulls D.wants desk.old) (desk_told D.posts D.fulls D.wants desk.new) result }
{
    match why {
        NoLine::End => take_last(rt, desk, gate, line, number),
        NoLine::Fault => give_up(desk, ActorEnd::ReadFault),
        NoLine::Bound => give_up(desk, ActorEnd::Full),
        NoLine::Long => {
            let place = LINE_BYTES as u64;
            give_up(desk, ActorEnd::Line { number, place })
        }
        NoLine::NoMemory => give_up(desk, ActorEnd::NoMemory),
    }
}

// The script is over, and what came of its last line is a line too. Behind it the run ends.
fn take_last<W: Wait, D: Desk, G: Gate>(
    rt: &W,
    desk: &mut D,
    gate: &G,
    line: &[u8],
    number: u64,
) -> ActorEnd
    ensures { TakesLast (script_line_of line.now) number (desk_told D.posts D.fulls D.wants desk.old) (desk_told D.posts D.fulls D.wants desk.new) result }
{
    match take_line(rt, desk, gate, line, number) {
        Ok(()) => quit(desk),
        Err(end) => end,
    }
}

// Takes the line of this number, which is whole.
fn take_line<W: Wait, D: Desk, G: Gate>(
    rt: &W,
    desk: &mut D,
    gate: &G,
    line: &[u8],
    number: u64,
) -> Result<(), ActorEnd>
    ensures { TakesLine (script_line_of line.now) number (desk_told D.posts D.fulls D.wants desk.old) (desk_told D.posts D.fulls D.wants desk.new) result }
{
    match read_script_line(line) {
        Ok(Line::Oper(command)) => post_command(desk, gate, command),
        Ok(Line::Signal(signal)) => post(desk, gate, Event::Signal(signal)),
        Ok(Line::Watch(port)) => watch(rt, desk, gate, port),
        Ok(Line::Skip) => Ok(()),
        // No script has one of these.
        Ok(Line::Up) => Ok(()),
        Ok(Line::Down) => Ok(()),
        Ok(Line::Moment(_)) => Ok(()),
        Ok(Line::Bytes(_bytes)) => Ok(()),
        Err(LineFault::Place(place)) => Err(give_up(desk, ActorEnd::Line { number, place })),
        Err(LineFault::NoMemory) => unreachable!(),
    }
}

// Posts what an operator wants. The command that ends the run ends the actor.
fn post_command<D: Desk, G: Gate>(desk: &mut D, gate: &G, command: OperCmd) -> Result<(), ActorEnd>
    ensures { PostsLine (line.Oper command) (desk_told D.posts D.fulls D.wants desk.old) (desk_told D.posts D.fulls D.wants desk.new) result }
{
    let quits = ends_run(&command);
    match post(desk, gate, Event::Oper(command)) {
        Ok(()) => if quits { Err(ActorEnd::Quit) } else { Ok(()) },
        Err(end) => Err(end),
    }
}

// Whether the command ends the run.
fn ends_run(command: &OperCmd) -> bool
    ensures { result ≡ is_quit (line.Oper command.now) }
{
    matches!(command, OperCmd::Quit)
}

// Posts an event that needn't wait.
fn post<D: Desk, G: Gate>(desk: &mut D, gate: &G, event: Event) -> Result<(), ActorEnd>
    requires { may_wait event ≡ false }
    ensures { Posts event (desk_told D.posts D.fulls D.wants desk.old) (desk_told D.posts D.fulls D.wants desk.new) result }
{
    match desk.post(AT_ONCE, event) {
        Ok(answer) => behind_line(gate, &answer),
        Err(PostFault::Full(_)) => Err(ActorEnd::Full),
        Err(PostFault::NoMemory) => Err(ActorEnd::NoMemory),
        Err(PostFault::Again) => unreachable!(),
    }
}

// Posts that a port is waited for, until that is answered.
fn watch<W: Wait, D: Desk, G: Gate>(
    rt: &W,
    desk: &mut D,
    gate: &G,
    port: PortNo,
) -> Result<(), ActorEnd>
    ensures { Posts (event.Watch port) (desk_told D.posts D.fulls D.wants desk.old) (desk_told D.posts D.fulls D.wants desk.new) result }
{
    for _ in rt.forever() {
        match desk.post(AT_ONCE, Event::Watch(port)) {
            Ok(answer) => return behind_line(gate, &answer),
            Err(PostFault::Full(_)) => return Err(ActorEnd::Full),
            Err(PostFault::NoMemory) => return Err(ActorEnd::NoMemory),
            Err(PostFault::Again) => gate.pass(Point::Idle),
        }
    }
    unreachable!()
}

// A line was answered: the gate is passed, and the answer `Ended` ends the actor.
fn behind_line<G: Gate>(gate: &G, answer: &Answer) -> Result<(), ActorEnd>
    ensures { result ≡ after_answer answer.now }
{
    gate.pass(Point::OperLine);
    match answer {
        Answer::Ended => Err(ActorEnd::Quit),
        _ => Ok(()),
    }
}

// The actor ends for a cause of its own: it posts that the run ends, whatever that is answered.
fn give_up<D: Desk>(desk: &mut D, cause: ActorEnd) -> ActorEnd
    ensures cause { result ≡ cause }
    ensures posted { GivesUp (desk_told D.posts D.fulls D.wants desk.old) (desk_told D.posts D.fulls D.wants desk.new) }
{
    let _ = quit(desk);
    cause
}

// Posts that the run ends.
fn quit<D: Desk>(desk: &mut D) -> ActorEnd
    ensures { Quits (desk_told D.posts D.fulls D.wants desk.old) (desk_told D.posts D.fulls D.wants desk.new) result }
{
    match desk.post(AT_ONCE, Event::Oper(OperCmd::Quit)) {
        Ok(_) => ActorEnd::Quit,
        Err(PostFault::Full(_)) => ActorEnd::Full,
        Err(PostFault::NoMemory) => ActorEnd::NoMemory,
        Err(PostFault::Again) => unreachable!(),
    }
}
