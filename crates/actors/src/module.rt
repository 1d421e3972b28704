//! What a module does with its commands.

ghost use Rattle.std.specs.Prelude.{◌≡◌, ◌≢◌};
ghost use Rattle.outside.specs.Counts.{Rose};
ghost use Rattle.actors.specs.Modules.{ModuleDid};
ghost use Rattle.actors.specs.declared.end.ActorEnd.TheVariants as end;

use crate::end::ActorEnd;
use gem_ids::Moment;
use outside::{Gate, Point};
use sim_modules::SimModule;
use std::sync::Wait;
use tool_events::{Answer, Desk, Event, PostFault};

/// Fetches the commands of a module, one after another. The module acts on each, and what it tells is posted before the next
/// fetch; all at moment 0. Where no command is there yet, it passes `NoCommand` and fetches again. Behind a signal that was
/// answered it passes `Posted`. It takes no memory of its own, and posts nothing else.
///
/// `Quit`: its last post was answered `Ended`. `Full` and `NoMemory`: a post was answered so.
pub fn run_module<W: Wait, D: Desk, G: Gate>(
    rt: &W,
    desk: &mut D,
    module: &mut SimModule,
    gate: &G,
) -> ActorEnd
    ensures did { ModuleDid «module».old «module».new (D.posts desk.old) (D.posts desk.new) result }
    ensures full { result ≡ end.Full → Rose (D.fulls desk.old) (D.fulls desk.new) }
    ensures not_full { result ≢ end.Full → D.fulls desk.new ≡ D.fulls desk.old }
    ensures want { result ≡ end.NoMemory → Rose (D.wants desk.old) (D.wants desk.new) }
    ensures no_want { result ≢ end.NoMemory → D.wants desk.new ≡ D.wants desk.old }
{
    let number = module.number();
    for _ in rt.forever() {
        gate.pass(Point::Module(number.0));
        match &desk.post(Moment(0), Event::Fetch(number)) {
            Ok(Answer::Command(command)) => {
                let signal = module.act(command);
                match desk.post(Moment(0), Event::Signal(signal)) {
                    Ok(Answer::Done) => gate.pass(Point::Posted),
                    Ok(Answer::Ended) => return ActorEnd::Quit,
                    Err(PostFault::Full(_)) => return ActorEnd::Full,
                    Err(PostFault::NoMemory) => return ActorEnd::NoMemory,
                    _ => unreachable!(),
                }
            }
            Ok(Answer::Ended) => return ActorEnd::Quit,
            Err(PostFault::Again) => gate.pass(Point::NoCommand(number.0)),
            Err(PostFault::Full(_)) => return ActorEnd::Full,
            Err(PostFault::NoMemory) => return ActorEnd::NoMemory,
            _ => unreachable!(),
        }
    }
    unreachable!()
}
