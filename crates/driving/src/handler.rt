//! What becomes of the answers.
ghost use Rattle.driving.specs.Handling.{Handling};

use gem_ids::ModuleId;
use std::alloc::Global;
use tool_events::{Answer, SessionEnd};

/// Why an answer was not handled.
#[derive(Clone, Copy)]
pub enum Unhandled {
    /// There was no memory.
    NoMemory,
    /// Where the answers go, it was refused: a write failed, or took nothing of a piece.
    Refused,
}

/// Why the engine stops before its end.
#[derive(Clone, Copy)]
pub enum Stop {
    /// The next entry would not fit the history's limits.
    Full,
    /// There was no memory.
    NoMemory,
    /// An answer was refused where the answers go.
    Refused,
}

/// What becomes of the answers, each of which is handed on to `out`: they are printed, or kept to be answered.
pub trait AnswerHandler<O> {
    /// What handling does to `out`, by the module that the event lets fetch, the answer, and the session that ended with it.
    ghost handles: { Handling O };

    /// Hands on what an event was answered, with the module that it lets fetch, where it is such an event, and the session that
    /// ended with it, if one did. `NoMemory`: there was no memory for it. `Refused`: it was refused where it goes.
    fn handle(
        &mut self,
        alloc: Global,
        fetching: Option<ModuleId>,
        answer: Answer,
        ended: Option<SessionEnd>,
        out: &mut O,
    ) -> Result<(), Unhandled>
        ensures { handles fetching answer ended out.old out.new result };
}
