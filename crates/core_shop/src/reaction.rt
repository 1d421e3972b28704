//! What an event did.

ghost use Rattle.std.specs.Prelude.{◌≡◌, Some, None};

use tool_events::{Answer, SessionEnd};

/// What an event is answered, and the session that it ended, if it ended one.
#[derive(Drop)]
pub struct Reaction {
    pub answer: Answer,
    pub ended: Option<SessionEnd>,
}

impl Reaction {
    /// An answer, where no session ended.
    pub fn answered(answer: Answer) -> Reaction
        ensures { result ≡ record { answer = answer; ended = None } }
    {
        Reaction {
            answer,
            ended: None,
        }
    }

    /// An answer, where this session ended.
    pub fn ended(answer: Answer, end: SessionEnd) -> Reaction
        ensures { result ≡ record { answer = answer; ended = Some end } }
    {
        Reaction {
            answer,
            ended: Some(end),
        }
    }
}
