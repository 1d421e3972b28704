ghost use Rattle.std.specs.Prelude.{◌≡◌, ℕ, ◌++◌, ◌∷◌, [], List, IsTrue, Err, OnErr, IfOk};
ghost use Rattle.tool_events.specs.Answering.{may_be_answered, may_wait};
ghost use Rattle.tool_events.specs.declared.answer.PostFault.TheVariants as fault;
ghost use Rattle.tool_events.specs.declared.entry.Post.{Post};
ghost use Rattle.tool_events.specs.Posts.{Rises, is_full, is_want, last_bytes};

use crate::answer::{Answer, PostFault};
use crate::event::Event;
use gem_ids::Moment;

/// Takes events one at a time, and answers each.
pub trait Desk {
    /// The posts that were answered `Ok`, the oldest first, each with its answer.
    ghost posts: { Self → List Post };

    /// How often a post was answered `Full`.
    ghost fulls: { Self → ℕ };

    /// How often a post was answered `NoMemory`.
    ghost wants: { Self → ℕ };

    /// The bytes of text of the last post that was answered `Full`.
    ghost full_bytes: { Self → ℕ };

    /// Posts an event at a moment. `LinkUp` is answered with the session's number, `Take` with a frame, `Oper` with
    /// whether it was accepted, which `Quit` always is, `Fetch` with a command, and `Listen` with nothing but `Ended`; the others with `Done`.
    /// Each may be answered `Ended` in place of that. `Again`: it has to wait, as only `Take`, `Fetch`, `Tick`, `Listen`
    /// and `Watch` do. `Full`: the history takes no more. Then, and after want of memory, nothing was recorded.
    fn post(&mut self, at: Moment, event: Event) -> Result<Answer, PostFault>
        ensures answer { IfOk result (λ answer. IsTrue (may_be_answered event answer)) }
        ensures waits { result ≡ Err fault.Again → IsTrue (may_wait event) }
        ensures recorded { IfOk result (λ answer. posts self.new ≡ posts self.old ++ record { at = at; event = event; answer = answer } ∷ []) }
        ensures unrecorded { OnErr result (posts self.new ≡ posts self.old) }
        ensures fulls { Rises (is_full result) (fulls self.old) (fulls self.new) }
        ensures wants { Rises (is_want result) (wants self.old) (wants self.new) }
        ensures full_bytes { full_bytes self.new ≡ last_bytes result event (full_bytes self.old) };
}
