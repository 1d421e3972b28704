//! The core under a turnstile.

ghost use Rattle.std.specs.Prelude.{◌≡◌, ℕ, ◌<◌, ◌≤◌, [], ◌∷◌, ◌++◌, List, length, true, false, None, Err, IfOk, OnErr, IsErrOf};
ghost use mathlib.Core.List.{IsPrefix};
ghost use Rattle.tool_lock.specs.Passes.{pass_number, front, mine};
ghost use Rattle.tool_lock.specs.Turned.{own};
ghost use Rattle.tool_lock.specs.Ends.{AreKnown};
ghost use Rattle.tool_events.specs.declared.answer.PostFault.TheVariants as PostFault;
ghost use Rattle.tool_events.specs.Configs.{IsConfig};
ghost use Rattle.gem_model.specs.State.{State};
ghost use Rattle.gem_model.specs.Step.{step};
ghost use Rattle.history_laws.specs.Recorded.{Recorded};
ghost use Rattle.gem_model.specs.Sizes.{is_full};
ghost use Rattle.shared_tool.specs.Posts.{posted, posted_in, entries_of};
ghost use Rattle.shared_tool.specs.Chairs.{seats_of, config_of, IsChairOf, AreChairsOf, AreSeated};
ghost use Rattle.shared_tool.specs.declared.posted.Posted.{Posted};

use crate::held::Held;
use gem_ids::Moment;
use history_laws::Recorder;
use std::alloc::{AllocError, Global};
use std::sync::Wait;
use tool_events::{Answer, Event, PostFault};
use tool_lock::{Kept, Pass, Turnstile};

/// Memory ran out.
pub type NoMemory = AllocError;

/// The right to post. Contracts see its number, which is the seat of its entries; its front, which is the history with its answers
/// as it was at the end of the chair's last turn, and empty before the first; and `mine`, those of it that the chair posted.
pub type Chair<C> = Pass<Held<C>>;

/// The tool, shared by chairs: `Shared<Held<C>>`. What stands under the turnstile is a parameter, as in `Sitting`.
#[derive(Drop)]
pub struct Shared<V: Kept + Drop> {
    pub lock: Turnstile<V>,
}

impl<C: Recorder> Shared<Held<C>> {
    /// Shares a core whose history is empty among so many chairs, at least one, numbered from 0 in the order in which they are
    /// given. `NoMemory` where there is no room for them; the core is dropped then.
    pub fn open(
        alloc: Global,
        core: C,
        seats: u32,
    ) -> Result<(Shared<Held<C>>, Vec<Chair<C>>), NoMemory>
        requires seats { 0 < seats }
        requires fresh { (C.view core).history ≡ [] }
        requires bounds { IsConfig (C.view core).config }
        ensures seats { IfOk result (λ t. (seats_of t.0 ≡ seats) × (length t.1.items ≡ seats)) }
        ensures config { IfOk result (λ t. config_of t.0 ≡ (C.view core).config) }
        ensures chairs { IfOk result (λ t. AreSeated t.0 t.1.items) }
    {
        let (lock, chairs) = Turnstile::open(alloc, Held::new(core), seats)?;
        Ok((Shared { lock }, chairs))
    }

    /// Posts an event, with this moment, in one turn of the chair, for which it waits. It is answered as by `Recorder::apply` in the state
    /// of that turn: the answer, `Again` where the event has no step there, `Full` where the history takes it no more. `NoMemory`
    /// where there was no memory, and at every later post of any chair.
    pub fn post<W: Wait>(
        &self,
        rt: &W,
        alloc: Global,
        chair: &mut Chair<C>,
        at: Moment,
        event: Event,
    ) -> Result<Answer, PostFault>
        requires chair { IsChairOf self.now chair.old }
        // It stays a chair of this tool, of the same number.
        ensures chair { IsChairOf self.now chair.new }
        ensures number { pass_number chair.new ≡ pass_number chair.old }
        // Its front goes on, and all that is recorded holds of it.
        ensures later { IsPrefix (front chair.old) (front chair.new) }
        ensures recorded { (g : State) × Recorded (config_of self.now) (entries_of (front chair.new)) g
            × (front chair.new ≡ posted_in (config_of self.now) (entries_of (front chair.new))) }
        // What is answered is the last entry of the front, for which there was room, and the one that is new among its own.
        ensures last { IfOk result (λ answer. (before : List Posted)
            × (front chair.new ≡ before ++ posted (pass_number chair.old) at.0 event answer ∷ [])
            × (is_full (config_of self.now) (entries_of before) event ≡ false)) }
        ensures mine { IfOk result (λ answer. mine chair.new ≡ mine chair.old ++ posted (pass_number chair.old) at.0 event answer ∷ []) }
        // What is refused leaves no entry.
        ensures refused { OnErr result (mine chair.new ≡ mine chair.old) }
        ensures again { IsErrOf result PostFault.Again → (g : State) × Recorded (config_of self.now) (entries_of (front chair.new)) g
            × (step g at.0 event ≡ None) }
        ensures full { (n : ℕ) → IsErrOf result (PostFault.Full n) → (n ≡ length (front chair.new))
            × (is_full (config_of self.now) (entries_of (front chair.new)) event ≡ true) }
    {
        self.lock.turn(
            rt,
            chair,
            |held, number| held.apply(alloc, number, at, event),
        )
    }

    /// Gives the core, once all chairs are handed in, in any order. Its history begins with each chair's front, the entries of each
    /// chair's number there are those that it posted, and no entry has a number that no chair has. Takes no memory, and refuses
    /// nothing.
    pub fn close(self, chairs: Vec<Chair<C>>) -> C
        requires all { length chairs.items ≡ seats_of self }
        requires own { AreChairsOf self chairs.items }
        ensures config { (C.view result).config ≡ config_of self }
        ensures recorded { Recorded (C.view result).config (C.view result).history (C.view result).state }
        ensures known { AreKnown (λ e. e.seat) (posted_in (C.view result).config (C.view result).history) chairs.items }
        ensures others { (k : ℕ) → seats_of self ≤ k → own (λ e. e.seat) k (posted_in (C.view result).config (C.view result).history) ≡ [] }
    {
        let Held { core } = self.lock.close(chairs);
        core
    }
}
