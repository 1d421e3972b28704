//! What stands under the turnstile.

ghost use Rattle.std.specs.Prelude.{◌≡◌, ℕ, [], ◌∷◌, ◌++◌, true, false, Err, IfOk, OnErr, IsErrOf, length};
ghost use Rattle.tool_events.specs.declared.answer.PostFault.TheVariants as PostFault;
ghost use Rattle.tool_events.specs.Configs.{IsConfig};
ghost use Rattle.tool_events.specs.Posts as posts;
ghost use Rattle.gem_model.specs.State.{opening};
ghost use Rattle.gem_model.specs.Step.{Outcome, step};
ghost use Rattle.gem_model.specs.Run.{after_all};
ghost use Rattle.gem_model.specs.Sizes.{is_full};
ghost use Rattle.shared_tool.specs.Posts.{is_run, posted, posted_in};

use gem_ids::Moment;
use history_laws::Recorder;
use std::alloc::Global;
use tool_events::{Answer, Event, PostFault};

/// The core, with what is known of it: its configuration keeps its bounds, and its history is a run that leads to its state.
#[derive(Drop)]
pub struct Held<C: Recorder> {
    pub core: C,
    ghost bounded: { IsConfig (C.view core).config },
    ghost legal: { is_run (opening (C.view core).config) (C.view core).history ≡ true },
    ghost there: { after_all (opening (C.view core).config) (C.view core).history ≡ (C.view core).state },
}

impl<C: Recorder> Held<C> {
    // Holds a core whose history is empty.
    pub(crate) fn new(core: C) -> Held<C>
        requires { IsConfig (C.view core).config }
        ensures { result.core ≡ core }
    {
        // That it is recorded is said by its history.
        let _ = core.history();
        Held { core }
    }

    // Takes an event as `Recorder::apply` does, but that after want of memory every event is answered `NoMemory`.
    pub(crate) fn apply(
        &mut self,
        alloc: Global,
        seat: u32,
        at: Moment,
        event: Event,
    ) -> Result<Answer, PostFault>
        ensures config { (C.view self.new.core).config ≡ (C.view self.old.core).config }
        ensures step { IfOk result (λ answer. (o : Outcome) × (step (C.view self.old.core).state at.0 event ≡ Some o)
            × (o.answer ≡ answer) × ((C.view self.new.core).state ≡ o.after)) }
        ensures entry { IfOk result (λ answer. posted_in (C.view self.new.core).config (C.view self.new.core).history
            ≡ posted_in (C.view self.old.core).config (C.view self.old.core).history ++ posted seat at.0 event answer ∷ []) }
        ensures fits { IfOk result (λ answer. is_full (C.view self.old.core).config (C.view self.old.core).history event ≡ false) }
        ensures refused { OnErr result ((C.view self.new.core).history ≡ (C.view self.old.core).history) }
        ensures full { posts.is_full result ≡ true → is_full (C.view self.old.core).config (C.view self.old.core).history event ≡ true }
        ensures full_entries { (n : ℕ) → IsErrOf result (PostFault.Full n) → n ≡ length (C.view self.old.core).history }
        ensures again { IsErrOf result PostFault.Again → step (C.view self.old.core).state at.0 event ≡ None }
        ensures not_whole { (C.view self.old.core).is_whole ≡ false → result ≡ Err PostFault.NoMemory }
    {
        let Held { core } = self;
        if !core.is_whole() {
            return Err(PostFault::NoMemory);
        }
        core.apply(alloc, seat, at, event)
    }
}
