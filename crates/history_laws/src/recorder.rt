//! What takes events, and keeps them as its history.

ghost use Rattle.std.specs.Prelude.{◌≡◌, ◌≤◌, ◌<◌, ◌↔◌, ℕ, [], ◌∷◌, ◌++◌, length, true, false, ◌&&◌, not, Some, None, Err, OnOk, OnErr, IfOk, IfSome, IsErrOf, IsTrue, if◌then◌else◌};
ghost use Rattle.tool_events.specs.declared.answer.PostFault.TheVariants as PostFault;
ghost use Rattle.tool_events.specs.Configs.{IsConfig};
ghost use Rattle.tool_events.specs.Posts as posts;
ghost use Rattle.gem_model.specs.State.{opening, is_up, is_session_up};
ghost use Rattle.gem_model.specs.Step.{Outcome, step};
ghost use Rattle.gem_model.specs.Valid.{Valid};
ghost use Rattle.gem_model.specs.Signals.{module_of};
ghost use Rattle.robot_moves.specs.Modules.{fetched_number};
ghost use Rattle.gem_model.specs.Sessions.{session_count, session_end, session_out};
ghost use Rattle.gem_model.specs.Sizes.{bytes_of, counted, is_full};
ghost use Rattle.history_parts.specs.Totals.{totals_of};
ghost use Rattle.history_parts.specs.CoreView.{CoreView};
ghost use Rattle.history_laws.specs.Recorded.{Recorded};

use gem_ids::{CmdNo, ModuleId, Moment};
use history_parts::{Entries, Totals};
use std::alloc::{AllocError, Global};
use tool_events::{Answer, Config, Entry, Event, PostFault, SessionCause};

/// Takes events one at a time, answers each by the tables, and keeps them as its history. Contracts see what it is to its callers:
/// its configuration, the state that its history leads to, the history, and whether it can go on.
pub trait Recorder: Drop + Sized {
    ghost view: { Self → CoreView };

    /// One in the first state, with no history. The configuration keeps its bounds (docs/profile/configuration.md).
    fn open(alloc: Global, config: &Config) -> Result<Self, AllocError>
        requires { IsConfig config.now }
        ensures { IfOk result (λ it. view it ≡ record { config = config.now; state = opening config.now; history = []; is_whole = true }) };

    /// The history, the oldest entry first. All holds of it that `Recorded` lists. It is within the limits.
    fn history(&self) -> &[Entry]
        ensures history { result.now ≡ (view self.now).history }
        ensures recorded { Recorded (view self.now).config (view self.now).history (view self.now).state }
        ensures entries_fit { length (view self.now).history ≤ (view self.now).config.max_entries }
        ensures bytes_fit { bytes_of (view self.now).history ≤ (view self.now).config.max_bytes };

    /// Hands out the history, of which the same holds as of `history`.
    fn close(self) -> Entries
        ensures history { result ≡ (view self).history }
        ensures recorded { Recorded (view self).config (view self).history (view self).state }
        ensures entries_fit { length (view self).history ≤ (view self).config.max_entries }
        ensures bytes_fit { bytes_of (view self).history ≤ (view self).config.max_bytes };

    /// Whether it can go on: false exactly where an event was answered `NoMemory`.
    fn is_whole(&self) -> bool
        ensures whole { result ≡ (view self.now).is_whole };

    /// How many modules the tool has, 2 to 255. It can go on.
    fn module_count(&self) -> usize
        requires { (view self.now).is_whole ≡ true }
        ensures count { result ≡ length (view self.now).state.floor.modules }
        ensures few { result ≤ 255 };

    /// Why a session ended. None: it is up, or never came.
    fn session_end(&self, session: u64) -> Option<SessionCause>
        ensures { result ≡ session_end (opening (view self.now).config) (view self.now).history session };

    /// What is counted over the history. Takes no memory.
    fn totals(&self) -> Totals
        ensures { result ≡ totals_of (view self.now).config (view self.now).history };

    /// How much text the history holds, in bytes.
    fn bytes(&self) -> u64
        ensures { result ≡ bytes_of (view self.now).history };

    /// The session that is up. Sessions are numbered from 1.
    fn session_up(&self) -> Option<u64>
        ensures session { result ≡ (if is_up (view self.now).state then Some (view self.now).state.link.session else None) }
        ensures numbered { IfSome result (λ session. 0 < session) };

    /// Whether this session is up.
    fn is_session_up(&self, session: u64) -> bool
        ensures { result ≡ is_session_up (view self.now).state session };

    /// Whether the operator ended the run. It can go on.
    fn is_quitting(&self) -> bool
        requires { (view self.now).is_whole ≡ true }
        ensures { result ≡ (view self.now).state.quitting };

    /// The number of the open command of a module that was fetched. `None` exactly where it has none, or is no module of the
    /// tool. It can go on.
    fn fetched_number(&self, m: ModuleId) -> Option<CmdNo>
        requires { (view self.now).is_whole ≡ true }
        ensures { result ≡ fetched_number (module_of m.0 (view self.now).state) };

    /// How many sessions came. They are numbered from 1.
    fn session_count(&self) -> u64
        ensures { result ≡ session_count (opening (view self.now).config) (view self.now).history };

    /// How many bytes went out in a session: those of the frames that its writer took. The count stands still at the
    /// greatest number of 64 bits. 0: nothing went out, or the session never came.
    fn session_bytes(&self, session: u64) -> u64
        ensures { result ≡ counted (length (session_out (opening (view self.now).config) (view self.now).history session)) };

    /// Whether an event has to wait that is posted at this moment. It can go on.
    fn idle(&self, at: Moment, event: &Event) -> bool
        requires { (view self.now).is_whole ≡ true }
        ensures waits { IsTrue result ↔ (step (view self.now).state at.0 event.now ≡ None) }
        // The state keeps what is true of each state that a history leads to.
        ensures valid { Valid (view self.now).state };

    /// Takes an event that this seat posts at this moment, answers it, and adds it to the history. `Full`: the history
    /// takes no more entries, or not so much text. `Again`: the event has to wait, which takes no memory. After want of
    /// memory the history is as before, and every later event that is not answered `Full` is answered `NoMemory`.
    fn apply(
        &mut self,
        alloc: Global,
        seat: u32,
        at: Moment,
        event: Event,
    ) -> Result<Answer, PostFault>
        ensures step { IfOk result (λ answer. (o : Outcome) × (step (view self.old).state at.0 event ≡ Some o)
            × (o.answer ≡ answer) × ((view self.new).state ≡ o.after)) }
        ensures entry { OnOk result ((view self.new).history
            ≡ (view self.old).history ++ record { seat = seat; at = at; event = event } ∷ []) }
        ensures full { posts.is_full result ≡ is_full (view self.old).config (view self.old).history event }
        ensures full_entries { (n : ℕ) → IsErrOf result (PostFault.Full n) → n ≡ length (view self.old).history }
        ensures not_whole { (view self.old).is_whole ≡ false → is_full (view self.old).config (view self.old).history event ≡ false → result ≡ Err PostFault.NoMemory }
        ensures again { IsErrOf result PostFault.Again → step (view self.old).state at.0 event ≡ None }
        ensures waits { (view self.old).is_whole ≡ true → is_full (view self.old).config (view self.old).history event ≡ false
            → step (view self.old).state at.0 event ≡ None → result ≡ Err PostFault.Again }
        ensures config { (view self.new).config ≡ (view self.old).config }
        ensures whole { (view self.new).is_whole ≡ ((view self.old).is_whole && not (posts.is_want result)) }
        ensures unchanged { OnErr result (view self.new ≡ record (view self.old) { is_whole = (view self.new).is_whole }) }
        // Before the call and after it, all that is recorded holds of the history.
        ensures before { Recorded (view self.old).config (view self.old).history (view self.old).state }
        ensures recorded { Recorded (view self.new).config (view self.new).history (view self.new).state };
}
