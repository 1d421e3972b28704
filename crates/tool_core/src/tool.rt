//! The core: the plant and the history that led to it.
ghost use Rattle.std.specs.Prelude.{ℕ, ◌≡◌, ◌≤◌, ◌+◌, ◌^◌, ◌<◌, ◌↔◌, [], ◌∷◌, ◌++◌, length, IsTrue, true, false, ◌&&◌, ◌||◌, not, nat_le, nat_lt, Some, None, Ok, Err, OnOk, OnErr, IfOk, IfSome, IsErrOf, if◌then◌else◌, vec_len, vec_capacity};
ghost use Rattle.history_parts.specs.Counts.{count_of};
ghost use Rattle.tool_events.specs.declared.answer.PostFault.TheVariants as PostFault;
ghost use Rattle.tool_events.specs.declared.event.SessionEnd.{SessionEnd};
ghost use Rattle.tool_events.specs.Configs.{IsConfig};
ghost use Rattle.tool_events.specs.Posts as posts;
ghost use Rattle.core_shop.specs.Reactions.{done};
ghost use Rattle.tool_events.specs.Sizes.{event_bytes};
ghost use Rattle.note_line.specs.Line.{fate_of};
ghost use Rattle.gem_model.specs.State.{opening, is_up, is_session_up};
ghost use Rattle.gem_model.specs.Step.{Outcome, step};
ghost use Rattle.gem_model.specs.Valid.{Valid};
ghost use Rattle.gem_model.specs.Signals.{module_of};
ghost use Rattle.robot_moves.specs.Modules.{fetched_number};
ghost use Rattle.history_laws.specs.Recorded.{Recorded};
ghost use Rattle.gem_model.specs.Sessions.{session_count, session_end, session_out};
ghost use Rattle.gem_model.specs.Sizes.{bytes_of, counted, is_full};
ghost use Rattle.history_parts.specs.Totals.{totals_of};

use crate::react::must_wait;
use crate::stepped::take_event;
use core_shop::Reaction;
use core_state::Plant;
use event_reports::Values;
use gem_ids::{CmdNo, ModuleId, Moment, Text80};
use history_laws::Recorder;
use history_parts::{
    Entries, SessionCounts, Totals, add_end, add_taken, cause_at, event_bytes, make_room,
};
use item_model::{Item, NoMemory};
use note_line::Fate;
use std::alloc::{AllocError, Global};
use std::marker::Model;
use tool_events::{Answer, Config, Entry, Event, PostFault, SessionCause, SessionEnd};

/// The plant, in a box, so that a core that is handed on is small. How it is dropped is written out: so it is proved here alone, and
/// not again wherever a core is dropped.
struct BoxedPlant {
    plant: Box<Plant>,
}

impl Drop for BoxedPlant {
    fn drop(self) {
        let BoxedPlant { plant: _plant } = self;
    }
}

/// The tool, with its history. Contracts see its configuration, the state that its history leads to, the history, and
/// whether it can go on. The state is that of the plant while the core is whole.
#[derive(Drop)]
pub struct Core {
    config: Config,
    boxed: BoxedPlant,
    entries: Vec<Entry>,
    ends: Vec<SessionEnd>,
    written: SessionCounts,
    bytes: u64,
    sessions: u64,
    totals: Totals,
    is_up: bool,
    is_whole: bool,
}

impl Model for Core {
    ghost use Rattle.history_parts.specs.CoreView.{CoreView};

    ghost Value = { CoreView };

    ghost use Rattle.history_parts.specs.CoreInside.{state_of, Replays};

    ghost view = { λ c. record { config = c.config; state = state_of c.config c.entries.items; history = c.entries.items; is_whole = c.is_whole } };

    ghost invariant = { λ c. Replays c.config c.boxed.plant.value c.entries.items c.ends.items c.written c.bytes c.sessions c.totals c.is_up c.is_whole };
}

/// Makes room for one more entry, for the end of a session, and for the count of the session that is up.
fn make_space(
    entries: &mut Vec<Entry>,
    ends: &mut Vec<SessionEnd>,
    written: &mut SessionCounts,
    up: Option<u64>,
) -> Result<(), AllocError>
    ensures entries { entries.new.items ≡ entries.old.items }
    ensures ends { ends.new.items ≡ ends.old.items }
    ensures counts { (k : ℕ) → count_of written.new k ≡ count_of written.old k }
    ensures for_entry { OnOk result (vec_len entries.new < vec_capacity entries.new) }
    ensures for_end { OnOk result (vec_len ends.new < vec_capacity ends.new) }
    ensures for_session { OnOk result (IfSome up (λ k. k ≤ length written.new)) }
{
    entries.reserve(1)?;
    ends.reserve(1)?;
    make_room(written, up)
}

impl Values for Core {
    ghost use Rattle.gem_model.specs.Values.{value_of as value};

    ghost value_of = { λ c vid. value (record { object = []; row = 0 }) c.state vid };

    /// The value of a variable outside a firing. A core that isn't whole answers `NoMemory`.
    fn value(&self, alloc: Global, vid: u32) -> Result<Option<Item>, NoMemory> {
        if !self.is_whole {
            return Err(AllocError);
        }
        let seen = self.boxed.plant.seen();
        seen.showing(Text80::empty(), 0).value(alloc, vid)
    }
}

impl Core {
    /// Whether the history takes no event with so much text, in bytes, any more.
    fn is_full(&self, bytes: u64) -> bool
        requires { bytes < 2 ^ 63 }
        ensures { result ≡ (nat_le self.now.config.max_entries (length self.now.history) || nat_lt self.now.config.max_bytes (bytes_of self.now.history + bytes)) }
    {
        self.entries.len() as u64 >= self.config.max_entries
            || self.bytes + bytes > self.config.max_bytes
    }

    /// Does an event for which there is room, and adds it to the history. What it did is told in the reaction, which says before that
    /// it was done: an answer is large, and so it is not handed on and on. False: the event has to wait. After want of memory the
    /// core isn't whole.
    fn record(
        &mut self,
        alloc: Global,
        seat: u32,
        at: Moment,
        event: Event,
        reaction: &mut Reaction,
    ) -> Result<bool, AllocError>
        requires room { is_full self.old.config self.old.history event ≡ false }
        requires whole { self.old.is_whole ≡ true }
        requires fresh { reaction.old ≡ done }
        ensures step { IfOk result (λ goes. goes ≡ true → (o : Outcome) × (step self.old.state at.0 event ≡ Some o)
            × (o.answer ≡ reaction.new.answer) × (self.new.state ≡ o.after)) }
        ensures entry { IfOk result (λ goes. goes ≡ true → self.new.history
            ≡ self.old.history ++ record { seat = seat; at = at; event = event } ∷ []) }
        ensures again { IfOk result (λ goes. goes ≡ false → step self.old.state at.0 event ≡ None) }
        ensures waits { step self.old.state at.0 event ≡ None → result ≡ Ok false }
        ensures unposted { IfOk result (λ goes. goes ≡ false → self.new ≡ self.old) }
        ensures unchanged { OnErr result (self.new ≡ record self.old { is_whole = false }) }
        ensures config { self.new.config ≡ self.old.config }
        ensures whole { OnOk result (self.new.is_whole ≡ true) }
        ensures recorded { Recorded self.new.config self.new.history self.new.state }
    {
        // Asked first, so that want of memory is not told of an event that has to wait.
        if must_wait(&self.boxed.plant, at, &event) {
            return Ok(false);
        }
        let up = self.session_up();
        // What an event that finds no memory leaves of the plant counts for nothing.
        self.is_whole = false;
        make_space(&mut self.entries, &mut self.ends, &mut self.written, up)?;
        let Ok(told) = take_event(
            &mut self.boxed.plant,
            alloc,
            at,
            &event,
            &self.totals,
            reaction,
        ) else {
            return Err(AllocError);
        };
        add_taken(&mut self.written, &event, &reaction.answer);
        self.bytes += event_bytes(&event);
        self.sessions = told.sessions;
        self.totals = told.totals;
        self.is_up = told.is_up;
        self.entries.push_reserved(Entry { seat, at, event });
        add_end(&mut self.ends, reaction.ended);
        self.is_whole = true;
        Ok(true)
    }

    /// What became of the note of this number: it waits, is open, or has ended, and how. `None`: no note has the number. The
    /// core is whole.
    pub fn fate(&self, number: u64) -> Option<Fate>
        requires { self.now.is_whole ≡ true }
        ensures { result ≡ fate_of number self.now.state.line.told }
    {
        self.boxed.plant.fate(number)
    }
}

impl Recorder for Core {
    ghost view = { λ c. c };

    fn open(alloc: Global, config: &Config) -> Result<Core, AllocError> {
        Ok(Core {
            config: *config,
            boxed: BoxedPlant {
                plant: Box::new(alloc, Plant::open(alloc, config)?)?,
            },
            entries: Vec::new(alloc),
            ends: Vec::new(alloc),
            written: SessionCounts::none(alloc),
            bytes: 0,
            sessions: 0,
            totals: Totals {
                sessions: 0,
                notes: 0,
                answered: 0,
                dropped: 0,
                done: 0,
                completed: 0,
                substrates: 0,
            },
            is_up: false,
            is_whole: true,
        })
    }

    fn history(&self) -> &[Entry] {
        self.entries.as_slice()
    }

    fn close(self) -> Entries {
        let Core { entries, .. } = self;
        Entries::from_vec(entries)
    }

    fn is_whole(&self) -> bool {
        self.is_whole
    }

    fn module_count(&self) -> usize {
        self.boxed.plant.module_count()
    }

    fn session_end(&self, session: u64) -> Option<SessionCause> {
        let ends = self.ends.as_slice();
        if session == 0 {
            return None;
        }
        cause_at(ends, (session - 1) as usize)
    }

    fn totals(&self) -> Totals {
        self.totals
    }

    fn bytes(&self) -> u64 {
        self.bytes
    }

    fn session_up(&self) -> Option<u64> {
        self.is_up.then_some(self.sessions)
    }

    fn is_session_up(&self, session: u64) -> bool {
        self.is_up && self.sessions == session
    }

    fn is_quitting(&self) -> bool {
        self.boxed.plant.is_quitting()
    }

    fn fetched_number(&self, m: ModuleId) -> Option<CmdNo> {
        self.boxed.plant.fetched_number(m)
    }

    fn session_count(&self) -> u64 {
        self.sessions
    }

    fn session_bytes(&self, session: u64) -> u64 {
        self.written.of(session)
    }

    fn idle(&self, at: Moment, event: &Event) -> bool {
        must_wait(&self.boxed.plant, at, event)
    }

    fn apply(
        &mut self,
        alloc: Global,
        seat: u32,
        at: Moment,
        event: Event,
    ) -> Result<Answer, PostFault> {
        if self.is_full(event_bytes(&event)) {
            return Err(PostFault::Full(self.entries.len() as u64));
        }
        if !self.is_whole {
            return Err(PostFault::NoMemory);
        }
        let mut reaction = Reaction::answered(Answer::Done);
        match self.record(alloc, seat, at, event, &mut reaction) {
            Ok(true) => Ok(reaction.answer),
            Ok(false) => Err(PostFault::Again),
            Err(_) => Err(PostFault::NoMemory),
        }
    }
}
