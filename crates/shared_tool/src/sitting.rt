//! A chair as a desk.

ghost use Rattle.std.specs.Prelude.{◌≡◌, ◌<◌, ◌^◌, ℕ};
ghost use Rattle.tool_lock.specs.Passes.{pass_number, mine};
ghost use Rattle.tool_lock.specs.Passes as passes;
ghost use Rattle.atomic_table.specs.Seated.{TableId};
ghost use Rattle.tool_events.specs.declared.config.Config.{Config};
ghost use Rattle.tool_events.specs.Sizes.{event_bytes};
ghost use Rattle.shared_tool.specs.Chairs.{config_of};
ghost use Rattle.shared_tool.specs.Seats.{table_of, IsChairAt, MayBeFull};
ghost use Rattle.shared_tool.specs.Nowhere.{no_table, no_config};

use crate::held::Held;
use crate::posted::Posted;
use crate::shared::{Chair, Shared};
use crate::standing::Standing;
use gem_ids::Moment;
use history_laws::Recorder;
use hsms_frame::Arrival;
use std::alloc::Global;
use std::marker::{Brand, Model, PhantomData};
use std::sync::Wait;
use tool_events::{Answer, Desk, Event, PostFault};
use tool_lock::{Kept, Pass};

/// Which chair of which tool: the table by which the chairs of the tool are known, the chair's number, and the configuration
/// under which the history began. An actor that is written for any desk forgets all of its desk but what `Desk` says; the type
/// of its `Sitting` keeps these. A call picks them where it passes `Brand`.
pub trait Place {
    ghost table: { TableId };

    ghost number: { ℕ };

    ghost config: { Config };
}

impl Place for Brand {
    ghost table = { no_table };

    ghost number = { 0 };

    ghost config = { no_config };
}

/// A chair with all that it needs to post: a desk. Contracts see the chair's front, the entries that are its own, and how many
/// posts were refused: as `Full`, with the bytes of text of the last of these, and for want of memory. What stands under the turnstile
/// is a parameter here, since a field can't have the type of a pass to what is generic itself; there is a desk for `Held` alone.
#[derive(Drop)]
pub struct Sitting<'a, W: Wait, J: Place, V: Kept<Entry = Posted, State = Standing> + Drop> {
    rt: &'a W,
    alloc: Global,
    shared: &'a Shared<V>,
    chair: Pass<V>,
    fulls: u64,
    wants: u64,
    full_bytes: u64,
    of: PhantomData<J>,
}

impl<'a, W: Wait, J: Place, V: Kept<Entry = Posted, State = Standing> + Drop> Model
    for Sitting<'a, W, J, V> {
    ghost use Rattle.std.specs.Prelude.{◌≡◌};
    ghost use Rattle.tool_lock.specs.Passes.{pass_number, start, front, mine};
    ghost use Rattle.shared_tool.specs.Seats.{Seated, table_of, IsChairAt, MayBeFull};

    ghost Value = { Seated };

    ghost view = { λ s. record {
      front = front s.chair;
      mine = mine s.chair;
      fulls = s.fulls;
      wants = s.wants;
      full_bytes = s.full_bytes;
    } };

    ghost invariant = { λ s. (table_of s.shared.now ≡ J.table) × ((V.opening (start s.shared.now.lock)).config ≡ J.config)
        × (pass_number s.chair ≡ J.number) × IsChairAt J.table J.config s.chair
        × MayBeFull J.config s.fulls s.full_bytes (front s.chair) };
}

impl<'a, W: Wait, J: Place, C: Recorder> Sitting<'a, W, J, Held<C>> {
    /// Sits on a chair of this tool. What it posts takes its memory from this allocator.
    pub fn sit(
        rt: &'a W,
        alloc: Global,
        shared: &'a Shared<Held<C>>,
        chair: Chair<C>,
    ) -> Sitting<'a, W, J, Held<C>>
        requires tool { (table_of shared.now ≡ J.table) × (config_of shared.now ≡ J.config) }
        requires chair { IsChairAt J.table J.config chair }
        requires number { pass_number chair ≡ J.number }
        ensures mine { result.mine ≡ mine chair }
    {
        Sitting {
            rt,
            alloc,
            shared,
            chair,
            fulls: 0,
            wants: 0,
            full_bytes: 0,
            of: PhantomData,
        }
    }

    /// Gives the chair back.
    pub fn into_chair(self) -> Chair<C>
        ensures chair { IsChairAt J.table J.config result }
        ensures number { pass_number result ≡ J.number }
        ensures mine { mine result ≡ self.entry.mine }
        // What was refused as Full says that the history, as far as the chair knows it, takes no such event any more.
        ensures full { MayBeFull J.config self.entry.fulls self.entry.full_bytes (passes.front result) }
    {
        let Sitting { chair, .. } = self;
        chair
    }
}

impl<W: Wait, J: Place, C: Recorder> Desk for Sitting<'_, W, J, Held<C>> {
    ghost use Rattle.shared_tool.specs.Seats.{posts_of};

    ghost posts = { λ s. posts_of s.mine };

    ghost fulls = { λ s. s.fulls };

    ghost wants = { λ s. s.wants };

    ghost full_bytes = { λ s. s.full_bytes };

    fn post(&mut self, at: Moment, event: Event) -> Result<Answer, PostFault> {
        let bytes = text_bytes(&event);
        let answer = self
            .shared
            .post(self.rt, self.alloc, &mut self.chair, at, event);
        match &answer {
            Ok(_) | Err(PostFault::Again) => {}
            Err(PostFault::Full(_)) => {
                self.fulls = self.fulls.saturating_add(1);
                self.full_bytes = bytes;
            }
            Err(PostFault::NoMemory) => self.wants = self.wants.saturating_add(1),
        }
        answer
    }
}

// The bytes of text that the event holds.
fn text_bytes(event: &Event) -> u64
    ensures { result ≡ event_bytes event.now }
{
    match event {
        Event::Host {
            arrival: Arrival::Frame(frame),
            ..
        } => frame.text.as_slice().len() as u64,
        _ => 0,
    }
}
