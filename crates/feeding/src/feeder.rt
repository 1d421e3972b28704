//! One line after another: what each says is put in, in the session that is up.
ghost use Rattle.std.specs.Prelude.{◌≡◌, ◌<◌, ◌≤◌, [], length, slice_get, true, Some, Ok, IfOk, OnOk, OnErr};
ghost use Rattle.tool_events.specs.Configs.{IsConfig};
ghost use Rattle.gem_model.specs.State.{opening, is_session_up};
ghost use Rattle.history_laws.specs.Recorded.{Recorded};
ghost use Rattle.gem_model.specs.Sizes.{bytes_of};
ghost use Rattle.line_grammar.specs.declared.line.Line.TheVariants as line;
ghost use Rattle.line_grammar.specs.Reading.{feed_line_of};
ghost use Rattle.gem_model.specs.Feed.{Reading, first_reading};
ghost use Rattle.line_feeding.specs.Going.{seen};
ghost use Rattle.line_feeding.specs.Reads.{AddsLine};

use crate::messages::take_messages;
use crate::printer::{Printer, input};
use driving::AT_ONCE;
use gem_ids::Moment;
use history_laws::Recorder;
use history_parts::{Entries, SessionCounts};
use hsms_frame::{Arrival, Cutter};
use line_feeding::{Halt, cut_bytes, ends_run, quit_behind};
use outside::Sink;
use std::alloc::{AllocError, Global};
use std::mem::replace;
use tool_events::{Config, Event, OperCmd, SessionCause, Signal, TEXT_BYTES};
use tool_texts::{Line, LineFault, read_feed_line, read_host_line};

/// The core, the cutter of the session that is up, and the bytes that came in each session.
#[derive(Drop)]
pub struct Feeder<C: Recorder> {
    pub core: C,
    pub cutter: Cutter,
    pub reads: SessionCounts,
    // Room that is used again from line to line: for the bytes of the host, and for what arrives with them.
    bytes: Vec<u8>,
    arrivals: Vec<Arrival>,
    printer: Printer,
}

impl<C: Recorder> Feeder<C> {
    ghost use Rattle.feeding.specs.Views.{feeder_seen};
    ghost use Rattle.feeding.specs.Reading.{IsReading, TakesLine, TreatsLine};

    /// The core in its first state.
    pub fn open(alloc: Global, config: &Config) -> Result<Feeder<C>, AllocError>
        requires { IsConfig config.now }
        ensures core { IfOk result (λ feeder. C.view feeder.core ≡ record { config = config.now; state = opening config.now; history = []; is_whole = true }) }
        ensures reading { IfOk result (λ feeder. IsReading (first_reading config.now) (C.view feeder.core) feeder.cutter) }
        ensures reads { IfOk result (λ feeder. feeder.reads ≡ []) }
    {
        let cutter = Cutter::new(alloc, TEXT_BYTES)?;
        Ok(Feeder {
            core: C::open(alloc, config)?,
            cutter,
            reads: SessionCounts::none(alloc),
            bytes: Vec::new(alloc),
            arrivals: Vec::new(alloc),
            printer: Printer::new(alloc),
        })
    }

    /// Hands out the history.
    pub fn into_history(self) -> Entries
        ensures history { result ≡ (C.view self.core).history }
        ensures recorded { Recorded (C.view self.core).config (C.view self.core).history (C.view self.core).state }
        ensures entries_fit { length (C.view self.core).history ≤ (C.view self.core).config.max_entries }
        ensures bytes_fit { bytes_of (C.view self.core).history ≤ (C.view self.core).config.max_bytes }
    {
        let Feeder { core, .. } = self;
        core.close()
    }

    /// A link comes up. A new session begins with no bytes.
    fn link_up<K: Sink>(&mut self, alloc: Global, out: &mut K) -> Result<(), Halt>
        requires whole { (C.view self.old.core).is_whole ≡ true }
        ensures takes { (r : Reading) → IsReading r (C.view self.old.core) self.old.cutter
            → TakesLine r line.Up (feeder_seen C.view self.old) (feeder_seen C.view self.new) (seen K.held K.faults K.refusals out.old) (seen K.held K.faults K.refusals out.new) result }
        ensures whole { OnOk result ((C.view self.new.core).is_whole ≡ true) }
    {
        if self.core.session_up().is_some() {
            return input(
                alloc,
                &mut self.core,
                AT_ONCE,
                Event::LinkUp,
                &mut self.printer,
                out,
            );
        }
        let Ok(cutter) = Cutter::new(alloc, TEXT_BYTES) else {
            return Err(Halt::NoMemory);
        };
        self.cutter = cutter;
        input(
            alloc,
            &mut self.core,
            AT_ONCE,
            Event::LinkUp,
            &mut self.printer,
            out,
        )
    }

    /// The peer closes the link. Without a session nothing happens.
    fn link_down<K: Sink>(&mut self, alloc: Global, out: &mut K) -> Result<(), Halt>
        requires whole { (C.view self.old.core).is_whole ≡ true }
        ensures takes { (r : Reading) → IsReading r (C.view self.old.core) self.old.cutter
            → TakesLine r line.Down (feeder_seen C.view self.old) (feeder_seen C.view self.new) (seen K.held K.faults K.refusals out.old) (seen K.held K.faults K.refusals out.new) result }
        ensures whole { OnOk result ((C.view self.new.core).is_whole ≡ true) }
    {
        let Some(session) = self.core.session_up() else {
            return Ok(());
        };
        let cause = SessionCause::PeerEnd;
        input(
            alloc,
            &mut self.core,
            AT_ONCE,
            Event::LinkDown { session, cause },
            &mut self.printer,
            out,
        )
    }

    /// The clock is looked at, at this moment. Where nothing is due nothing happens.
    fn look<K: Sink>(&mut self, alloc: Global, at: Moment, out: &mut K) -> Result<(), Halt>
        requires whole { (C.view self.old.core).is_whole ≡ true }
        ensures takes { (r : Reading) → IsReading r (C.view self.old.core) self.old.cutter
            → TakesLine r (line.Moment at) (feeder_seen C.view self.old) (feeder_seen C.view self.new) (seen K.held K.faults K.refusals out.old) (seen K.held K.faults K.refusals out.new) result }
        ensures whole { OnOk result ((C.view self.new.core).is_whole ≡ true) }
    {
        if self.core.idle(at, &Event::Tick) {
            return Ok(());
        }
        input(
            alloc,
            &mut self.core,
            at,
            Event::Tick,
            &mut self.printer,
            out,
        )
    }

    /// Counts bytes that came in the session that is up.
    fn count_bytes(&mut self, session: u64, bytes: &[u8]) -> Result<(), AllocError>
        requires up { is_session_up (C.view self.old.core).state session ≡ true }
        requires numbered { 0 < session }
        ensures counts { OnOk result ((r : Reading) → r.state ≡ (C.view self.old.core).state
            → AddsLine r (line.Bytes bytes.now) self.old.reads self.new.reads) }
        ensures core { self.new.core ≡ self.old.core }
        ensures cutter { self.new.cutter ≡ self.old.cutter }
        ensures none { OnErr result (self.new ≡ self.old) }
    {
        self.reads.make_room(session)?;
        self.reads.add(session, bytes.len() as u64);
        Ok(())
    }

    /// Bytes of the host come. Without a session they are dropped.
    fn take_bytes<K: Sink>(&mut self, alloc: Global, bytes: &[u8], out: &mut K) -> Result<(), Halt>
        requires whole { (C.view self.old.core).is_whole ≡ true }
        ensures takes { (r : Reading) → IsReading r (C.view self.old.core) self.old.cutter
            → TakesLine r (line.Bytes bytes.now) (feeder_seen C.view self.old) (feeder_seen C.view self.new) (seen K.held K.faults K.refusals out.old) (seen K.held K.faults K.refusals out.new) result }
        ensures whole { OnOk result ((C.view self.new.core).is_whole ≡ true) }
    {
        let Some(session) = self.core.session_up() else {
            return Ok(());
        };
        let Ok(()) = self.count_bytes(session, bytes) else {
            return Err(Halt::NoMemory);
        };
        self.arrivals.clear();
        let Ok(short) = cut_bytes(alloc, &mut self.cutter, bytes, &mut self.arrivals) else {
            return Err(Halt::NoMemory);
        };
        take_messages(
            alloc,
            &mut self.core,
            session,
            &mut self.arrivals,
            short,
            &mut self.printer,
            out,
        )
    }

    /// An operator wants something. The command that ends the run halts it.
    fn operate<K: Sink>(&mut self, alloc: Global, command: OperCmd, out: &mut K) -> Result<(), Halt>
        requires whole { (C.view self.old.core).is_whole ≡ true }
        ensures takes { (r : Reading) → IsReading r (C.view self.old.core) self.old.cutter
            → TreatsLine r (Ok (line.Oper command)) (feeder_seen C.view self.old) (feeder_seen C.view self.new) (seen K.held K.faults K.refusals out.old) (seen K.held K.faults K.refusals out.new) result }
        ensures whole { OnOk result ((C.view self.new.core).is_whole ≡ true) }
    {
        let quits = ends_run(&command);
        let taken = input(
            alloc,
            &mut self.core,
            AT_ONCE,
            Event::Oper(command),
            &mut self.printer,
            out,
        );
        if quits { quit_behind(taken) } else { taken }
    }

    /// The equipment tells something.
    fn signal<K: Sink>(&mut self, alloc: Global, signal: Signal, out: &mut K) -> Result<(), Halt>
        requires whole { (C.view self.old.core).is_whole ≡ true }
        ensures takes { (r : Reading) → IsReading r (C.view self.old.core) self.old.cutter
            → TakesLine r (line.Signal signal) (feeder_seen C.view self.old) (feeder_seen C.view self.new) (seen K.held K.faults K.refusals out.old) (seen K.held K.faults K.refusals out.new) result }
        ensures whole { OnOk result ((C.view self.new.core).is_whole ≡ true) }
    {
        input(
            alloc,
            &mut self.core,
            AT_ONCE,
            Event::Signal(signal),
            &mut self.printer,
            out,
        )
    }

    /// Takes a line that begins with `H`.
    fn take_host_line<K: Sink>(
        &mut self,
        alloc: Global,
        line: &[u8],
        out: &mut K,
    ) -> Result<(), Halt>
        requires whole { (C.view self.old.core).is_whole ≡ true }
        requires host { slice_get line.now 0 ≡ Some 72 }
        ensures takes { (r : Reading) → IsReading r (C.view self.old.core) self.old.cutter
            → TreatsLine r (feed_line_of line.now) (feeder_seen C.view self.old) (feeder_seen C.view self.new) (seen K.held K.faults K.refusals out.old) (seen K.held K.faults K.refusals out.new) result }
        ensures whole { OnOk result ((C.view self.new.core).is_whole ≡ true) }
    {
        let mut bytes = replace(&mut self.bytes, Vec::new(alloc));
        match read_host_line(line, &mut bytes) {
            Ok(()) => {
                let taken = self.take_bytes(alloc, bytes.as_slice(), out);
                self.bytes = bytes;
                taken
            }
            Err(LineFault::Place(place)) => Err(Halt::Line(place)),
            Err(LineFault::NoMemory) => Err(Halt::NoMemory),
        }
    }

    /// Takes one line, without its line feed.
    pub fn take_line<K: Sink>(
        &mut self,
        alloc: Global,
        line: &[u8],
        out: &mut K,
    ) -> Result<(), Halt>
        requires whole { (C.view self.old.core).is_whole ≡ true }
        ensures takes { (r : Reading) → IsReading r (C.view self.old.core) self.old.cutter
            → TreatsLine r (feed_line_of line.now) (feeder_seen C.view self.old) (feeder_seen C.view self.new) (seen K.held K.faults K.refusals out.old) (seen K.held K.faults K.refusals out.new) result }
        ensures whole { OnOk result ((C.view self.new.core).is_whole ≡ true) }
    {
        if let Some(b'H') = line.first() {
            return self.take_host_line(alloc, line, out);
        }
        match read_feed_line(alloc, line) {
            Ok(Line::Skip) => Ok(()),
            // No line of `feed` waits for a port.
            Ok(Line::Watch(_)) => Ok(()),
            Ok(Line::Up) => self.link_up(alloc, out),
            Ok(Line::Down) => self.link_down(alloc, out),
            Ok(Line::Moment(at)) => self.look(alloc, at, out),
            Ok(Line::Bytes(bytes)) => self.take_bytes(alloc, bytes.as_slice(), out),
            Ok(Line::Oper(command)) => self.operate(alloc, command, out),
            Ok(Line::Signal(signal)) => self.signal(alloc, signal, out),
            Err(LineFault::Place(place)) => Err(Halt::Line(place)),
            Err(LineFault::NoMemory) => Err(Halt::NoMemory),
        }
    }
}
