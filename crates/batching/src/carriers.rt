//! One carrier after another, each with its jobs.
ghost use Rattle.std.specs.Prelude.{◌≡◌, ◌≤◌, ◌+◌, ◌∷◌, [], map, true, IfOk, OnOk};
ghost use Rattle.tool_events.specs.declared.event.Event.TheVariants as event;
ghost use Rattle.tool_events.specs.Configs.{IsConfig};
ghost use Rattle.tool_events.specs.Sizes.{text_bytes};
ghost use Rattle.hsms_frame.specs.Cut.{arrivals_of};
ghost use Rattle.line_grammar.specs.Reading.{feed_line_of};
ghost use Rattle.sim_modules.specs.Lot.{lot_line};
ghost use Rattle.batch_model.specs.Batch.{inputs_of, lot_turn, lot_turns, carrier_made, carriers_made, dones_by, most_dones, then_made};
ghost use Rattle.batching.specs.Making.{batch_seen, standing, Makes};

use crate::batch::{Batch, Stop};
use crate::turns::{SESSION, only, turn, work};
use history_laws::Recorder;
use hsms_frame::{Arrival, Cutter};
use line_feeding::cut_bytes;
use sim_modules::lot_line;
use std::alloc::{AllocError, Global};
use tool_events::{Config, Event, TEXT_BYTES};
use tool_texts::{Line, LineFault, read_feed_line};

/// The line of a carrier that takes it away; its modules work before.
const LAST_LINE: u32 = 6;

// ---- what a line puts in

// The frames that bytes are.
fn arrivals_in(alloc: Global, bytes: &[u8]) -> Result<Vec<Arrival>, AllocError>
    ensures { IfOk result (λ arrivals. arrivals.items ≡ arrivals_of text_bytes bytes.now) }
{
    let mut cutter = Cutter::new(alloc, TEXT_BYTES)?;
    let mut arrivals = Vec::new(alloc);
    cut_bytes(alloc, &mut cutter, bytes, &mut arrivals)?;
    Ok(arrivals)
}

// The frames of the host that bytes are, in the one session of a batch.
fn told_by(alloc: Global, bytes: &[u8]) -> Result<Vec<Event>, AllocError>
    ensures { IfOk result (λ events. events.items ≡ map (event.Host 1) (arrivals_of text_bytes bytes.now)) }
{
    let mut events = Vec::new(alloc);
    for arrival in arrivals_in(alloc, bytes)? {
        events.push(Event::Host {
            session: SESSION,
            arrival,
        })?;
    }
    Ok(events)
}

// The inputs of a line of a carrier: a signal, or the frames of the host.
fn inputs_of(alloc: Global, line: &[u8]) -> Result<Vec<Event>, AllocError>
    ensures { IfOk result (λ events. events.items ≡ inputs_of (feed_line_of line.now)) }
{
    match read_feed_line(alloc, line) {
        Ok(Line::Signal(signal)) => only(alloc, Event::Signal(signal)),
        Ok(Line::Bytes(bytes)) => told_by(alloc, bytes.as_slice()),
        // No line of a carrier says anything else.
        Ok(Line::Skip) => Ok(Vec::new(alloc)),
        Ok(Line::Up) => Ok(Vec::new(alloc)),
        Ok(Line::Down) => Ok(Vec::new(alloc)),
        Ok(Line::Moment(_)) => Ok(Vec::new(alloc)),
        Ok(Line::Oper(_)) => Ok(Vec::new(alloc)),
        Ok(Line::Watch(_)) => Ok(Vec::new(alloc)),
        Err(LineFault::Place(_)) => Ok(Vec::new(alloc)),
        Err(LineFault::NoMemory) => Err(AllocError),
    }
}

// The inputs of a line of carrier `k`; both are counted from 1.
fn lot_inputs(alloc: Global, config: &Config, k: u32, i: u32) -> Result<Vec<Event>, AllocError>
    requires config { IsConfig config.now }
    requires first { 1 ≤ k }
    requires last { k ≤ 10000 }
    requires line { 1 ≤ i }
    ensures { IfOk result (λ events. events.items ≡ inputs_of (feed_line_of (lot_line config.now k i))) }
{
    let mut line = Vec::new(alloc);
    lot_line(alloc, config, k, i, &mut line)?;
    inputs_of(alloc, &line)
}

// ---- carriers

// A line of carrier `k`, behind the answers.
fn lot_turn<C: Recorder>(
    alloc: Global,
    batch: &mut Batch<C>,
    config: &Config,
    k: u32,
    i: u32,
) -> Result<(), Stop>
    requires config { IsConfig config.now }
    requires first { 1 ≤ k }
    requires last { k ≤ 10000 }
    requires line { 1 ≤ i }
    requires whole { (C.view batch.old.core).is_whole ≡ true }
    ensures made { Makes (C.view batch.old.core) (batch_seen C.view batch.new) (lot_turn config.now k i (standing (batch_seen C.view batch.old))) result }
    ensures whole { OnOk result ((C.view batch.new.core).is_whole ≡ true) }
{
    let Ok(events) = lot_inputs(alloc, config, k, i) else {
        return Err(Stop::NoMemory);
    };
    turn(alloc, batch, config, events)
}

// The first lines of carrier `k`, one after another.
fn bring<C: Recorder>(
    alloc: Global,
    batch: &mut Batch<C>,
    config: &Config,
    k: u32,
) -> Result<(), Stop>
    requires config { IsConfig config.now }
    requires first { 1 ≤ k }
    requires last { k ≤ 10000 }
    requires whole { (C.view batch.old.core).is_whole ≡ true }
    ensures made { Makes (C.view batch.old.core) (batch_seen C.view batch.new) (lot_turns config.now k (1 ∷ 2 ∷ 3 ∷ 4 ∷ 5 ∷ []) (standing (batch_seen C.view batch.old))) result }
    ensures whole { OnOk result ((C.view batch.new.core).is_whole ≡ true) }
{
    for i in 1..LAST_LINE {
        match lot_turn(alloc, batch, config, k, i) {
            Ok(()) => {}
            Err(stop) => return Err(stop),
        }
    }
    Ok(())
}

// The modules work on carrier `k`, and then it is taken away.
fn work_and_remove<C: Recorder>(
    alloc: Global,
    batch: &mut Batch<C>,
    config: &Config,
    k: u32,
) -> Result<(), Stop>
    requires config { IsConfig config.now }
    requires first { 1 ≤ k }
    requires last { k ≤ 10000 }
    requires whole { (C.view batch.old.core).is_whole ≡ true }
    ensures made { Makes (C.view batch.old.core) (batch_seen C.view batch.new) (then_made (dones_by most_dones config.now (standing (batch_seen C.view batch.old))) (lot_turn config.now k 6)) result }
    ensures whole { OnOk result ((C.view batch.new.core).is_whole ≡ true) }
{
    match work(alloc, batch, config) {
        Ok(()) => lot_turn(alloc, batch, config, k, LAST_LINE),
        Err(stop) => Err(stop),
    }
}

// Carrier `k`: its first five lines, then its modules work, and then its sixth line.
fn carry<C: Recorder>(
    alloc: Global,
    batch: &mut Batch<C>,
    config: &Config,
    k: u32,
) -> Result<(), Stop>
    requires config { IsConfig config.now }
    requires first { 1 ≤ k }
    requires last { k ≤ 10000 }
    requires whole { (C.view batch.old.core).is_whole ≡ true }
    ensures made { Makes (C.view batch.old.core) (batch_seen C.view batch.new) (carrier_made config.now k (standing (batch_seen C.view batch.old))) result }
    ensures whole { OnOk result ((C.view batch.new.core).is_whole ≡ true) }
{
    match bring(alloc, batch, config, k) {
        Ok(()) => work_and_remove(alloc, batch, config, k),
        Err(stop) => Err(stop),
    }
}

/// So many carriers, 10,000 at most, from the first on.
pub fn carry_all<C: Recorder>(
    alloc: Global,
    batch: &mut Batch<C>,
    config: &Config,
    carriers: u32,
) -> Result<(), Stop>
    requires config { IsConfig config.now }
    requires few { carriers ≤ 10000 }
    requires whole { (C.view batch.old.core).is_whole ≡ true }
    ensures made { Makes (C.view batch.old.core) (batch_seen C.view batch.new) (carriers_made carriers config.now 1 (standing (batch_seen C.view batch.old))) result }
    ensures whole { OnOk result ((C.view batch.new.core).is_whole ≡ true) }
{
    for before in 0..carriers {
        match carry(alloc, batch, config, before + 1) {
            Ok(()) => {}
            Err(stop) => return Err(stop),
        }
    }
    Ok(())
}
