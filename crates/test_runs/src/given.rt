//! What a run is given.

use crate::narrow::Narrow;
use crate::told::{tell_printed, tell_ran};
use crate::tool::{Ran, Tools};
use gem_ids::Text80;
use outside::{MemSink, MemSource, Sink};
use std::alloc::{AllocError, Global};

/// The first read of the configuration, read of the input and write that fail, counted from 1 (0: none does), how many bytes a read of
/// the input gives at most, and how many bytes the sink takes in all.
#[derive(Clone, Copy)]
pub struct Limits {
    pub config_fault: usize,
    pub read_fault: usize,
    pub write_fault: usize,
    pub piece: usize,
    pub limit: usize,
}

/// Nothing fails, and nothing is cut.
pub const UNLIMITED: Limits = Limits {
    config_fault: 0,
    read_fault: 0,
    write_fault: 0,
    piece: usize::MAX,
    limit: usize::MAX,
};

/// What a run is given: the words of the command, the bytes of the configuration and of the input, and what fails; and what it is to
/// print.
#[derive(Drop)]
pub struct Given {
    pub words: Vec<Text80>,
    pub config: Vec<u8>,
    pub input: Vec<u8>,
    pub wanted: Vec<u8>,
    pub limits: Limits,
}

impl Given {
    /// No words, and nothing that is read or to be printed.
    pub fn none(alloc: Global) -> Given {
        Given {
            words: Vec::new(alloc),
            config: Vec::new(alloc),
            input: Vec::new(alloc),
            wanted: Vec::new(alloc),
            limits: UNLIMITED,
        }
    }
}

// A source of these bytes, of which this read fails.
fn source_of(alloc: Global, bytes: &[u8], fault: usize) -> Result<MemSource, AllocError> {
    let bytes = Vec::from_slice(alloc, bytes)?;
    let mut fails = Vec::new(alloc);
    fails.push(fault as u64)?;
    Ok(MemSource::new(bytes, fails))
}

// The sink of these limits.
fn sink_of(alloc: Global, limits: Limits) -> Result<MemSink, AllocError> {
    let mut fails = Vec::new(alloc);
    fails.push(limits.write_fault as u64)?;
    Ok(MemSink::new(alloc, fails).with_limit(limits.limit))
}

// The input that is given, which comes in pieces.
fn input_of(alloc: Global, given: &Given) -> Result<MemSource, AllocError> {
    let input = source_of(alloc, &given.input, given.limits.read_fault)?;
    Ok(input.with_piece(given.limits.piece.max(1)))
}

// Runs what is given over this input into a sink.
fn run_over<O: Tools, K: Sink>(
    tools: &O,
    alloc: Global,
    given: &Given,
    input: &mut MemSource,
    out: &mut K,
) -> Result<Ran, AllocError> {
    let mut config = source_of(alloc, &given.config, given.limits.config_fault)?;
    tools.run(alloc, &given.words, &mut config, input, out)
}

// Runs what is given into a sink, and tells how the run ended. How many entries it has.
fn run_into<O: Tools, K: Sink>(
    tools: &O,
    alloc: Global,
    given: &Given,
    out: &mut K,
    told: &mut String,
) -> Result<usize, AllocError> {
    let mut input = input_of(alloc, given)?;
    let ran = run_over(tools, alloc, given, &mut input, out)?;
    tell_ran(alloc, told, &ran)?;
    Ok(ran.entries)
}

/// Runs what is given, and tells of it. How many entries the history has.
pub fn run<O: Tools>(
    tools: &O,
    alloc: Global,
    given: &Given,
    told: &mut String,
) -> Result<usize, AllocError> {
    let mut out = sink_of(alloc, given.limits)?;
    let entries = run_into(tools, alloc, given, &mut out, told)?;
    tell_printed(alloc, told, out.as_bytes(), &given.wanted)?;
    Ok(entries)
}

/// Runs what is given: how the run ended, and what it printed.
pub fn run_printed<O: Tools>(
    tools: &O,
    alloc: Global,
    given: &Given,
) -> Result<(Ran, Vec<u8>), AllocError> {
    let mut input = input_of(alloc, given)?;
    let mut out = sink_of(alloc, given.limits)?;
    let ran = run_over(tools, alloc, given, &mut input, &mut out)?;
    Ok((ran, out.into_bytes()))
}

/// Runs what is given into a sink that takes one byte at a time, and tells of it. How many entries the history has.
pub fn run_narrow<O: Tools>(
    tools: &O,
    alloc: Global,
    given: &Given,
    told: &mut String,
) -> Result<usize, AllocError> {
    let mut out = Narrow::new(alloc);
    let entries = run_into(tools, alloc, given, &mut out, told)?;
    let printed = out.into_bytes();
    tell_printed(alloc, told, &printed, &given.wanted)?;
    Ok(entries)
}
