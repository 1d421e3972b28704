//! What a run is given.

use gem_ids::Text80;
use outside::MemSource;
use std::alloc::{AllocError, Global};
use test_lines::{add, texts_of};

/// The first read of the configuration and of the script, write of the log, call of the door, and read and write of a link that fail, counted
/// from 1 (0: none does); how many turns a peer waits before it sends; and whether a door in memory is closed behind its links.
#[derive(Clone, Copy)]
pub struct Limits {
    pub config_fault: u64,
    pub script_fault: u64,
    pub log_fault: u64,
    pub door_fault: u64,
    pub peer_fault: u64,
    pub answer_fault: u64,
    pub peer_turns: u64,
    pub is_closed: bool,
}

/// Nothing fails, a peer sends at once, and the door is open.
pub const UNLIMITED: Limits = Limits {
    config_fault: 0,
    script_fault: 0,
    log_fault: 0,
    door_fault: 0,
    peer_fault: 0,
    answer_fault: 0,
    peer_turns: 0,
    is_closed: false,
};

/// What a run is given: the words of the command, the bytes of the configuration, of the script and of a peer, and what fails.
#[derive(Drop)]
pub struct Given {
    pub words: Vec<Text80>,
    pub config: Vec<u8>,
    pub script: Vec<u8>,
    pub peer: Vec<u8>,
    pub limits: Limits,
}

impl Given {
    /// No words, and nothing that is read.
    pub fn none(alloc: Global) -> Given {
        Given {
            words: Vec::new(alloc),
            config: Vec::new(alloc),
            script: Vec::new(alloc),
            peer: Vec::new(alloc),
            limits: UNLIMITED,
        }
    }
}

/// The numbers of what fails: this one alone.
pub fn fails_of(alloc: Global, fault: u64) -> Result<Vec<u64>, AllocError> {
    let mut fails = Vec::new(alloc);
    fails.push(fault)?;
    Ok(fails)
}

/// A source of these bytes, of which this read fails.
pub fn source_of(alloc: Global, bytes: &[u8], fault: u64) -> Result<MemSource, AllocError> {
    let bytes = Vec::from_slice(alloc, bytes)?;
    let fails = fails_of(alloc, fault)?;
    Ok(MemSource::new(bytes, fails))
}

/// Gives the next run what is said. False: it says nothing.
pub fn give(alloc: Global, given: &mut Given, first: &str, rest: &str) -> Result<bool, AllocError> {
    match first {
        "words" => {
            given.words = texts_of(alloc, rest)?;
            Ok(true)
        }
        "config" => add(alloc, &mut given.config, rest),
        "script" => add(alloc, &mut given.script, rest),
        "peer" => add(alloc, &mut given.peer, rest),
        _ => Ok(limit(given, first, rest.parse::<u64>().unwrap_or(0))),
    }
}

// Sets a limit. False: it has no such name.
fn limit(given: &mut Given, name: &str, n: u64) -> bool {
    match name {
        "config_fault" => given.limits.config_fault = n,
        "script_fault" => given.limits.script_fault = n,
        "log_fault" => given.limits.log_fault = n,
        "door_fault" => given.limits.door_fault = n,
        "peer_fault" => given.limits.peer_fault = n,
        "answer_fault" => given.limits.answer_fault = n,
        "peer_turns" => given.limits.peer_turns = n,
        "closed" => given.limits.is_closed = true,
        _ => return false,
    }
    true
}
