ghost use Rattle.std.specs.Prelude.{◌≡◌, ◌≢◌, ℕ, ◌+◌, ◌-◌, ◌^◌, ◌<◌, ◌≤◌, ◌↔◌, ◌⊎◌, min, if◌then◌else◌, List, [], ◌++◌, length, take, Contains, Some, Ok, IfOk, OnOk, OnErr, IsErr, is_err};
ghost use Rattle.outside.specs.Counts.{Rose, one_more};
ghost use Rattle.outside.specs.Memory.{is_zero_of};
ghost use Rattle.outside.specs.Told.{Written};

use crate::counts::Counts;
use crate::sink::Sink;
use crate::source::Failed;
use std::alloc::{AllocError, Global};
use std::marker::Model;

/// Memory has run out.
pub type NoMemory = AllocError;

/// A sink that keeps its bytes in memory, for tests and small programs. Contracts see it as what it holds, with its
/// counts.
#[derive(Drop)]
pub struct MemSink {
    held: Vec<u8>,
    limit: usize,
    fails: Vec<u64>,
    writes: u64,
    counts: Counts,
}

impl Model for MemSink {
    ghost use Rattle.std.specs.Prelude.{vec_capacity};
    ghost use Rattle.outside.specs.Memory.{Writing};

    ghost Value = { Writing };

    ghost view = { λ s. record {
      held = s.held.items;
      limit = s.limit;
      room = vec_capacity s.held;
      fails = s.fails.items;
      writes = s.writes;
      faults = s.counts.faults;
      refusals = s.counts.zeros;
    } };
}

impl MemSink {
    /// An empty sink. The writes whose numbers are in `fails` fail, the first write being 1.
    pub fn new(alloc: Global, fails: Vec<u64>) -> MemSink
        ensures held { result.held ≡ [] }
        ensures limit { result.limit ≡ usize.MAX }
        ensures fails { result.fails ≡ fails.items }
        ensures writes { result.writes ≡ 0 }
        ensures faults { result.faults ≡ 0 }
        ensures refusals { result.refusals ≡ 0 }
    {
        MemSink {
            held: Vec::new(alloc),
            limit: usize::MAX,
            fails,
            writes: 0,
            counts: Counts::none(),
        }
    }

    /// The same sink, which takes at most so many bytes at all, and then answers 0.
    pub fn with_limit(self, limit: usize) -> MemSink
        ensures { result ≡ record self { limit = limit } }
    {
        let mut sink = self;
        sink.limit = limit;
        sink
    }

    /// Takes memory for so many bytes more, so that no write of them fails for want of it. Whatever it answers, the
    /// sink is as before but for its memory.
    pub fn reserve(&mut self, more: usize) -> Result<(), NoMemory>
        ensures room { OnOk result (length self.old.held + more ≤ self.new.room) }
        ensures no_less { self.old.room ≤ self.new.room }
        ensures same { self.new ≡ record self.old { room = self.new.room } }
    {
        self.held.reserve(more)
    }

    /// The bytes that it holds.
    pub fn as_bytes(&self) -> &[u8]
        ensures { result.now ≡ self.now.held }
    {
        self.held.as_slice()
    }

    /// Gives out the bytes that it holds. Takes no memory.
    pub fn into_bytes(self) -> Vec<u8>
        ensures { result.items ≡ self.held }
    {
        let MemSink { held, .. } = self;
        held
    }

    /// How many writes failed.
    pub fn faults(&self) -> u64
        ensures { result ≡ self.now.faults }
    {
        self.counts.faults
    }

    /// How many writes of a piece that isn't empty were answered 0.
    pub fn refusals(&self) -> u64
        ensures { result ≡ self.now.refusals }
    {
        self.counts.zeros
    }
}

impl Sink for MemSink {
    ghost held = { λ s. Some s.held };

    ghost faults = { λ s. s.faults };

    ghost refusals = { λ s. s.refusals };

    /// Fails where this write's number is in the list of those that are to fail, and else only where there is no
    /// memory for what it would take.
    fn write(&mut self, bytes: &[u8]) -> Result<usize, Failed>
        ensures fits { IfOk result (λ n. n ≤ length bytes.now) }
        ensures written { IfOk result (λ n. Written (Some self.old.held) (Some self.new.held) (take n bytes.now)) }
        ensures refused { IfOk result (λ n. n ≡ 0 → 0 < length bytes.now → Rose self.old.refusals self.new.refusals) }
        ensures unrefused { result ≢ Ok 0 → self.new.refusals ≡ self.old.refusals }
        ensures failed { OnErr result (Rose self.old.faults self.new.faults) }
        ensures unfailed { OnOk result (self.new.faults ≡ self.old.faults) }
        ensures unwritten { OnErr result (Some self.new.held ≡ Some self.old.held) }
        ensures faults_stay { self.old.faults ≤ self.new.faults }
        ensures refusals_stay { self.old.refusals ≤ self.new.refusals }

        // More than every sink promises: when it fails, and how many bytes it takes.
        ensures fails { Contains self.old.fails (one_more self.old.writes) → IsErr result }
        ensures fails_else { OnErr result (Contains self.old.fails (one_more self.old.writes)
            ⊎ (self.old.room < length self.old.held + min (length bytes.now) (self.old.limit - length self.old.held))) }
        ensures count { IfOk result (λ n. n ≡ min (length bytes.now) (self.old.limit - length self.old.held)) }
        ensures writes { self.new.writes ≡ one_more self.old.writes }
        ensures faults { self.new.faults ≡ (if is_err result then one_more self.old.faults else self.old.faults) }
        ensures refusals { self.new.refusals ≡ (if is_zero_of (length bytes.now) result then one_more self.old.refusals else self.old.refusals) }
        ensures no_fails { self.old.fails ≡ [] → length self.old.held + length bytes.now ≤ self.old.room
            → self.new.faults ≡ self.old.faults }
        ensures same_fails { self.new.fails ≡ self.old.fails }
        ensures same_limit { self.new.limit ≡ self.old.limit }
        ensures room { self.old.room ≤ self.new.room }
    {
        self.writes = self.writes.saturating_add(1);
        if self.fails.contains(&self.writes) {
            self.counts.failed();
            return Err(Failed);
        }
        let n = bytes.len().min(self.limit.saturating_sub(self.held.len()));
        if self.held.extend_from_slice(&bytes[..n]).is_err() {
            self.counts.failed();
            return Err(Failed);
        }
        self.counts.answered(n, bytes.len());
        Ok(n)
    }
}
