ghost use Rattle.std.specs.Prelude.{◌≡◌, ℕ, ◌+◌, ◌-◌, ◌^◌, ◌<◌, ◌≤◌, ◌↔◌, min, if◌then◌else◌, List, [], ◌++◌, length, take, drop, Contains, Some, IfOk, OnOk, OnErr, IsErr, is_err};
ghost use Rattle.outside.specs.Counts.{Rose, one_more};
ghost use Rattle.outside.specs.Memory.{is_zero_of};
ghost use Rattle.outside.specs.Told.{Taken, NothingLeft};

use crate::counts::Counts;
use crate::source::{Failed, Source};
use std::marker::Model;

/// A source of bytes in memory, for tests and small programs. Contracts see it as what is left, with its counts.
#[derive(Drop)]
pub struct MemSource {
    bytes: Vec<u8>,
    at: usize,
    most: usize,
    fails: Vec<u64>,
    reads: u64,
    counts: Counts,
}

impl Model for MemSource {
    ghost use Rattle.std.specs.Prelude.{◌≤◌, ◌<◌, length, drop};
    ghost use Rattle.outside.specs.Memory.{Reading};

    ghost Value = { Reading };

    ghost view = { λ s. record {
      left = drop s.at s.bytes.items;
      most = s.most;
      fails = s.fails.items;
      reads = s.reads;
      faults = s.counts.faults;
      ends = s.counts.zeros;
    } };

    ghost invariant = { λ s. (s.at ≤ length s.bytes.items) × (0 < s.most) };
}

impl MemSource {
    /// A source of these bytes. The reads whose numbers are in `fails` fail, the first read being 1.
    pub fn new(bytes: Vec<u8>, fails: Vec<u64>) -> MemSource
        ensures left { result.left ≡ bytes.items }
        ensures most { result.most ≡ usize.MAX }
        ensures fails { result.fails ≡ fails.items }
        ensures reads { result.reads ≡ 0 }
        ensures faults { result.faults ≡ 0 }
        ensures ends { result.ends ≡ 0 }
    {
        MemSource {
            bytes,
            at: 0,
            most: usize::MAX,
            fails,
            reads: 0,
            counts: Counts::none(),
        }
    }

    /// The same source, of which a read gives at most so many bytes.
    pub fn with_piece(self, most: usize) -> MemSource
        requires { 0 < most }
        ensures { result ≡ record self { most = most } }
    {
        let mut source = self;
        source.most = most;
        source
    }

    /// The bytes that are left.
    pub fn left(&self) -> &[u8]
        ensures { result.now ≡ self.now.left }
    {
        rest_of(self.bytes.as_slice(), self.at)
    }

    /// How many reads failed.
    pub fn faults(&self) -> u64
        ensures { result ≡ self.now.faults }
    {
        self.counts.faults
    }

    /// How many reads of a buffer that isn't empty were answered 0.
    pub fn ends(&self) -> u64
        ensures { result ≡ self.now.ends }
    {
        self.counts.zeros
    }
}

impl Source for MemSource {
    ghost left = { λ s. Some s.left };

    ghost faults = { λ s. s.faults };

    ghost ends = { λ s. s.ends };

    /// Fails exactly where this read's number is in the list of those that are to fail.
    fn read(&mut self, buf: &mut [u8]) -> Result<usize, Failed>
        ensures fits { IfOk result (λ n. n ≤ length buf.old) }
        ensures taken { IfOk result (λ n. Taken (Some self.old.left) (Some self.new.left) (take n buf.new)) }
        ensures end { IfOk result (λ n. n ≡ 0 → 0 < length buf.old
            → NothingLeft (Some self.old.left) × Rose self.old.ends self.new.ends) }
        ensures failed { OnErr result (Rose self.old.faults self.new.faults) }
        ensures unfailed { OnOk result (self.new.faults ≡ self.old.faults) }
        ensures untaken { OnErr result (Some self.new.left ≡ Some self.old.left) }
        ensures faults_stay { self.old.faults ≤ self.new.faults }
        ensures ends_stay { self.old.ends ≤ self.new.ends }

        // More than every source promises: when it fails, and how many bytes it gives.
        ensures fails { IsErr result ↔ Contains self.old.fails (one_more self.old.reads) }
        ensures count { IfOk result (λ n. n ≡ min (min (length buf.old) self.old.most) (length self.old.left)) }
        ensures rest_of_buffer { IfOk result (λ n. drop n buf.new ≡ drop n buf.old) }
        ensures unwritten { OnErr result (buf.new ≡ buf.old) }
        ensures reads { self.new.reads ≡ one_more self.old.reads }
        ensures faults { self.new.faults ≡ (if is_err result then one_more self.old.faults else self.old.faults) }
        ensures ends { self.new.ends ≡ (if is_zero_of (length buf.old) result then one_more self.old.ends else self.old.ends) }
        ensures no_fails { self.old.fails ≡ [] → self.new.faults ≡ self.old.faults }
        ensures same_fails { self.new.fails ≡ self.old.fails }
        ensures same_most { self.new.most ≡ self.old.most }
    {
        self.reads = self.reads.saturating_add(1);
        if self.fails.contains(&self.reads) {
            self.counts.failed();
            return Err(Failed);
        }
        let n = copy_front(rest_of(self.bytes.as_slice(), self.at), self.most, buf);
        self.at += n;
        self.counts.answered(n, buf.len());
        Ok(n)
    }
}

// The bytes from a place on.
fn rest_of(bytes: &[u8], at: usize) -> &[u8]
    requires { at ≤ length bytes.now }
    ensures { result.now ≡ drop at bytes.now }
{
    &bytes[at..]
}

// Copies the front of the bytes into the front of the buffer, at most so many, and answers how many.
fn copy_front(bytes: &[u8], most: usize, buf: &mut [u8]) -> usize
    ensures count { result ≡ min (min (length buf.old) most) (length bytes.now) }
    ensures front { take result buf.new ≡ take result bytes.now }
    ensures behind { drop result buf.new ≡ drop result buf.old }
{
    let n = buf.len().min(most).min(bytes.len());
    buf[..n].copy_from_slice(&bytes[..n]);
    n
}
