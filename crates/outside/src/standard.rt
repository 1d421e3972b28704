ghost use Rattle.std.specs.Prelude.{◌≡◌, ℕ, None};

use crate::counts::Counts;
use crate::sink::Sink;
use crate::source::{Failed, Source};
use std::io::Read;
use std::marker::Model;

/// Standard input as a source. It tells no content; contracts see its counts.
#[derive(Drop)]
pub struct StdinSource<R: Input> {
    input: R::Reader,
    counts: Counts,
}

impl<R: Input> Model for StdinSource<R> {
    ghost use Rattle.outside.specs.Counts.{SourceCounts};

    ghost Value = { SourceCounts };

    ghost view = { λ s. record { faults = s.counts.faults; ends = s.counts.zeros } };
}

impl<R: Input> StdinSource<R> {
    /// The standard input of the runtime.
    pub fn new(rt: &R) -> StdinSource<R>
        ensures faults { result.faults ≡ 0 }
        ensures ends { result.ends ≡ 0 }
    {
        StdinSource {
            input: rt.reader(),
            counts: Counts::none(),
        }
    }

    /// How many reads failed.
    pub fn faults(&self) -> u64
        ensures { result ≡ self.now.faults }
    {
        self.counts.faults
    }

    /// How many reads of a buffer that isn't empty were answered 0.
    pub fn ends(&self) -> u64
        ensures { result ≡ self.now.ends }
    {
        self.counts.zeros
    }
}

impl<R: Input> Source for StdinSource<R> {
    ghost left = { λ _. None };

    ghost faults = { λ s. s.faults };

    ghost ends = { λ s. s.ends };

    fn read(&mut self, buf: &mut [u8]) -> Result<usize, Failed> {
        let answer = self.input.read(buf);
        self.counts.count(answer, buf.len())
    }
}

/// Standard output as a sink. Each write goes out at once. It tells no content; contracts see its counts.
#[derive(Drop)]
pub struct StdoutSink<'a, R: Print> {
    rt: &'a R,
    counts: Counts,
}

impl<'a, R: Print> Model for StdoutSink<'a, R> {
    ghost use Rattle.outside.specs.Counts.{SinkCounts};

    ghost Value = { SinkCounts };

    ghost view = { λ s. record { faults = s.counts.faults; refusals = s.counts.zeros } };
}

impl<'a, R: Print> StdoutSink<'a, R> {
    /// The standard output of the runtime.
    pub fn new(rt: &'a R) -> StdoutSink<'a, R>
        ensures faults { result.faults ≡ 0 }
        ensures refusals { result.refusals ≡ 0 }
    {
        StdoutSink {
            rt,
            counts: Counts::none(),
        }
    }

    /// How many writes failed.
    pub fn faults(&self) -> u64
        ensures { result ≡ self.now.faults }
    {
        self.counts.faults
    }

    /// How many writes of a piece that isn't empty were answered 0.
    pub fn refusals(&self) -> u64
        ensures { result ≡ self.now.refusals }
    {
        self.counts.zeros
    }
}

impl<R: Print> Sink for StdoutSink<'_, R> {
    ghost held = { λ _. None };

    ghost faults = { λ s. s.faults };

    ghost refusals = { λ s. s.refusals };

    fn write(&mut self, bytes: &[u8]) -> Result<usize, Failed> {
        let answer = self.rt.write_some(bytes);
        self.counts.count(answer, bytes.len())
    }
}
