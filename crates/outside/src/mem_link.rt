ghost use Rattle.std.specs.Prelude.{◌≡◌, ◌≢◌, ℕ, ◌+◌, ◌-◌, ◌^◌, ◌<◌, ◌≤◌, ◌⊎◌, true, false, min, if◌then◌else◌, List, [], ◌++◌, length, take, Contains, Some, Ok, IfOk, OnOk, OnErr, IsOk, IsErr, is_err};
ghost use Rattle.outside.specs.Counts.{Rose, one_more};
ghost use Rattle.outside.specs.Memory.{is_zero_of};
ghost use Rattle.outside.specs.Told.{Written};

use crate::link::{LinkIn, LinkOut};
use crate::mem_sink::MemSink;
use crate::mem_source::MemSource;
use crate::sink::Sink;
use crate::source::Failed;

/// The end of a link in memory at which bytes come in: a source in memory. Behind its bytes is the peer's end.
pub type MemIn = MemSource;

impl LinkIn for MemSource {}

/// The end of a link in memory at which bytes go out: a sink in memory, and whether it was shut. What it holds can be
/// looked at when it was handed back.
#[derive(Drop)]
pub struct MemOut {
    pub sink: MemSink,
    pub is_shut: bool,
}

impl MemOut {
    /// An end that writes to this sink, and isn't shut.
    pub fn new(sink: MemSink) -> MemOut
        ensures { result ≡ record { sink = sink; is_shut = false } }
    {
        MemOut {
            sink,
            is_shut: false,
        }
    }
}

impl Sink for MemOut {
    ghost held = { λ o. Some o.sink.held };

    ghost faults = { λ o. o.sink.faults };

    ghost refusals = { λ o. o.sink.refusals };

    /// Writes to its sink, as that does. Shut or not is the same to it.
    fn write(&mut self, bytes: &[u8]) -> Result<usize, Failed>
        ensures fits { IfOk result (λ n. n ≤ length bytes.now) }
        ensures written { IfOk result (λ n. Written (Some self.old.sink.held) (Some self.new.sink.held) (take n bytes.now)) }
        ensures refused { IfOk result (λ n. n ≡ 0 → 0 < length bytes.now → Rose self.old.sink.refusals self.new.sink.refusals) }
        ensures unrefused { result ≢ Ok 0 → self.new.sink.refusals ≡ self.old.sink.refusals }
        ensures failed { OnErr result (Rose self.old.sink.faults self.new.sink.faults) }
        ensures unfailed { OnOk result (self.new.sink.faults ≡ self.old.sink.faults) }
        ensures unwritten { OnErr result (Some self.new.sink.held ≡ Some self.old.sink.held) }
        ensures faults_stay { self.old.sink.faults ≤ self.new.sink.faults }
        ensures refusals_stay { self.old.sink.refusals ≤ self.new.sink.refusals }

        // More than every sink promises: when it fails, and how many bytes it takes.
        ensures fails { Contains self.old.sink.fails (one_more self.old.sink.writes) → IsErr result }
        ensures fails_else { OnErr result (Contains self.old.sink.fails (one_more self.old.sink.writes)
            ⊎ (self.old.sink.room < length self.old.sink.held + min (length bytes.now) (self.old.sink.limit - length self.old.sink.held))) }
        ensures count { IfOk result (λ n. n ≡ min (length bytes.now) (self.old.sink.limit - length self.old.sink.held)) }
        ensures writes { self.new.sink.writes ≡ one_more self.old.sink.writes }
        ensures faults { self.new.sink.faults ≡ (if is_err result then one_more self.old.sink.faults else self.old.sink.faults) }
        ensures refusals { self.new.sink.refusals ≡ (if is_zero_of (length bytes.now) result then one_more self.old.sink.refusals else self.old.sink.refusals) }
        ensures no_fails { self.old.sink.fails ≡ [] → length self.old.sink.held + length bytes.now ≤ self.old.sink.room
            → self.new.sink.faults ≡ self.old.sink.faults }
        ensures same_fails { self.new.sink.fails ≡ self.old.sink.fails }
        ensures same_limit { self.new.sink.limit ≡ self.old.sink.limit }
        ensures room { self.old.sink.room ≤ self.new.sink.room }
        ensures same_shut { self.new.is_shut ≡ self.old.is_shut }
    {
        self.sink.write(bytes)
    }
}

impl LinkOut for MemOut {
    ghost is_shut = { λ o. o.is_shut };

    /// It keeps nothing.
    fn flush(&mut self) -> Result<(), Failed>
        ensures held { Some self.new.sink.held ≡ Some self.old.sink.held }
        ensures failed { OnErr result (Rose self.old.sink.faults self.new.sink.faults) }
        ensures unfailed { OnOk result (self.new.sink.faults ≡ self.old.sink.faults) }
        ensures faults_stay { self.old.sink.faults ≤ self.new.sink.faults }
        ensures refusals { self.new.sink.refusals ≡ self.old.sink.refusals }
        ensures is_shut { self.new.is_shut ≡ self.old.is_shut }

        // More than every link promises.
        ensures never_fails { IsOk result }
        ensures same { self.new ≡ self.old }
    {
        Ok(())
    }

    fn shut(&mut self)
        ensures shut { self.new.is_shut ≡ true }
        ensures held { Some self.new.sink.held ≡ Some self.old.sink.held }
        ensures faults { self.new.sink.faults ≡ self.old.sink.faults }
        ensures refusals { self.new.sink.refusals ≡ self.old.sink.refusals }

        // More than every link promises: its sink is as before.
        ensures same { self.new ≡ record self.old { is_shut = true } }
    {
        self.is_shut = true;
    }
}
