//! Both ends of a link whose peer sends bytes, after a while or at once, and then waits until the link was shut.

use crate::given::{Limits, fails_of, source_of};
use crate::signs::{LinkSigns, sleep_turns};
use outside::{Failed, LinkIn, LinkOut, MemSink, MemSource, Sink, Source};
use std::alloc::{AllocError, Global};
use std::time;

/// The end at which bytes come in: its first read takes so many turns. Behind the bytes it gives its end once the link was shut, or after 60,000 turns.
#[derive(Drop)]
pub struct PatientIn<'a, R> {
    rt: &'a R,
    bytes: MemSource,
    turns: u64,
    signs: &'a LinkSigns,
}

impl<'a, R: time::Clock> PatientIn<'a, R> {
    // Waits at the peer's end.
    fn wait_at_end(&self, answer: &Result<usize, Failed>) {
        if matches!(answer, Ok(0)) {
            let _ = self.signs.was_shut.is_raised_in_time(self.rt);
        }
    }
}

impl<R: time::Clock> Source for PatientIn<'_, R> {
    ghost use Rattle.std.specs.Prelude.{None};

    ghost left = { λ _. None };

    ghost faults = { λ s. s.bytes.faults };

    ghost ends = { λ s. s.bytes.ends };

    fn read(&mut self, buf: &mut [u8]) -> Result<usize, Failed> {
        sleep_turns(self.rt, self.turns);
        self.turns = 0;
        let answer = self.bytes.read(buf);
        self.wait_at_end(&answer);
        answer
    }
}

impl<R: time::Clock> LinkIn for PatientIn<'_, R> {}

/// The end at which bytes go out. It tells that it took some, and that it was shut.
#[derive(Drop)]
pub struct TellingOut<'a> {
    sink: MemSink,
    is_shut: bool,
    signs: &'a LinkSigns,
}

impl<'a> TellingOut<'a> {
    /// The bytes that it took.
    pub fn as_bytes(&self) -> &[u8] {
        self.sink.as_bytes()
    }

    // Tells of a write that took bytes.
    fn tell(&self, answer: &Result<usize, Failed>) {
        if !matches!(answer, Ok(0) | Err(_)) {
            self.signs.wrote.raise();
        }
    }
}

impl Sink for TellingOut<'_> {
    ghost use Rattle.std.specs.Prelude.{None};

    ghost held = { λ _. None };

    ghost faults = { λ o. o.sink.faults };

    ghost refusals = { λ o. o.sink.refusals };

    fn write(&mut self, bytes: &[u8]) -> Result<usize, Failed> {
        let answer = self.sink.write(bytes);
        self.tell(&answer);
        answer
    }
}

impl LinkOut for TellingOut<'_> {
    ghost is_shut = { λ o. o.is_shut };

    fn flush(&mut self) -> Result<(), Failed> {
        Ok(())
    }

    fn shut(&mut self) {
        self.is_shut = true;
        self.signs.was_shut.raise();
    }
}

/// Both ends of a link whose peer sends these bytes, with these limits.
pub fn patient_link<'a, R: time::Clock>(
    rt: &'a R,
    alloc: Global,
    bytes: &[u8],
    limits: Limits,
    signs: &'a LinkSigns,
) -> Result<(PatientIn<'a, R>, TellingOut<'a>), AllocError> {
    let link_in = PatientIn {
        rt,
        bytes: source_of(alloc, bytes, limits.peer_fault)?,
        turns: limits.peer_turns,
        signs,
    };
    let link_out = TellingOut {
        sink: MemSink::new(alloc, fails_of(alloc, limits.answer_fault)?),
        is_shut: false,
        signs,
    };
    Ok((link_in, link_out))
}
