//! A source and a sink that know of each other: whenever the next line of the input is asked for, it is kept how much was printed by then.

use outside::{Failed, MemSink, MemSource, Sink, Source};
use std::alloc::Global;
use std::sync::atomic::{AtomicU64, Ordering};

/// How many bytes were printed.
#[derive(Drop)]
pub struct Printed {
    bytes: AtomicU64,
}

impl Printed {
    /// Nothing was printed.
    pub fn nothing() -> Printed {
        Printed {
            bytes: AtomicU64::new(0),
        }
    }

    /// How many they are.
    pub fn count(&self) -> u64 {
        self.bytes.load(Ordering::SeqCst)
    }

    // So many bytes more were printed, where a write took some.
    fn add(&self, answer: &Result<usize, Failed>) {
        if let Ok(count) = answer {
            self.bytes.fetch_add(*count as u64, Ordering::SeqCst);
        }
    }
}

/// A source of lines whose reads give one byte. It keeps how much was printed when each line's first byte was asked for, and so does its end.
#[derive(Drop)]
pub struct Stepped<'a> {
    bytes: MemSource,
    printed: &'a Printed,
    begins: bool,
    marks: Vec<u64>,
    lacks: bool,
}

impl<'a> Stepped<'a> {
    /// A source of these bytes, beside what is printed.
    pub fn new(alloc: Global, bytes: Vec<u8>, printed: &'a Printed) -> Stepped<'a> {
        Stepped {
            bytes: MemSource::new(bytes, Vec::new(alloc)).with_piece(1),
            printed,
            begins: true,
            marks: Vec::new(alloc),
            lacks: false,
        }
    }

    /// How much was printed when each line was asked for, and at the end. None where there was no memory to keep it.
    pub fn marks(&self) -> Option<&[u64]> {
        if self.lacks {
            None
        } else {
            Some(self.marks.as_slice())
        }
    }
}

// Keeps how much was printed. False where there is no memory.
fn keep(marks: &mut Vec<u64>, count: u64) -> bool {
    marks.push(count).is_ok()
}

// Whether the byte that was read ends a line.
fn is_line_end(buf: &[u8], answer: &Result<usize, Failed>) -> bool {
    matches!((buf, answer), ([b'\n', ..], Ok(1)))
}

impl Source for Stepped<'_> {
    ghost use Rattle.std.specs.Prelude.{None};

    ghost left = { λ _. None };

    ghost faults = { λ s. s.bytes.faults };

    ghost ends = { λ s. s.bytes.ends };

    fn read(&mut self, buf: &mut [u8]) -> Result<usize, Failed> {
        if self.begins && !keep(&mut self.marks, self.printed.count()) {
            self.lacks = true;
        }
        let answer = self.bytes.read(buf);
        self.begins = is_line_end(buf, &answer);
        answer
    }
}

/// A sink in memory, which tells how much it took.
#[derive(Drop)]
pub struct Counting<'a> {
    sink: MemSink,
    printed: &'a Printed,
}

impl<'a> Counting<'a> {
    /// A sink that took nothing.
    pub fn new(alloc: Global, printed: &'a Printed) -> Counting<'a> {
        Counting {
            sink: MemSink::new(alloc, Vec::new(alloc)),
            printed,
        }
    }

    /// The bytes that it took.
    pub fn as_bytes(&self) -> &[u8] {
        self.sink.as_bytes()
    }
}

impl Sink for Counting<'_> {
    ghost use Rattle.std.specs.Prelude.{None};

    ghost held = { λ _. None };

    ghost faults = { λ o. o.sink.faults };

    ghost refusals = { λ o. o.sink.refusals };

    fn write(&mut self, bytes: &[u8]) -> Result<usize, Failed> {
        let answer = self.sink.write(bytes);
        self.printed.add(&answer);
        answer
    }
}
