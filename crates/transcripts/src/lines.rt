//! A transcript, line by line: each is taken as soon as it is whole, and what it gives is written before the next is read.

use outside::{Sink, Source, front, read_front, write_all};
use std::alloc::Global;
use text_lines::{JoinFault, first_line, join_line};
use tool_texts::{LINE_BYTES, LineFault};

// So many bytes are read at once at most.
const PIECE: usize = 4096;

/// Why a transcript was not shown to its end.
#[derive(Clone, Copy, Debug)]
pub enum TranscriptFault {
    /// This line, counted from 1, is none of a transcript from this byte on, counted from 0.
    Line(u64, u64),
    /// A read failed.
    Read,
    /// A write failed, or took nothing.
    Write,
    /// There was no memory.
    NoMemory,
}

/// What takes the lines of a transcript.
pub(crate) trait TakesLines {
    /// Takes a line, without its line feed, and appends what it gives.
    fn take_line(
        &mut self,
        alloc: Global,
        line: &[u8],
        text: &mut Vec<u8>,
    ) -> Result<(), LineFault>;
}

// What came of a line that is not whole, and its number.
#[derive(Drop)]
struct Gathered {
    line: Vec<u8>,
    number: u64,
}

// A fault of the line of this number.
fn fault_of(number: u64, fault: LineFault) -> TranscriptFault {
    match fault {
        LineFault::Place(place) => TranscriptFault::Line(number, place),
        LineFault::NoMemory => TranscriptFault::NoMemory,
    }
}

// Has a line taken, and writes what it gives.
fn take<T: TakesLines, K: Sink>(
    alloc: Global,
    line: &[u8],
    taker: &mut T,
    out: &mut K,
) -> Result<(), LineEnd> {
    let mut text = Vec::new(alloc);
    match taker.take_line(alloc, line, &mut text) {
        Ok(()) => {}
        Err(fault) => return Err(LineEnd::Line(fault)),
    }
    match write_all(out, text.as_slice()) {
        Ok(()) => Ok(()),
        Err(_) => Err(LineEnd::Write),
    }
}

// Why no line behind this one is taken.
#[derive(Clone, Copy)]
enum LineEnd {
    Line(LineFault),
    Write,
}

impl Gathered {
    // The end of the line of this number.
    fn fault(&self, end: LineEnd) -> TranscriptFault {
        match end {
            LineEnd::Line(fault) => fault_of(self.number, fault),
            LineEnd::Write => TranscriptFault::Write,
        }
    }

    // Bytes of the line come. A line that is too long is refused at once.
    fn push(&mut self, part: &[u8]) -> Result<(), TranscriptFault> {
        match join_line(&mut self.line, part, LINE_BYTES) {
            Ok(()) => Ok(()),
            Err(JoinFault::Long) => Err(TranscriptFault::Line(self.number, LINE_BYTES as u64)),
            Err(JoinFault::NoMemory) => Err(TranscriptFault::NoMemory),
        }
    }

    // The line is whole: it is taken, and the next begins.
    fn end_line<T: TakesLines, K: Sink>(
        &mut self,
        alloc: Global,
        taker: &mut T,
        out: &mut K,
    ) -> Result<(), TranscriptFault> {
        match take(alloc, self.line.as_slice(), taker, out) {
            Ok(()) => {}
            Err(end) => return Err(self.fault(end)),
        }
        self.line.clear();
        self.number = self.number.saturating_add(1);
        Ok(())
    }

    // The next bytes of the text come.
    fn take_piece<T: TakesLines, K: Sink>(
        &mut self,
        alloc: Global,
        piece: &[u8],
        taker: &mut T,
        out: &mut K,
    ) -> Result<(), TranscriptFault> {
        let mut left = piece;
        while let Some((line, rest)) = first_line(left) {
            self.push(line)?;
            self.end_line(alloc, taker, out)?;
            left = rest;
        }
        self.push(left)
    }

    // The text ends: what came of its last line is a line too.
    fn finish<T: TakesLines, K: Sink>(
        &mut self,
        alloc: Global,
        taker: &mut T,
        out: &mut K,
    ) -> Result<(), TranscriptFault> {
        if self.line.is_empty() {
            return Ok(());
        }
        self.end_line(alloc, taker, out)
    }
}

/// Reads a transcript to its end, and has each line taken in its turn.
pub(crate) fn take_lines<S: Source, T: TakesLines, K: Sink>(
    alloc: Global,
    input: &mut S,
    taker: &mut T,
    out: &mut K,
) -> Result<(), TranscriptFault> {
    let mut gathered = Gathered {
        line: Vec::new(alloc),
        number: 1,
    };
    let mut buf = [0; PIECE];
    for _ in 0..u64::MAX {
        let Ok(count) = read_front(input, &mut buf, PIECE) else {
            return Err(TranscriptFault::Read);
        };
        if count == 0 {
            break;
        }
        gathered.take_piece(alloc, front(&buf, count), taker, out)?;
    }
    gathered.finish(alloc, taker, out)
}
