//! What the machine has (`outside`): a file that a test writes, standard input and output, and its own clock.
//!
//! `make abc` writes a file of this text, and `make 1000 lines` one of so many lines, each with its number in five digits. `twice`
//! reads it twice into four bytes, and tells both counts, the bytes, and the source's faults and ends; `pieces` reads it to its end
//! into seven bytes, and tells how many bytes came, whether they are the text, and the same counts. `remove` removes it.
//!
//! `standard` reads and writes no byte, and tells what both answer, and their faults, ends and refusals. `clock` reads the system's own
//! clock, waits three hundredths and reads it again: whether it is past 2020, and whether two hundredths passed.

use crate::words::told;
use anyhow::Result;
use gem_ids::Moment;
use outside::{Clock, Failed, FileSource, Sink, Source, StdinSource, StdoutSink, SystemClock};
use std::alloc::Global;
use std::fs;
use test_lines::Subject;

// The name of the file, in the folder in which the program is run.
const NAME: &str = "a-file-that-is-read";

/// The machine, and the text of the file.
#[derive(Drop)]
pub struct Machine<'a> {
    rt: &'a HostRuntime,
    text: String,
}

impl<'a> Machine<'a> {
    /// The machine, with no file yet.
    pub fn new(rt: &'a HostRuntime) -> Machine<'a> {
        Machine {
            rt,
            text: String::new(rt.alloc()),
        }
    }
}

impl Subject for Machine<'_> {
    fn answer(&mut self, alloc: Global, said: &str) -> Result<String> {
        let mut answer = String::new(alloc);
        let said = match said {
            "clock" => look(self.rt, &mut answer),
            "standard" => touch(self.rt, &mut answer),
            _ => say_file(self.rt, alloc, &mut self.text, said, &mut answer),
        };
        told(answer, said)
    }
}

fn say_file(
    rt: &HostRuntime,
    alloc: Global,
    text: &mut String,
    said: &str,
    answer: &mut String,
) -> Option<()> {
    match said {
        "twice" => read_twice(rt, answer),
        "pieces" => read_in_pieces(rt, alloc, text.as_bytes(), answer),
        "remove" => fs::remove_file(rt, NAME).ok(),
        _ => {
            text.clear();
            fill(alloc, text, said.strip_prefix("make ")?)?;
            fs::write(rt, NAME, text.as_str()).ok()
        }
    }
}

// A text, or so many lines.
fn fill(alloc: Global, text: &mut String, words: &str) -> Option<()> {
    let Some(lines) = words.strip_suffix(" lines") else {
        return text.push_str(words).ok();
    };
    for line in 0..lines.parse::<u32>().ok()? {
        write!(text, "line {line:05}\n").ok()?;
    }
    Some(())
}

fn read_twice(rt: &HostRuntime, answer: &mut String) -> Option<()> {
    let mut file = FileSource::new(rt, NAME);
    let mut buf = [0; 4];
    let counts = [file.read(&mut buf), file.read(&mut buf)];
    write!(
        answer,
        "{counts:?} {buf:?} {} {}",
        file.faults(),
        file.ends()
    )
    .ok()
}

// All that a source gives to a buffer of seven bytes, in its order, is put behind what stands there; whether it has an end.
fn read_all(source: &mut impl Source, all: &mut Vec<u8>) -> Option<()> {
    let mut buf = [0; 7];
    for _ in 0..100_000 {
        let count = answered(source.read(&mut buf))?;
        if count == 0 {
            return Some(());
        }
        all.extend_from_slice(buf.get(..count)?).ok()?;
    }
    None
}

fn answered(read: Result<usize, Failed>) -> Option<usize> {
    read.ok()
}

fn read_in_pieces(rt: &HostRuntime, alloc: Global, text: &[u8], answer: &mut String) -> Option<()> {
    let mut file = FileSource::new(rt, NAME);
    let mut all = Vec::new(alloc);
    read_all(&mut file, &mut all)?;
    let is_all = all.as_slice() == text;
    write!(
        answer,
        "{} {is_all} {} {}",
        all.len(),
        file.faults(),
        file.ends()
    )
    .ok()
}

fn touch(rt: &HostRuntime, answer: &mut String) -> Option<()> {
    let mut input = StdinSource::new(rt);
    let mut out = StdoutSink::new(rt);
    let took = [input.read(&mut []), out.write(&[])];
    let counts = [input.faults(), input.ends(), out.faults(), out.refusals()];
    write!(answer, "{took:?} {counts:?}").ok()
}

// The first moment of 2020: 20 years, 5 of them with a day more.
const IN_2020: Moment = Moment(7_305 * 8_640_000);

fn look(rt: &HostRuntime, answer: &mut String) -> Option<()> {
    let mut clock = SystemClock::new(rt);
    let before = clock.now();
    clock.wait(3);
    let after = clock.now();
    let is_later = after.0 >= before.0.saturating_add(2);
    write!(answer, "{} {is_later}", before > IN_2020).ok()
}
