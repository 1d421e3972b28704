//! Runs of the command `notes` over a disk in memory, which each run finds as the one before left it.
//!
//! `input line TEXT` and the other forms of `test_lines::add` put bytes into the input of the next run. `words notes a b` are other words than
//! `notes FILE`, and `pieces` lets a read give one byte at most. `reads 2`, `writes 1` and `calls 3` let the read of the input, the write of the
//! output and the call of the disk of this number fail.
//!
//! `run` tells the status and the text of the cause, and behind them each line that was printed, behind a semicolon. `bytes 13 23` tells so
//! many bytes of the disk from a place on, `size` how many it has, and `cut 40` and `set 13 01FF` change them.

use anyhow::{Result, bail};
use gem_ids::Text80;
use mem_disk::MemDisk;
use notes_top::{Cause, notes_top};
use outside::{MemSink, MemSource};
use std::alloc::Global;
use std::mem::replace;
use test_lines::{Subject, add, bytes, first_word, number, word, words};

// What a run is given beside the disk.
#[derive(Drop)]
struct Given {
    input: Vec<u8>,
    words: Vec<Text80>,
    is_in_pieces: bool,
    reads: Vec<u64>,
    writes: Vec<u64>,
    calls: Vec<u64>,
}

impl Given {
    fn nothing(alloc: Global) -> Given {
        Given {
            input: Vec::new(alloc),
            words: Vec::new(alloc),
            is_in_pieces: false,
            reads: Vec::new(alloc),
            writes: Vec::new(alloc),
            calls: Vec::new(alloc),
        }
    }
}

/// The bytes of the disk, and what the next run is given.
#[derive(Drop)]
pub struct Run {
    bytes: Vec<u8>,
    given: Given,
}

impl Run {
    /// An empty disk, and no input.
    pub fn new(alloc: Global) -> Run {
        Run {
            bytes: Vec::new(alloc),
            given: Given::nothing(alloc),
        }
    }
}

// The words of a command.
fn texts(alloc: Global, said: &[&str]) -> Result<Vec<Text80>> {
    let mut all = Vec::new(alloc);
    for word in said {
        all.push(Text80::read(word.as_bytes()).unwrap_or(Text80::empty()))?;
    }
    Ok(all)
}

// The words of the command, `notes FILE` where none were told.
fn command(alloc: Global, told: Vec<Text80>) -> Result<Vec<Text80>> {
    if told.is_empty() {
        texts(alloc, &["notes", "FILE"])
    } else {
        Ok(told)
    }
}

// How a run ended, in words.
fn end_words(alloc: Global, status: u8, cause: Cause) -> Result<String> {
    match cause.text(alloc)? {
        Some(text) => Ok(format!(in alloc; "{status} {text}")?),
        None => Ok(format!(in alloc; "{status}")?),
    }
}

// Puts what was printed behind a text, each line behind a semicolon.
fn push_printed(text: &mut String, printed: &[u8]) -> Result<()> {
    let mut is_first = true;
    for byte in printed {
        if is_first {
            text.push_str("; ")?;
        }
        is_first = *byte == b'\n';
        if !is_first {
            text.push(char::from(*byte))?;
        }
    }
    Ok(())
}

// The source of an input.
fn source_of(input: Vec<u8>, reads: Vec<u64>, is_in_pieces: bool) -> MemSource {
    let source = MemSource::new(input, reads);
    if is_in_pieces {
        source.with_piece(1)
    } else {
        source
    }
}

// Runs the command: how it ended, what it printed, and the bytes of the disk then.
fn played(alloc: Global, disk: MemDisk, given: Given) -> Result<(String, Vec<u8>)> {
    let Given {
        input,
        words,
        is_in_pieces,
        reads,
        writes,
        ..
    } = given;
    let words = command(alloc, words)?;
    let mut source = source_of(input, reads, is_in_pieces);
    let mut sink = MemSink::new(alloc, writes);
    let (status, cause, disk) = notes_top(alloc, &words, disk, &mut source, &mut sink);
    let mut text = end_words(alloc, status, cause)?;
    push_printed(&mut text, sink.as_bytes())?;
    Ok((text, Vec::from_slice(alloc, disk.bytes())?))
}

impl Run {
    // Runs the command on what was given, and is given nothing then.
    fn play(&mut self, alloc: Global) -> Result<String> {
        let given = replace(&mut self.given, Given::nothing(alloc));
        let calls = Vec::from_slice(alloc, &given.calls)?;
        let disk = MemDisk::new(alloc, Vec::from_slice(alloc, &self.bytes)?, calls)?;
        let (told, bytes) = played(alloc, disk, given)?;
        self.bytes = bytes;
        Ok(told)
    }

    // So many bytes from a place on.
    fn shown(&self, alloc: Global, said: &[&str]) -> Result<String> {
        let from = number(said, 1)? as usize;
        let to = from.saturating_add(number(said, 2)? as usize);
        match self.bytes.get(from..to) {
            Some(piece) => Ok(hex::encode_upper(alloc, piece)?),
            None => bail!("the disk ends before"),
        }
    }

    // Changes bytes.
    fn set(&mut self, alloc: Global, said: &[&str]) -> Result<()> {
        let from = number(said, 1)? as usize;
        for (k, byte) in bytes(alloc, word(said, 2)?)?.iter().enumerate() {
            if let Some(place) = self.bytes.get_mut(from.saturating_add(k)) {
                *place = *byte;
            }
        }
        Ok(())
    }

    // What changes the next run, or the disk.
    fn change(&mut self, alloc: Global, said: &[&str]) -> Result<()> {
        match word(said, 0)? {
            "words" => self.given.words = texts(alloc, said.get(1..).unwrap_or(&[]))?,
            "pieces" => self.given.is_in_pieces = true,
            "reads" => self.given.reads.push(number(said, 1)?)?,
            "writes" => self.given.writes.push(number(said, 1)?)?,
            "calls" => self.given.calls.push(number(said, 1)?)?,
            "cut" => self.bytes.truncate(number(said, 1)? as usize),
            "set" => self.set(alloc, said)?,
            _ => bail!("it says nothing"),
        }
        Ok(())
    }

    // Puts bytes into the input.
    fn put(&mut self, alloc: Global, said: &str) -> Result<()> {
        if add(alloc, &mut self.given.input, said)? {
            Ok(())
        } else {
            bail!("it says no bytes")
        }
    }
}

impl Subject for Run {
    fn answer(&mut self, alloc: Global, said: &str) -> Result<String> {
        let (form, rest) = first_word(said);
        if form == "input" {
            self.put(alloc, rest)?;
            return Ok(String::new(alloc));
        }
        let said = words(alloc, said)?;
        match word(&said, 0)? {
            "run" => self.play(alloc),
            "bytes" => self.shown(alloc, &said),
            "size" => Ok(format!(in alloc; "{}", self.bytes.len())?),
            _ => {
                self.change(alloc, &said)?;
                Ok(String::new(alloc))
            }
        }
    }
}
