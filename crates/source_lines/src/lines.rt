//! A source as lines: bytes are read in pieces and gathered to lines.
ghost use Rattle.std.specs.Prelude.{◌≡◌, ◌+◌, ◌-◌, ◌⊎◌, ◌<◌, ◌≤◌, [], ◌∷◌, ◌++◌, length, take, drop, Err, IfSome, IfNone, IfErr, OnOk, OnErr};
ghost use Rattle.text_lines.specs.Lines.{IsOneLine};
ghost use Rattle.source_lines.specs.declared.no_line.NoLine.TheVariants as no_line;
ghost use Rattle.source_lines.specs.Limits.{source_bytes};
ghost use Rattle.source_lines.specs.Reads.{TakesKept, ReadsPiece, NextLine, source_told};

use crate::no_line::NoLine;
use outside::{Source, read_front};
use std::alloc::Global;
use std::marker::Model;
use text_lines::{JoinFault, join_line, line_end};
use tool_texts::LINE_BYTES;

/// So many bytes of a source are read at most.
pub const SOURCE_BYTES: u64 = 4_294_967_296;

/// So many bytes are read at once at most.
const PIECE: usize = 4096;

/// Reads a source, and gives its lines one after the other.
#[derive(Drop)]
pub struct SourceLines {
    /// The line that was given last, or what came of one that isn't whole.
    line: Vec<u8>,
    /// The piece that was read last. What of it is in no line yet lies from `at` up to `end`.
    piece: [u8; PIECE],
    at: usize,
    end: usize,
    /// How many bytes were read at all.
    count: u64,
}

impl Model for SourceLines {
    ghost use Rattle.std.specs.Prelude.{◌≤◌, ◌-◌, take, drop};
    ghost use Rattle.source_lines.specs.Reads.{LinesRead};

    ghost Value = { LinesRead };

    ghost view = { λ s. record {
      line = s.line.items;
      kept = take (s.end - s.at) (drop s.at s.piece);
      count = s.count;
    } };

    ghost invariant = { λ s. (s.at ≤ s.end) × (s.end ≤ 4096) };
}

impl SourceLines {
    /// A reader before the first byte.
    pub fn new(alloc: Global) -> SourceLines
        ensures { result ≡ record { line = []; kept = []; count = 0 } }
    {
        SourceLines {
            line: Vec::new(alloc),
            piece: [0; PIECE],
            at: 0,
            end: 0,
            count: 0,
        }
    }

    /// The line that was given last, or what came of one that isn't whole.
    pub fn line(&self) -> &[u8]
        ensures { result.now ≡ self.now.line }
    {
        self.line.as_slice()
    }

    /// How many bytes were read at all.
    pub fn count(&self) -> u64
        ensures { result ≡ self.now.count }
    {
        self.count
    }

    // The next line begins.
    fn begin_line(&mut self)
        ensures { self.new ≡ record self.old { line = [] } }
    {
        self.line.clear();
    }

    // How much is kept.
    fn kept_size(&self) -> usize
        ensures { result ≡ length self.now.kept }
    {
        part(&self.piece, self.at, self.end).len()
    }

    // The place of the first line feed in what is kept.
    fn kept_end(&self) -> Option<usize>
        ensures within { IfSome result (λ end. end < length self.now.kept) }
        ensures feed { IfSome result (λ end. self.now.kept ≡ take end self.now.kept ++ 10 ∷ drop (end + 1) self.now.kept) }
        ensures line { IfSome result (λ end. IsOneLine (take end self.now.kept)) }
        ensures none { IfNone result (IsOneLine self.now.kept) }
    {
        line_end(part(&self.piece, self.at, self.end))
    }

    // So many bytes of what is kept go to the line, and so many are done with.
    fn push_kept(&mut self, count: usize, used: usize) -> Result<(), NoLine>
        requires order { count ≤ used }
        requires within { used ≤ length self.old.kept }
        ensures line { OnOk result (self.new.line ≡ self.old.line ++ take count self.old.kept) }
        ensures kept { OnOk result (self.new.kept ≡ drop used self.old.kept) }
        ensures fits { OnOk result (length self.old.line ≤ 600000 → length self.new.line ≤ 600000) }
        ensures long { result ≡ Err no_line.Long → 600000 < length self.old.line + count }
        ensures why { IfErr result (λ why. (why ≡ no_line.Long) ⊎ (why ≡ no_line.NoMemory)) }
        ensures count { self.new.count ≡ self.old.count }
    {
        let to = self.at + count;
        match join_line(&mut self.line, part(&self.piece, self.at, to), LINE_BYTES) {
            Ok(()) => {
                self.at += used;
                Ok(())
            }
            Err(JoinFault::Long) => Err(NoLine::Long),
            Err(JoinFault::NoMemory) => Err(NoLine::NoMemory),
        }
    }

    // What is kept goes to the line, up to its first line feed, where it has one: then the line is whole.
    fn take_kept(&mut self) -> Result<bool, NoLine>
        ensures { TakesKept self.old self.new result }
    {
        let all = self.kept_size();
        match self.kept_end() {
            Some(end) => match self.push_kept(end, end + 1) {
                Ok(()) => Ok(true),
                Err(why) => Err(why),
            },
            None => match self.push_kept(all, all) {
                Ok(()) => Ok(false),
                Err(why) => Err(why),
            },
        }
    }

    // Reads the next piece, where nothing is kept. One that is shorter than it may be is no end.
    fn read_piece<S: Source>(&mut self, source: &mut S) -> Result<(), NoLine>
        requires kept { self.old.kept ≡ [] }
        requires within { self.old.count ≤ source_bytes }
        ensures line { self.new.line ≡ self.old.line }
        ensures kept { OnErr result (self.new.kept ≡ []) }
        ensures reads { ReadsPiece self.old self.new (source_told S.left S.faults S.ends source.old) (source_told S.left S.faults S.ends source.new) result }
    {
        self.at = 0;
        self.end = 0;
        if self.count >= SOURCE_BYTES {
            return Err(NoLine::Bound);
        }
        let room = (SOURCE_BYTES - self.count).min(PIECE as u64) as usize;
        let Ok(more) = read_front(source, &mut self.piece, room) else {
            return Err(NoLine::Fault);
        };
        if more == 0 {
            return Err(NoLine::End);
        }
        self.end = more;
        self.count += more as u64;
        Ok(())
    }

    /// Reads on up to the next line feed, and gives the line before it as `line`. The other answers say why there is none;
    /// `line` is then what came of it. A short read is no end: a line is given only once its line feed has come. After an
    /// error no line is to be asked for any more.
    pub fn next_line<S: Source>(&mut self, source: &mut S) -> Result<(), NoLine>
        requires { self.old.count ≤ source_bytes }
        ensures { NextLine self.old self.new (source_told S.left S.faults S.ends source.old) (source_told S.left S.faults S.ends source.new) result }
    {
        self.begin_line();
        loop {
            match self.take_kept() {
                Ok(true) => return Ok(()),
                Ok(false) => {}
                Err(why) => return Err(why),
            }
            match self.read_piece(source) {
                Ok(()) => {}
                Err(why) => return Err(why),
            }
        }
    }
}

// The bytes of a piece from one place up to another.
fn part(piece: &[u8], from: usize, to: usize) -> &[u8]
    requires order { from ≤ to }
    requires within { to ≤ length piece.now }
    ensures { result.now ≡ take (to - from) (drop from piece.now) }
{
    &piece[from..to]
}
