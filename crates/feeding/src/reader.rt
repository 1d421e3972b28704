//! The input as lines: bytes are gathered to lines, and each line is taken at its line feed.
ghost use Rattle.std.specs.Prelude.{◌≡◌, ◌+◌, ◌<◌, ◌≤◌, ◌≢◌, ◌^◌, ℕ, List, [], ◌∷◌, ◌++◌, length, true, Err, IfOk, OnOk};
ghost use Rattle.text_lines.specs.Lines.{IsOneLine};
ghost use Rattle.tool_events.specs.Configs.{IsConfig};
ghost use Rattle.line_feeding.specs.Going.{seen};

use crate::feeder::Feeder;
use history_laws::Recorder;
use line_feeding::Halt;
use outside::Sink;
use std::alloc::{AllocError, Global};
use text_lines::{JoinFault, first_line, join_line};
use tool_events::Config;
use tool_texts::LINE_BYTES;

/// Gathers bytes to lines, and takes each.
#[derive(Drop)]
pub struct Reader<C: Recorder> {
    pub feeder: Feeder<C>,
    /// What came of the line that isn't whole.
    pub line: Vec<u8>,
    /// The number of that line, the first being 1.
    pub number: u64,
}

impl<C: Recorder> Reader<C> {
    ghost use Rattle.feeding.specs.Views.{reader_seen};
    ghost use Rattle.feeding.specs.Standing.{Stands, StandsOrStopped, Takes, Finishes};

    /// A reader before the first byte.
    pub fn open(alloc: Global, config: &Config) -> Result<Reader<C>, AllocError>
        requires { IsConfig config.now }
        ensures stands { IfOk result (λ reader. Stands [] (reader_seen C.view reader)) }
        ensures number { IfOk result (λ reader. reader.number ≡ 1) }
        ensures history { IfOk result (λ reader. (C.view reader.feeder.core).history ≡ []) }
        ensures config { IfOk result (λ reader. (C.view reader.feeder.core).config ≡ config.now) }
        ensures whole { IfOk result (λ reader. (C.view reader.feeder.core).is_whole ≡ true) }
    {
        let feeder = Feeder::open(alloc, config)?;
        Ok(Reader {
            feeder,
            line: Vec::new(alloc),
            number: 1,
        })
    }

    /// The line is whole: it is taken, and the next begins.
    fn end_line<K: Sink>(&mut self, alloc: Global, out: &mut K) -> Result<(), Halt>
        requires number { self.old.number + 1 < 2 ^ 64 }
        requires whole { (C.view self.old.feeder.core).is_whole ≡ true }
        ensures takes { (text : List ℕ) → Stands text (reader_seen C.view self.old)
            → Takes text (10 ∷ []) (reader_seen C.view self.old) (reader_seen C.view self.new) (seen K.held K.faults K.refusals out.old) (seen K.held K.faults K.refusals out.new) result }
        ensures number { self.new.number ≤ self.old.number + 1 }
        ensures whole { OnOk result ((C.view self.new.feeder.core).is_whole ≡ true) }
    {
        match self.feeder.take_line(alloc, &self.line, out) {
            Ok(()) => {}
            Err(halt) => return Err(halt),
        }
        self.line.clear();
        self.number += 1;
        Ok(())
    }

    /// Bytes of the line that isn't whole come, of which none is a line feed. A line of over 600,000 bytes is refused.
    fn push_part(&mut self, part: &[u8]) -> Result<(), Halt>
        requires { IsOneLine part.now }
        ensures stands { (text : List ℕ) → Stands text (reader_seen C.view self.old) → StandsOrStopped (text ++ part.now) (reader_seen C.view self.new) result }
        ensures core_stays { self.new.feeder.core ≡ self.old.feeder.core }
        ensures fault { result ≢ Err Halt.Write }
        ensures number { self.new.number ≡ self.old.number }
    {
        match join_line(&mut self.line, part, LINE_BYTES) {
            Ok(()) => Ok(()),
            Err(JoinFault::Long) => Err(Halt::Line(LINE_BYTES as u64)),
            Err(JoinFault::NoMemory) => Err(Halt::NoMemory),
        }
    }

    /// A whole line comes, where nothing came of it before: it is taken where it lies, and the next begins.
    fn take_whole<K: Sink>(&mut self, alloc: Global, line: &[u8], out: &mut K) -> Result<(), Halt>
        requires number { self.old.number + 1 < 2 ^ 64 }
        requires whole { (C.view self.old.feeder.core).is_whole ≡ true }
        requires line { IsOneLine line.now }
        requires none { self.old.line.items ≡ [] }
        ensures takes { (text : List ℕ) → Stands text (reader_seen C.view self.old)
            → Takes text (line.now ++ 10 ∷ []) (reader_seen C.view self.old) (reader_seen C.view self.new) (seen K.held K.faults K.refusals out.old) (seen K.held K.faults K.refusals out.new) result }
        ensures number { self.new.number ≤ self.old.number + 1 }
        ensures whole { OnOk result ((C.view self.new.feeder.core).is_whole ≡ true) }
    {
        match self.feeder.take_line(alloc, line, out) {
            Ok(()) => {}
            Err(halt) => return Err(halt),
        }
        self.number += 1;
        Ok(())
    }

    /// What was left of the line comes, and its line feed.
    fn take_rest<K: Sink>(&mut self, alloc: Global, rest: &[u8], out: &mut K) -> Result<(), Halt>
        requires number { self.old.number + 1 < 2 ^ 64 }
        requires whole { (C.view self.old.feeder.core).is_whole ≡ true }
        requires line { IsOneLine rest.now }
        ensures takes { (text : List ℕ) → Stands text (reader_seen C.view self.old)
            → Takes text (rest.now ++ 10 ∷ []) (reader_seen C.view self.old) (reader_seen C.view self.new) (seen K.held K.faults K.refusals out.old) (seen K.held K.faults K.refusals out.new) result }
        ensures number { self.new.number ≤ self.old.number + 1 }
        ensures whole { OnOk result ((C.view self.new.feeder.core).is_whole ≡ true) }
    {
        if self.line.is_empty() {
            return self.take_whole(alloc, rest, out);
        }
        match self.push_part(rest) {
            Ok(()) => self.end_line(alloc, out),
            Err(halt) => Err(halt),
        }
    }

    /// The next bytes of the text come.
    pub fn take_piece<K: Sink>(
        &mut self,
        alloc: Global,
        piece: &[u8],
        out: &mut K,
    ) -> Result<(), Halt>
        requires number { self.old.number + length piece.now < 2 ^ 64 }
        requires whole { (C.view self.old.feeder.core).is_whole ≡ true }
        ensures takes { (text : List ℕ) → Stands text (reader_seen C.view self.old)
            → Takes text piece.now (reader_seen C.view self.old) (reader_seen C.view self.new) (seen K.held K.faults K.refusals out.old) (seen K.held K.faults K.refusals out.new) result }
        ensures number { self.new.number ≤ self.old.number + length piece.now }
        ensures whole { OnOk result ((C.view self.new.feeder.core).is_whole ≡ true) }
    {
        let mut left = piece;
        while let Some((line, behind)) = first_line(left) {
            match self.take_rest(alloc, line, out) {
                Ok(()) => {}
                Err(halt) => return Err(halt),
            }
            left = behind;
        }
        self.push_part(left)
    }

    /// The text ends: what came of its last line is a line too.
    pub fn finish<K: Sink>(&mut self, alloc: Global, out: &mut K) -> Result<(), Halt>
        requires { (C.view self.old.feeder.core).is_whole ≡ true }
        ensures finishes { (text : List ℕ) → Stands text (reader_seen C.view self.old)
            → Finishes text (reader_seen C.view self.old) (reader_seen C.view self.new) (seen K.held K.faults K.refusals out.old) (seen K.held K.faults K.refusals out.new) result }
        ensures number { self.new.number ≡ self.old.number }
    {
        if self.line.is_empty() {
            return Ok(());
        }
        self.feeder.take_line(alloc, &self.line, out)
    }
}
