//! The input, from its first byte to its end.
ghost use Rattle.std.specs.Prelude.{◌≡◌, ◌≢◌, ◌≤◌, ℕ, List, [], length, true};
ghost use Rattle.outside.specs.Told.{Taken};
ghost use Rattle.line_feeding.specs.Going.{seen};
ghost use Rattle.line_feeding.specs.Fed.{looked, ReadToEnd};
ghost use Rattle.feeding.specs.Views.{reader_seen};
ghost use Rattle.feeding.specs.InputEnds.{InputEnds, as_result};
ghost use Rattle.line_feeding.specs.Stopping.{GivenBy};
ghost use Rattle.feeding.specs.Standing.{Stands, Prints};

use crate::reader::Reader;
use history_laws::Recorder;
use line_feeding::{InputEnd, InputRead};
use outside::{Sink, Source, front, read_front};
use std::alloc::Global;

/// So many bytes of an input are read at most.
pub const INPUT_BYTES: u64 = 4_294_967_296;

/// So many bytes are read at once at most.
const PIECE: usize = 4096;

/// Reads an input to its end, and takes each line.
pub fn read_lines<C: Recorder, S: Source, K: Sink>(
    alloc: Global,
    reader: &mut Reader<C>,
    input: &mut S,
    out: &mut K,
) -> InputRead
    requires stands { Stands [] (reader_seen C.view reader.old) }
    requires first { reader.old.number ≡ 1 }
    requires whole { (C.view reader.old.feeder.core).is_whole ≡ true }
    ensures read { (text : List ℕ) × (length text ≡ result.count) × Taken (S.left input.old) (S.left input.new) text
        × GivenBy (ReadToEnd (looked S.left S.faults S.ends input.old) (looked S.left S.faults S.ends input.new)) (C.view reader.new.feeder.core).config text (C.view reader.new.feeder.core).history
        × InputEnds result.end text (reader_seen C.view reader.new) (looked S.left S.faults S.ends input.old) (looked S.left S.faults S.ends input.new) }
    ensures prints { Prints (C.view reader.old.feeder.core) (C.view reader.new.feeder.core)
        (seen K.held K.faults K.refusals out.old) (seen K.held K.faults K.refusals out.new) (as_result result.end) }
    ensures unfailed { result.end ≢ InputEnd.Fault → S.faults input.new ≡ S.faults input.old }
    ensures faults_stay { S.faults input.old ≤ S.faults input.new }
    ensures ends_stay { S.ends input.old ≤ S.ends input.new }
{
    let mut buf = [0; PIECE];
    let mut count: u64 = 0;
    while count < INPUT_BYTES {
        let room = (INPUT_BYTES - count).min(PIECE as u64) as usize;
        let Ok(more) = read_front(input, &mut buf, room) else {
            return InputRead {
                end: InputEnd::Fault,
                count,
            };
        };
        // A read gives nothing only at the end; one that gives less than there is room for is no end.
        let is_end = more == 0;
        if is_end {
            let end = match reader.finish(alloc, out) {
                Ok(()) => InputEnd::Whole,
                Err(halt) => InputEnd::Halted(halt),
            };
            return InputRead { end, count };
        }
        let taken = reader.take_piece(alloc, front(&buf, more), out);
        count += more as u64;
        match taken {
            Ok(()) => {}
            Err(halt) => {
                return InputRead {
                    end: InputEnd::Halted(halt),
                    count,
                };
            }
        }
    }
    InputRead {
        end: InputEnd::Bound,
        count,
    }
}
