//! Reading from sources.
ghost use Rattle.std.specs.Prelude.{◌≡◌, ◌≢◌, ◌<◌, ◌≤◌, length, Err, IfOk, IsErrOf};
ghost use Rattle.outside.specs.Counts.{Rose};
ghost use Rattle.outside.specs.Told.{Taken, Whole};

use outside::{Source, front, read_front};
use std::alloc::Global;

/// Why a text was not read.
#[derive(Clone, Copy)]
pub enum TextFault {
    /// A read failed.
    Read,
    /// There was no memory.
    NoMemory,
}

/// Reads a text to its end, or to so many bytes.
pub fn read_text<S: Source>(
    alloc: Global,
    source: &mut S,
    most: usize,
) -> Result<Vec<u8>, TextFault>
    ensures taken { IfOk result (λ text. Taken (S.left source.old) (S.left source.new) text.items) }
    ensures most { IfOk result (λ text. length text.items ≤ most) }
    ensures whole { IfOk result (λ text. length text.items < most → Whole (S.left source.old) text.items) }
    ensures end { IfOk result (λ text. length text.items < most → Rose (S.ends source.old) (S.ends source.new)) }
    ensures failed { IsErrOf result TextFault.Read → Rose (S.faults source.old) (S.faults source.new) }
    ensures unfailed { result ≢ Err TextFault.Read → S.faults source.new ≡ S.faults source.old }
    ensures faults_stay { S.faults source.old ≤ S.faults source.new }
    ensures ends_stay { S.ends source.old ≤ S.ends source.new }
{
    let mut text = Vec::new(alloc);
    let mut buf = [0; 1024];
    while text.len() < most {
        let room = buf.len().min(most - text.len());
        let Ok(count) = read_front(source, &mut buf, room) else {
            return Err(TextFault::Read);
        };
        if count == 0 {
            return Ok(text);
        }
        let Ok(()) = text.extend_from_slice(front(&buf, count)) else {
            return Err(TextFault::NoMemory);
        };
    }
    Ok(text)
}
