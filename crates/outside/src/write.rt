//! Writing all bytes.
ghost use Rattle.std.specs.Prelude.{◌≡◌, ◌≤◌, length, take, drop, OnOk, OnErr, IfErr};
ghost use Rattle.outside.specs.Counts.{Failed};
ghost use Rattle.outside.specs.Told.{Written, WrittenFront};

use crate::sink::Sink;

/// A write failed, or took nothing of a piece.
#[derive(Clone, Copy)]
pub struct WriteFault {
    /// How many bytes were written before.
    pub written: usize,
}

// The bytes from a place on.
pub(crate) fn rest_from(bytes: &[u8], at: usize) -> &[u8]
    requires { at ≤ length bytes.now }
    ensures { result.now ≡ drop at bytes.now }
{
    &bytes[at..]
}

/// Writes all bytes, or a front of them where a write failed or took nothing.
pub fn write_all<K: Sink>(out: &mut K, bytes: &[u8]) -> Result<(), WriteFault>
    ensures all { OnOk result (Written (K.held out.old) (K.held out.new) bytes.now) }
    ensures front { OnErr result (WrittenFront (K.held out.old) (K.held out.new) bytes.now) }
    ensures count { IfErr result (λ f. (f.written ≤ length bytes.now) × Written (K.held out.old) (K.held out.new) (take f.written bytes.now)) }
    ensures unfailed { OnOk result ((K.faults out.new ≡ K.faults out.old) × (K.refusals out.new ≡ K.refusals out.old)) }
    ensures cause { OnErr result (Failed (K.faults out.old) (K.faults out.new) (K.refusals out.old) (K.refusals out.new)) }
    ensures faults_stay { K.faults out.old ≤ K.faults out.new }
    ensures refusals_stay { K.refusals out.old ≤ K.refusals out.new }
{
    let mut at = 0;
    while at < bytes.len() {
        match out.write(rest_from(bytes, at)) {
            Ok(0) => return Err(WriteFault { written: at }),
            Ok(count) => at += count,
            Err(_) => return Err(WriteFault { written: at }),
        }
    }
    Ok(())
}
