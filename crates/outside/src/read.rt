//! Reading at most so many bytes.
ghost use Rattle.std.specs.Prelude.{◌≡◌, ◌<◌, ◌≤◌, length, take, IfOk, OnOk, OnErr};
ghost use Rattle.outside.specs.Counts.{Rose};
ghost use Rattle.outside.specs.Told.{Taken, NothingLeft};

use crate::source::{Failed, Source};

/// The first bytes of a buffer.
pub fn front(buf: &[u8], count: usize) -> &[u8]
    requires { count ≤ length buf.now }
    ensures { result.now ≡ take count buf.now }
{
    &buf[..count]
}

/// Reads at most `room` bytes into the front of the buffer, and answers how many.
pub fn read_front<S: Source>(source: &mut S, buf: &mut [u8], room: usize) -> Result<usize, Failed>
    requires some { 0 < room }
    requires within { room ≤ length buf.old }
    ensures fits { IfOk result (λ n. n ≤ room) }
    ensures taken { IfOk result (λ n. Taken (S.left source.old) (S.left source.new) (take n buf.new)) }
    ensures end { IfOk result (λ n. n ≡ 0 → NothingLeft (S.left source.old)) }
    ensures end_rose { IfOk result (λ n. n ≡ 0 → Rose (S.ends source.old) (S.ends source.new)) }
    ensures failed { OnErr result (Rose (S.faults source.old) (S.faults source.new)) }
    ensures unfailed { OnOk result (S.faults source.new ≡ S.faults source.old) }
    ensures untaken { OnErr result (S.left source.new ≡ S.left source.old) }
    ensures faults_stay { S.faults source.old ≤ S.faults source.new }
    ensures ends_stay { S.ends source.old ≤ S.ends source.new }
{
    source.read(&mut buf[..room])
}
