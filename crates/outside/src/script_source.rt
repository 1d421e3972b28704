ghost use Rattle.std.specs.Prelude.{◌≡◌, ℕ, ◌≤◌, None, length, IfOk};

use crate::counts::Counts;
use crate::ready::ready;
use crate::signs::RunSigns;
use crate::source::{Failed, Source};
use libc::net::POLLIN;
use std::io::{self, Read};
use std::marker::Model;
use std::os::fd::AsRawFd;

// How many milliseconds pass between two looks whether the run is over.
const BETWEEN_LOOKS: i32 = 100;

/// A reader of the system, as standard input, as a source that gives its end once the run is over, within a tenth of a second,
/// though nothing came and nobody closed it. It tells no content; contracts see its counts.
#[derive(Drop)]
pub struct ScriptSource<'a, I> {
    input: I,
    signs: &'a RunSigns,
    counts: Counts,
}

impl<'a, I> Model for ScriptSource<'a, I> {
    ghost use Rattle.outside.specs.Counts.{SourceCounts};

    ghost Value = { SourceCounts };

    ghost view = { λ s. record { faults = s.counts.faults; ends = s.counts.zeros } };
}

impl<'a, I: Read + AsRawFd + Drop> ScriptSource<'a, I> {
    /// What this reader gives, until the signs tell that the run is over.
    pub fn new(input: I, signs: &'a RunSigns) -> ScriptSource<'a, I>
        ensures faults { result.faults ≡ 0 }
        ensures ends { result.ends ≡ 0 }
    {
        ScriptSource {
            input,
            signs,
            counts: Counts::none(),
        }
    }

    /// How many reads failed.
    pub fn faults(&self) -> u64
        ensures { result ≡ self.now.faults }
    {
        self.counts.faults
    }

    /// How many reads of a buffer that isn't empty were answered 0.
    pub fn ends(&self) -> u64
        ensures { result ≡ self.now.ends }
    {
        self.counts.zeros
    }
}

impl<I: Read + AsRawFd + Drop> Source for ScriptSource<'_, I> {
    ghost left = { λ _. None };

    ghost faults = { λ s. s.faults };

    ghost ends = { λ s. s.ends };

    fn read(&mut self, buf: &mut [u8]) -> Result<usize, Failed> {
        let answer = read_in_a_run(&mut self.input, self.signs, buf);
        self.counts.count(answer, buf.len())
    }
}

// Reads once there is something to read, or gives the end where the run is over before.
fn read_in_a_run<I: Read + AsRawFd>(
    input: &mut I,
    signs: &RunSigns,
    buf: &mut [u8],
) -> io::Result<usize>
    ensures { IfOk result (λ n. n ≤ length buf.old) }
{
    if comes_before_the_end(input.as_raw_fd(), signs) {
        return input.read(buf);
    }
    Ok(0)
}

// Waits until there is something to read, or the run is over; whether the first came. Where the system refuses to tell, the
// read is to tell why.
fn comes_before_the_end(fd: i32, signs: &RunSigns) -> bool {
    for _ in 0..u64::MAX {
        if signs.is_run_over() {
            return false;
        }
        if ready(fd, POLLIN, BETWEEN_LOOKS) != Some(0) {
            return true;
        }
    }
    true
}
