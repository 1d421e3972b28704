ghost use Rattle.std.specs.Prelude.{◌≡◌, ℕ, ◌≤◌, None, length, IfOk};

use crate::counts::Counts;
use crate::source::{Failed, Source};
use std::io::Read;
use std::marker::Model;
use std::rt::Files;
use std::{fs, io};

/// A file as a source. Each read opens it where it isn't open yet, so a file that can't be opened fails at its first
/// read. It tells no content; contracts see its path and its counts.
#[derive(Drop)]
pub struct FileSource<'a, R: Files> {
    rt: &'a R,
    path: &'a str,
    file: Option<R::File>,
    counts: Counts,
}

impl<'a, R: Files> Model for FileSource<'a, R> {
    ghost use Rattle.outside.specs.Counts.{FileCounts};

    ghost Value = { FileCounts };

    ghost view = { λ s. record { path = s.path.now; faults = s.counts.faults; ends = s.counts.zeros } };
}

impl<'a, R: Files> FileSource<'a, R> {
    /// The file at this path, which isn't opened yet.
    pub fn new(rt: &'a R, path: &'a str) -> FileSource<'a, R>
        ensures path { result.path ≡ path.now }
        ensures faults { result.faults ≡ 0 }
        ensures ends { result.ends ≡ 0 }
    {
        FileSource {
            rt,
            path,
            file: None,
            counts: Counts::none(),
        }
    }

    /// How many reads failed.
    pub fn faults(&self) -> u64
        ensures { result ≡ self.now.faults }
    {
        self.counts.faults
    }

    /// How many reads of a buffer that isn't empty were answered 0.
    pub fn ends(&self) -> u64
        ensures { result ≡ self.now.ends }
    {
        self.counts.zeros
    }
}

impl<R: Files> Source for FileSource<'_, R> {
    ghost left = { λ _. None };

    ghost faults = { λ s. s.faults };

    ghost ends = { λ s. s.ends };

    fn read(&mut self, buf: &mut [u8]) -> Result<usize, Failed> {
        let answer = read_opened(self.rt, self.path, &mut self.file, buf);
        self.counts.count(answer, buf.len())
    }
}

// Reads from the file, and opens it before where it isn't open yet.
fn read_opened<R: Files>(
    rt: &R,
    path: &str,
    file: &mut Option<R::File>,
    buf: &mut [u8],
) -> io::Result<usize>
    ensures { IfOk result (λ n. n ≤ length buf.old) }
{
    if let Some(opened) = file {
        return opened.read(buf);
    }
    let mut opened = fs::open(rt, path)?;
    let answer = opened.read(buf);
    *file = Some(opened);
    answer
}
