ghost use Rattle.std.specs.Prelude.{◌≡◌, ℕ, ◌≤◌, [], false, true, ⊤, length, IfOk};

use crate::counts::Counts;
use crate::disk::Disk;
use crate::source::Failed;
use std::fs::{File, OpenOptions};
use std::marker::Model;
use std::os::unix::fs::FileExt;
use std::rt::Files;
use std::{fs, io};

/// A file as a disk. The first call opens it, and makes it where there is none, so a missing file reads as an empty one; it then syncs the
/// folder in which the file stands, so that its name outlives the power too. A sync is `sync_data`, which takes to the device all bytes
/// and the file's length. The file system has to do what it is told by then: one that tells of a sync that was none keeps no promise.
///
/// It tells no content; contracts see its path and its count of faults.
#[derive(Drop)]
pub struct FileDisk<'a, R: Files<File = File>> {
    rt: &'a R,
    path: &'a str,
    file: Option<File>,
    counts: Counts,
}

impl<'a, R: Files<File = File>> Model for FileDisk<'a, R> {
    ghost use Rattle.outside.specs.Counts.{DiskCounts};

    ghost Value = { DiskCounts };

    ghost view = { λ d. record { path = d.path.now; faults = d.counts.faults } };
}

impl<'a, R: Files<File = File>> FileDisk<'a, R> {
    /// The file at this path, which isn't opened yet.
    pub fn new(rt: &'a R, path: &'a str) -> FileDisk<'a, R>
        ensures path { result.path ≡ path.now }
        ensures faults { result.faults ≡ 0 }
    {
        FileDisk {
            rt,
            path,
            file: None,
            counts: Counts::none(),
        }
    }

    /// How many calls failed.
    pub fn faults(&self) -> u64
        ensures { result ≡ self.now.faults }
    {
        self.counts.faults
    }
}

impl<R: Files<File = File>> Disk for FileDisk<'_, R> {
    ghost tells = { λ _. false };

    ghost reads = { λ _. [] };

    ghost leaves = { λ _ image. ⊤ };

    ghost moment = { λ _. 0 };

    ghost left_since = { λ _ t image. ⊤ };

    ghost faults = { λ d. d.faults };

    ghost reads_so = { λ disk told. tt };

    ghost only_now = { λ disk image told left. tt };

    ghost counts_now = { λ disk t image told le left. tt };

    fn read_at(&mut self, at: u64, buf: &mut [u8]) -> Result<usize, Failed> {
        let answer = read_opened(self.rt, self.path, &mut self.file, at, buf);
        self.counts.passed(answer)
    }

    fn write_at(&mut self, at: u64, bytes: &[u8]) -> Result<(), Failed> {
        let answer = write_opened(self.rt, self.path, &mut self.file, at, bytes);
        self.counts.passed(answer)
    }

    fn sync(&mut self) -> Result<(), Failed> {
        let answer = sync_opened(self.rt, self.path, &mut self.file);
        self.counts.passed(answer)
    }
}

// The folder in which a file stands.
fn folder_of(path: &str) -> &str {
    match path.rsplit_once('/') {
        Some(("", _)) => "/",
        Some((folder, _)) => folder,
        None => ".",
    }
}

// Opens the file, and makes it where there is none; its name is on the device then.
fn open<R: Files<File = File>>(rt: &R, path: &str) -> io::Result<File> {
    let file = OpenOptions::new()
        .read(true)
        .write(true)
        .create(true)
        .open(rt, path)?;
    fs::open(rt, folder_of(path))?.sync_all()?;
    Ok(file)
}

// The file, which is opened before where it isn't open yet.
fn opened<'f, R: Files<File = File>>(
    rt: &R,
    path: &str,
    file: &'f mut Option<File>,
) -> io::Result<&'f mut File> {
    if file.is_none() {
        *file = Some(open(rt, path)?);
    }
    file.as_mut().ok_or(io::ErrorKind::NotFound.into())
}

// Reads from the file at a place.
fn read_opened<R: Files<File = File>>(
    rt: &R,
    path: &str,
    file: &mut Option<File>,
    at: u64,
    buf: &mut [u8],
) -> io::Result<usize>
    ensures { IfOk result (λ n. n ≤ length buf.old) }
{
    opened(rt, path, file)?.read_at(buf, at)
}

// Writes to the file at a place.
fn write_opened<R: Files<File = File>>(
    rt: &R,
    path: &str,
    file: &mut Option<File>,
    at: u64,
    bytes: &[u8],
) -> io::Result<()> {
    opened(rt, path, file)?.write_all_at(bytes, at)
}

// Syncs the file.
fn sync_opened<R: Files<File = File>>(
    rt: &R,
    path: &str,
    file: &mut Option<File>,
) -> io::Result<()> {
    opened(rt, path, file)?.sync_data()
}
