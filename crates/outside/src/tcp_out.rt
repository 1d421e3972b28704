ghost use Rattle.std.specs.Prelude.{◌≡◌, ℕ, false, None};

use crate::counts::Counts;
use crate::link::LinkOut;
use crate::sending::{write_patiently, write_whole};
use crate::signs::RunSigns;
use crate::sink::Sink;
use crate::source::Failed;
use arrayvec::ArrayVec;
use std::io;
use std::marker::Model;
use std::net::{Shutdown, TcpStream};

// How many bytes are kept at most until they are sent.
const KEPT: usize = 4096;

/// The end of a TCP stream at which bytes go out. It keeps up to 4,096 bytes until it is flushed or more comes than it has room for,
/// so that many short frames are one piece to the system. A write or a flush that sends waits until the system takes all that was kept
/// and some of what is written; where the system takes nothing for two seconds, since the peer reads nothing, the call fails, and where
/// the signs tell that the session is over it fails within a tenth of a second. What it kept is lost then. It tells no content;
/// contracts see its counts, and whether it was shut.
#[derive(Drop)]
pub struct TcpOut<'a> {
    stream: TcpStream,
    signs: Option<&'a RunSigns>,
    counts: Counts,
    kept: ArrayVec<u8, KEPT>,
    is_shut: bool,
}

impl<'a> Model for TcpOut<'a> {
    ghost use Rattle.outside.specs.Counts.{LinkOutCounts};

    ghost Value = { LinkOutCounts };

    ghost view = { λ s. record { faults = s.counts.faults; refusals = s.counts.zeros; is_shut = s.is_shut } };
}

impl<'a> TcpOut<'a> {
    // This end of the stream, which isn't shut, and the signs that its writes look at, if any.
    pub(crate) fn new(stream: TcpStream, signs: Option<&'a RunSigns>) -> TcpOut<'a>
        ensures { result ≡ record { faults = 0; refusals = 0; is_shut = false } }
    {
        TcpOut {
            stream,
            signs,
            counts: Counts::none(),
            kept: ArrayVec::new(),
            is_shut: false,
        }
    }

    /// How many writes and flushes failed.
    pub fn faults(&self) -> u64
        ensures { result ≡ self.now.faults }
    {
        self.counts.faults
    }

    /// How many writes of a piece that isn't empty were answered 0.
    pub fn refusals(&self) -> u64
        ensures { result ≡ self.now.refusals }
    {
        self.counts.zeros
    }

    // Sends what it keeps, and keeps nothing then.
    fn send_kept(&mut self) -> io::Result<()>
        ensures same { self.new ≡ self.old }
    {
        let sent = write_whole(&mut self.stream, self.signs, self.kept.as_slice());
        self.kept.clear();
        sent
    }

    /// Whether it was shut.
    pub fn is_shut(&self) -> bool
        ensures { result ≡ self.now.is_shut }
    {
        self.is_shut
    }
}

impl Sink for TcpOut<'_> {
    ghost held = { λ _. None };

    ghost faults = { λ s. s.faults };

    ghost refusals = { λ s. s.refusals };

    fn write(&mut self, bytes: &[u8]) -> Result<usize, Failed> {
        if self.kept.try_extend_from_slice(bytes).is_ok() {
            return Ok(bytes.len());
        }
        self.flush()?;
        let answer = write_patiently(&mut self.stream, self.signs, bytes);
        self.counts.count(answer, bytes.len())
    }
}

impl LinkOut for TcpOut<'_> {
    ghost is_shut = { λ s. s.is_shut };

    fn flush(&mut self) -> Result<(), Failed> {
        let sent = self.send_kept();
        if sent.is_err() {
            self.counts.failed();
            return Err(Failed);
        }
        Ok(())
    }

    /// A read that waits at the other end comes to its end. That the peer is gone already is no fault, nor that it takes no more.
    fn shut(&mut self) {
        let _ = self.send_kept();
        let _ = self.stream.shutdown(Shutdown::Both);
        self.is_shut = true;
    }
}
