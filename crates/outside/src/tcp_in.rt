ghost use Rattle.std.specs.Prelude.{◌≡◌, None};

use crate::counts::Counts;
use crate::link::LinkIn;
use crate::source::{Failed, Source};
use crate::turning_away::await_bytes;
use std::io::Read;
use std::marker::Model;
use std::net::{TcpListener, TcpStream};

/// The end of a TCP stream at which bytes come in. A read waits until there are some, or the stream ends. While it waits, whoever
/// else connects at the listener that gave the stream is turned away: the connection is accepted and closed at once. It tells no
/// content; contracts see its counts.
#[derive(Drop)]
pub struct TcpIn {
    stream: TcpStream,
    listener: TcpListener,
    counts: Counts,
}

impl Model for TcpIn {
    ghost use Rattle.outside.specs.Counts.{SourceCounts};

    ghost Value = { SourceCounts };

    ghost view = { λ s. record { faults = s.counts.faults; ends = s.counts.zeros } };
}

impl TcpIn {
    // This end of the stream, which the listener gave.
    pub(crate) fn new(stream: TcpStream, listener: TcpListener) -> TcpIn
        ensures faults { result.faults ≡ 0 }
        ensures ends { result.ends ≡ 0 }
    {
        TcpIn {
            stream,
            listener,
            counts: Counts::none(),
        }
    }

    /// How many reads failed.
    pub fn faults(&self) -> u64
        ensures { result ≡ self.now.faults }
    {
        self.counts.faults
    }

    /// How many reads of a buffer that isn't empty were answered 0.
    pub fn ends(&self) -> u64
        ensures { result ≡ self.now.ends }
    {
        self.counts.zeros
    }
}

impl Source for TcpIn {
    ghost left = { λ _. None };

    ghost faults = { λ s. s.faults };

    ghost ends = { λ s. s.ends };

    fn read(&mut self, buf: &mut [u8]) -> Result<usize, Failed> {
        await_bytes(&self.stream, &self.listener);
        let answer = self.stream.read(buf);
        self.counts.count(answer, buf.len())
    }
}

impl LinkIn for TcpIn {}
