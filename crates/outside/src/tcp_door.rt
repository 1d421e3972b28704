ghost use Rattle.std.specs.Prelude.{◌≡◌, ℕ, None};

use crate::door::Door;
use crate::meetings::Meetings;
use crate::met::Met;
use crate::ready::ready;
use crate::signs::RunSigns;
use crate::source::Failed;
use crate::tcp_in::TcpIn;
use crate::tcp_out::TcpOut;
use libc::net::POLLIN;
use std::io;
use std::marker::Model;
use std::net::{Ipv4Addr, Net, SocketAddr, TcpListener, TcpStream};
use std::os::fd::AsRawFd;
use std::time::Duration;

// How many milliseconds the door waits for somebody before it answers `NotYet`.
const PAUSE: i32 = 50;

// How many milliseconds a write waits at once for a peer that takes nothing, before it looks whether the session is over.
const BETWEEN_LOOKS: u64 = 50;

/// A TCP listener as a door, at 127.0.0.1. Where nobody asks for a link within fifty milliseconds, it answers `NotYet`. It never
/// answers `Closed`. While a link is up and its `TcpIn` is read, whoever else connects is turned away. A frame goes out at once,
/// and is not held back for more. It tells no links; contracts see its counts, and the port at which it was asked to listen.
#[derive(Drop)]
pub struct TcpDoor<'a, R> {
    rt: &'a R,
    signs: Option<&'a RunSigns>,
    asked: Option<u16>,
    listener: Option<TcpListener>,
    refusal: Option<(u16, io::ErrorKind)>,
    counts: Meetings,
}

impl<'a, R> Model for TcpDoor<'a, R> {
    ghost use Rattle.outside.specs.Counts.{DoorCounts};

    ghost Value = { DoorCounts };

    ghost view = { λ d. record {
      port = d.asked;
      faults = d.counts.faults;
      links = d.counts.links;
      waits = d.counts.waits;
      closings = d.counts.closings;
    } };
}

impl<'a, R> TcpDoor<'a, R> {
    /// A door that doesn't listen yet. The writes of its links look at no signs.
    pub fn new(rt: &'a R) -> TcpDoor<'a, R>
        ensures { result ≡ record { port = None; faults = 0; links = 0; waits = 0; closings = 0 } }
    {
        TcpDoor {
            rt,
            signs: None,
            asked: None,
            listener: None,
            refusal: None,
            counts: Meetings::none(),
        }
    }

    /// A door that doesn't listen yet, and whose links' writes give up once these signs tell that the session is over.
    pub fn with_signs(rt: &'a R, signs: &'a RunSigns) -> TcpDoor<'a, R>
        ensures { result ≡ record { port = None; faults = 0; links = 0; waits = 0; closings = 0 } }
    {
        TcpDoor {
            rt,
            signs: Some(signs),
            asked: None,
            listener: None,
            refusal: None,
            counts: Meetings::none(),
        }
    }

    /// The port at which it could not be opened, and why. `None` where it could, or was not asked to.
    pub fn refusal(&self) -> Option<(u16, io::ErrorKind)> {
        self.refusal
    }

    /// The port at which it listens, which the system chose where it was opened at port 0. `None` where it doesn't listen.
    pub fn port(&self) -> Option<u16> {
        let Some(listener) = &self.listener else {
            return None;
        };
        match listener.local_addr() {
            Ok(addr) => Some(addr.port()),
            Err(_) => None,
        }
    }

    /// How many calls failed.
    pub fn faults(&self) -> u64
        ensures { result ≡ self.now.faults }
    {
        self.counts.faults
    }

    /// How many links were given.
    pub fn links(&self) -> u64
        ensures { result ≡ self.now.links }
    {
        self.counts.links
    }

    /// How often the answer was `NotYet`.
    pub fn waits(&self) -> u64
        ensures { result ≡ self.now.waits }
    {
        self.counts.waits
    }
}

impl<'a, R: Net<Listener = TcpListener, Stream = TcpStream>> Door for TcpDoor<'a, R> {
    type In = TcpIn;

    type Out = TcpOut<'a>;

    ghost left = { λ _. None };

    ghost backs = { λ _. None };

    ghost opened_at = { λ d. d.port };

    ghost faults = { λ d. d.faults };

    ghost links = { λ d. d.links };

    ghost waits = { λ d. d.waits };

    ghost closings = { λ d. d.closings };

    /// Fails where the port is taken, or the system gives no listener; `refusal` tells then.
    fn open(&mut self, port: u16) -> Result<(), Failed> {
        self.asked = Some(port);
        match listener_at(self.rt, port) {
            Ok(listener) => {
                self.listener = Some(listener);
                Ok(())
            }
            Err(fault) => {
                self.refusal = Some((port, fault.kind()));
                self.counts.failed();
                Err(Failed)
            }
        }
    }

    /// Fails where the door isn't open, or the system gives no more streams. A peer that asked and went away again is no
    /// fault.
    fn accept(&mut self) -> Result<Met<TcpIn, TcpOut<'a>>, Failed> {
        let Ok(met) = met_at(&self.listener, self.signs) else {
            self.counts.failed();
            return Err(Failed);
        };
        self.counts.met(&met);
        Ok(met)
    }

    /// Closes the stream.
    fn back(&mut self, link_in: TcpIn, link_out: TcpOut<'a>) {
        drop(link_in);
        drop(link_out);
    }
}

// A listener at this port that doesn't wait for peers.
fn listener_at<R: Net<Listener = TcpListener, Stream = TcpStream>>(
    rt: &R,
    port: u16,
) -> io::Result<TcpListener> {
    let listener = TcpListener::bind(rt, SocketAddr::from((Ipv4Addr::LOCALHOST, port)))?;
    listener.set_nonblocking(true)?;
    Ok(listener)
}

// The next link, or `NotYet` where nobody asks for one in time.
fn met_at<'a>(
    listener: &Option<TcpListener>,
    signs: Option<&'a RunSigns>,
) -> io::Result<Met<TcpIn, TcpOut<'a>>> {
    let Some(listener) = listener else {
        return Err(io::Error::from(io::ErrorKind::NotConnected));
    };
    let _ = ready(listener.as_raw_fd(), POLLIN, PAUSE);
    match listener.accept() {
        Ok((stream, _)) => link_over(stream, listener, signs),
        Err(fault) if is_early(fault.kind()) => Ok(Met::NotYet),
        Err(fault) => Err(fault),
    }
}

// Whether the listener is well, and only no peer is there, or one that is gone again.
fn is_early(kind: io::ErrorKind) -> bool {
    matches!(
        kind,
        io::ErrorKind::WouldBlock
            | io::ErrorKind::Interrupted
            | io::ErrorKind::ConnectionAborted
            | io::ErrorKind::ConnectionReset
            | io::ErrorKind::HostUnreachable
            | io::ErrorKind::NetworkUnreachable
            | io::ErrorKind::NetworkDown
            | io::ErrorKind::TimedOut
    )
}

// Both ends of a link over this stream. An option that the system doesn't set is no fault.
fn link_over<'a>(
    stream: TcpStream,
    listener: &TcpListener,
    signs: Option<&'a RunSigns>,
) -> io::Result<Met<TcpIn, TcpOut<'a>>> {
    let _ = stream.set_nodelay(true);
    let _ = stream.set_write_timeout(Some(Duration::from_millis(BETWEEN_LOOKS)));
    let other = stream.try_clone()?;
    let listening = listener.try_clone()?;
    Ok(Met::Link(TcpIn::new(stream, listening), TcpOut::new(other, signs)))
}
