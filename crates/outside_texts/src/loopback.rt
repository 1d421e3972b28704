//! Links over TCP (`outside`), with a peer of this machine.
//!
//! `open` listens at a port that the system chooses, and `port` tells whether there is one; `again` opens a second door at the same
//! port, and tells what it answers, its port and its faults, whether it tells that port as the one that is refused, and why. `accept`
//! asks the door once, and `await` a hundred times at most.
//! `connect` connects a peer, which `ask abc` lets send, `hear 6` read six bytes, `hear end` read its end, and `leave` go away; where
//! there is one already, the new peer is another. `others` tells how many others there are, and how many of them were turned away.
//! `read`, into eight bytes, `write abc` and `shut` are done with the link, and `back` hands it back. `fill` writes until a write fails,
//! and tells whether that was late, behind 1.9 seconds, or soon; `over` signs that the session is over. `counts` tells the door's
//! faults and its links, `waits` its answers `NotYet`, and `link` the faults and ends of the link's reads and the faults of its writes.

use crate::words::{millis_since, told};
use anyhow::Result;
use outside::{Door, Failed, LinkOut, Met, RunSigns, Sink, Source, TcpDoor, TcpIn, TcpOut};
use std::alloc::Global;
use std::io::{Read, Write};
use std::net::{Ipv4Addr, Net, SocketAddr, TcpListener, TcpStream};
use std::time::{self, Duration};
use test_lines::Subject;

/// A door of the machine, the link that it gave last, the peer, and others who connected.
#[derive(Drop)]
pub struct Loopback<'a, R> {
    rt: &'a R,
    signs: &'a RunSigns,
    door: TcpDoor<'a, R>,
    link: Option<(TcpIn, TcpOut<'a>)>,
    peer: Option<TcpStream>,
    others: Vec<TcpStream>,
}

impl<'a, R> Loopback<'a, R> {
    /// A door that doesn't listen yet, and whose links look at these signs.
    pub fn new(rt: &'a R, alloc: Global, signs: &'a RunSigns) -> Loopback<'a, R> {
        Loopback {
            rt,
            signs,
            door: TcpDoor::with_signs(rt, signs),
            link: None,
            peer: None,
            others: Vec::new(alloc),
        }
    }
}

impl<R: Net<Listener = TcpListener, Stream = TcpStream> + time::Clock> Subject for Loopback<'_, R> {
    fn answer(&mut self, alloc: Global, said: &str) -> Result<String> {
        let mut answer = String::new(alloc);
        let said = say(self, alloc, said, &mut answer);
        told(answer, said)
    }
}

// Says a line; the answer. None where it says nothing.
fn say<R: Net<Listener = TcpListener, Stream = TcpStream> + time::Clock>(
    loopback: &mut Loopback<'_, R>,
    alloc: Global,
    said: &str,
    answer: &mut String,
) -> Option<()> {
    match said {
        "open" => write!(answer, "{:?}", loopback.door.open(0)).ok(),
        "again" => open_again(loopback.rt, loopback.door.port()?, answer),
        "accept" => accept(&mut loopback.door, &mut loopback.link, 1, answer),
        "await" => accept(&mut loopback.door, &mut loopback.link, 100, answer),
        "back" => hand_back(loopback),
        "connect" => connect(loopback),
        _ => say_others(loopback, alloc, said, answer),
    }
}

// Opens a second door at this port.
fn open_again<R: Net<Listener = TcpListener, Stream = TcpStream> + time::Clock>(
    rt: &R,
    port: u16,
    answer: &mut String,
) -> Option<()> {
    let mut second = TcpDoor::new(rt);
    let opened = second.open(port);
    write!(answer, "{opened:?} {:?} {}", second.port(), second.faults()).ok()?;
    let (refused, kind) = second.refusal()?;
    write!(answer, " {} {kind}", refused == port).ok()
}

// Asks the door for a link, so many times at most.
fn accept<'a, R: Net<Listener = TcpListener, Stream = TcpStream> + time::Clock>(
    door: &mut TcpDoor<'a, R>,
    link: &mut Option<(TcpIn, TcpOut<'a>)>,
    times: u8,
    answer: &mut String,
) -> Option<()> {
    for _ in 0..times {
        match door.accept() {
            Ok(Met::Link(link_in, link_out)) => {
                *link = Some((link_in, link_out));
                return answer.push_str("link").ok();
            }
            Ok(Met::NotYet) => {}
            Ok(Met::Closed) | Err(Failed) => return answer.push_str("Failed").ok(),
        }
    }
    answer.push_str("NotYet").ok()
}

fn hand_back<R: Net<Listener = TcpListener, Stream = TcpStream> + time::Clock>(
    loopback: &mut Loopback<'_, R>,
) -> Option<()> {
    let (link_in, link_out) = loopback.link.take()?;
    loopback.door.back(link_in, link_out);
    Some(())
}

fn connect<R: Net<Listener = TcpListener, Stream = TcpStream>>(
    loopback: &mut Loopback<'_, R>,
) -> Option<()> {
    let address = SocketAddr::from((Ipv4Addr::LOCALHOST, loopback.door.port()?));
    let stream = TcpStream::connect(loopback.rt, address).ok()?;
    if loopback.peer.is_some() {
        return loopback.others.push(stream).ok();
    }
    loopback.peer = Some(stream);
    Some(())
}

// How many others there are, and how many of them were turned away: their connections were closed, with nothing said.
fn add_others(answer: &mut String, others: &mut [TcpStream]) -> Option<()> {
    let mut away: u64 = 0;
    for other in others.iter_mut() {
        other
            .set_read_timeout(Some(Duration::from_millis(200)))
            .ok()?;
        if matches!(other.read(&mut [0; 1]), Ok(0)) {
            away = away.saturating_add(1);
        }
    }
    write!(answer, "{} {away}", others.len()).ok()
}

// What is asked of the door, and what its link and the peer do.
fn say_others<R: time::Clock>(
    loopback: &mut Loopback<'_, R>,
    alloc: Global,
    said: &str,
    answer: &mut String,
) -> Option<()> {
    match said {
        "port" => write!(answer, "{}", loopback.door.port().is_some()).ok(),
        "counts" => add_counts(answer, &loopback.door),
        "waits" => write!(answer, "{}", loopback.door.waits()).ok(),
        "others" => add_others(answer, loopback.others.as_mut_slice()),
        "over" => {
            loopback.signs.end_session();
            Some(())
        }
        "fill" => fill(loopback.rt, &mut loopback.link.as_mut()?.1, answer),
        "leave" => {
            loopback.peer = None;
            Some(())
        }
        _ => say_ends(&mut loopback.link, &mut loopback.peer, alloc, said, answer),
    }
}

// Writes until a write fails; whether that was late.
fn fill<R: time::Clock>(rt: &R, link_out: &mut TcpOut<'_>, answer: &mut String) -> Option<()> {
    let piece = [0; 4096];
    let before = rt.monotonic().ok()?;
    for _ in 0..100_000 {
        if link_out.write(&piece).is_err() {
            let is_late = millis_since(rt, before)? >= 1900;
            return answer.push_str(if is_late { "late" } else { "soon" }).ok();
        }
    }
    None
}

// What the peer does, or is done with the link.
fn say_ends(
    link: &mut Option<(TcpIn, TcpOut<'_>)>,
    peer: &mut Option<TcpStream>,
    alloc: Global,
    said: &str,
    answer: &mut String,
) -> Option<()> {
    let (word, rest) = said.split_once(' ').unwrap_or((said, ""));
    match word {
        "ask" => peer.as_mut()?.write_all(rest.as_bytes()).ok(),
        "hear" => hear(peer.as_mut()?, alloc, rest, answer),
        _ => say_link(link.as_mut()?, word, rest, answer),
    }
}

fn add_counts<R>(answer: &mut String, door: &TcpDoor<'_, R>) -> Option<()> {
    write!(answer, "{} {}", door.faults(), door.links()).ok()
}

// The peer hears six bytes, or its end.
fn hear(peer: &mut TcpStream, alloc: Global, count: &str, answer: &mut String) -> Option<()> {
    let mut heard = [0; 6];
    if count == "end" {
        return write!(answer, "{}", peer.read(&mut heard).ok()?).ok();
    }
    peer.read_exact(&mut heard).ok()?;
    let text = String::from_utf8_lossy(alloc, &heard).ok()?;
    answer.push_str(text.as_str()).ok()
}

fn say_link(
    link: &mut (TcpIn, TcpOut<'_>),
    word: &str,
    rest: &str,
    answer: &mut String,
) -> Option<()> {
    match word {
        "read" => read(&mut link.0, answer),
        "write" => write!(answer, "{:?}", link.1.write(rest.as_bytes())).ok(),
        "flush" => write!(answer, "{:?}", link.1.flush()).ok(),
        "link" => add_link(answer, &link.0, &link.1),
        "shut" => {
            link.1.shut();
            Some(())
        }
        _ => None,
    }
}

fn read(link_in: &mut TcpIn, answer: &mut String) -> Option<()> {
    let mut buf = [0; 8];
    let read = link_in.read(&mut buf);
    write!(answer, "{read:?} {buf:?}").ok()
}

fn add_link(answer: &mut String, link_in: &TcpIn, link_out: &TcpOut<'_>) -> Option<()> {
    write!(
        answer,
        "{} {} {}",
        link_in.faults(),
        link_in.ends(),
        link_out.faults()
    )
    .ok()
}
