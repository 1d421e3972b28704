//! A server and clients over TCP, at a port of this machine.
//!
//! `echo PORT` listens there, takes one link, and sends back what comes until its end; it tells how many bytes came. The clients
//! connect to a tool or an echo, trying again while they are refused, and select:
//!
//! - `ask PORT COUNT` sends S1F1 so many times and reads the answer of each before the next; it tells how many were answered;
//! - `press PORT WINDOWS FRAME ..` sends these frames, of hex digits, with an answer to each, and then so many windows of 25 S1F1,
//!   each at once, and reads their answers; it tells how many were answered before the link ended;
//! - `visit PORT COUNT` connects, selects and goes away so many times; it tells how often it was selected;
//! - `flow PORT COUNT` sends S1F1 so many times without waiting for an answer, while another thread reads the answers; it tells how
//!   many were answered in a second;
//! - `stay PORT SECONDS` says nothing for so long; it tells that number;
//! - `lot PORT DONES FRAME ..` sends these frames, with an answer to each, and then reads until the link ends; it tells the nanoseconds
//!   from the last answer to that end, divided by the number of the commands that were done.
//!
//! `trips PORT COUNT` asks as `ask` does, and tells the median of the times of a round trip, that below which 99 of 100 are, and the
//! greatest, in nanoseconds.

use anyhow::{Result, bail};
use std::alloc::Global;
use std::io::{BufReader, Read, Write};
use std::net::{Ipv4Addr, Net, SocketAddr, TcpListener, TcpStream};
use std::thread::{self, Threads, join};
use std::time::{self, Duration};

// A select request with system bytes 1.
const SELECT: [u8; 14] = [0, 0, 0, 0x0A, 0xFF, 0xFF, 0, 0, 0, 1, 0, 0, 0, 1];

// So many S1F1 are sent at once by `press`.
const WINDOW: u32 = 25;

// How often a client tries to connect, with ten milliseconds between.
const TRIES: u32 = 10_000;

// S1F1 with the W-bit to device 0, under these system bytes.
fn are_you_there(system: u32) -> [u8; 14] {
    let [a, b, c, d] = system.to_be_bytes();
    [0, 0, 0, 0x0A, 0, 0, 0x81, 1, 0, 0, a, b, c, d]
}

fn address(port: u16) -> SocketAddr {
    SocketAddr::from((Ipv4Addr::LOCALHOST, port))
}

// Sends back what comes, until the peer's end. Tells how many bytes came.
fn send_back(stream: &mut TcpStream) -> Result<u64> {
    let mut buf = [0; 4096];
    let mut bytes: u64 = 0;
    for _ in 0..u64::MAX {
        let count = stream.read(&mut buf)?;
        if count == 0 {
            break;
        }
        stream.write_all(&buf[..count])?;
        bytes = bytes.saturating_add(count as u64);
    }
    Ok(bytes)
}

// Takes one link, and sends back what comes on it.
fn echo(listener: &TcpListener) -> Result<u64> {
    let (mut stream, _) = listener.accept()?;
    stream.set_nodelay(true)?;
    send_back(&mut stream)
}

// A stream to this port.
fn connected<R: Net<Listener = TcpListener, Stream = TcpStream> + time::Clock>(
    rt: &R,
    port: u16,
) -> Result<TcpStream> {
    for _ in 0..TRIES {
        if let Ok(stream) = TcpStream::connect(rt, address(port)) {
            stream.set_nodelay(true)?;
            return Ok(stream);
        }
        thread::sleep(rt, Duration::from_millis(10));
    }
    bail!("nobody listens there")
}

// Reads past so many bytes.
fn skip<S: Read>(stream: &mut S, bytes: u32) -> Result<()> {
    let mut buf = [0; 4096];
    let mut left = bytes as usize;
    for _ in 0..u64::MAX {
        if left == 0 {
            break;
        }
        let piece = left.min(buf.len());
        stream.read_exact(&mut buf[..piece])?;
        left = left.saturating_sub(piece);
    }
    Ok(())
}

// Reads a frame, and tells its system bytes.
fn read_frame<S: Read>(stream: &mut S) -> Result<u32> {
    let mut front = [0; 14];
    stream.read_exact(&mut front)?;
    let length = u32::from_be_bytes([front[0], front[1], front[2], front[3]]);
    if length < 10 {
        bail!("a length below 10 came");
    }
    skip(stream, length - 10)?;
    Ok(u32::from_be_bytes([front[10], front[11], front[12], front[13]]))
}

// Connects and selects. The stream, on which the answer came.
fn selected<R: Net<Listener = TcpListener, Stream = TcpStream> + time::Clock>(
    rt: &R,
    port: u16,
) -> Result<TcpStream> {
    let mut stream = connected(rt, port)?;
    stream.write_all(&SELECT)?;
    if read_frame(&mut stream)? != 1 {
        bail!("the select request was not answered");
    }
    Ok(stream)
}

// Asks so many times, one after the other, under the system bytes from 2 on.
fn ask_all(stream: &mut TcpStream, count: u64) -> Result<u64> {
    let mut answered: u64 = 0;
    let mut system: u32 = 2;
    for _ in 0..count {
        stream.write_all(&are_you_there(system))?;
        if read_frame(stream)? == system {
            answered = answered.saturating_add(1);
        }
        system = system.wrapping_add(1);
    }
    Ok(answered)
}

// The nanoseconds since this moment.
fn nanos_since<R: time::Clock>(rt: &R, before: Duration) -> Result<u64> {
    let passed = rt.monotonic()?.saturating_sub(before);
    let whole = passed.as_secs().saturating_mul(1_000_000_000);
    Ok(whole.saturating_add(u64::from(passed.subsec_nanos())))
}

// Asks so many times, one after the other, under the system bytes from 2 on. The times of the round trips in nanoseconds, from the
// shortest to the longest.
fn time_all<R: time::Clock>(
    rt: &R,
    alloc: Global,
    stream: &mut TcpStream,
    count: u64,
) -> Result<Vec<u64>> {
    let mut times = Vec::new(alloc);
    let mut system: u32 = 2;
    for _ in 0..count {
        let before = rt.monotonic()?;
        stream.write_all(&are_you_there(system))?;
        if read_frame(stream)? != system {
            bail!("another frame was wanted");
        }
        times.push(nanos_since(rt, before)?)?;
        system = system.wrapping_add(1);
    }
    times.sort()?;
    Ok(times)
}

// The time below which so many of a hundred of these are.
fn below(times: &[u64], hundredth: usize) -> Result<u64> {
    let at = times.len().saturating_mul(hundredth) / 100;
    match times.get(at) {
        Some(time) => Ok(*time),
        None => bail!("there are no times"),
    }
}

/// Times of round trips at this port: the median, that below which 99 of 100 are, and the greatest, in nanoseconds.
pub(crate) fn trips<R: Net<Listener = TcpListener, Stream = TcpStream> + time::Clock>(
    rt: &R,
    alloc: Global,
    words: &[String],
) -> Result<String> {
    let [port, count] = words else {
        bail!("the words are trips, a port, and how often");
    };
    let mut stream = selected(rt, port.parse::<u16>()?)?;
    let times = time_all(rt, alloc, &mut stream, count.parse::<u64>()?)?;
    let times = times.as_slice();
    let (median, most) = (below(times, 50)?, below(times, 99)?);
    let greatest = times.last().copied().unwrap_or(0);
    Ok(format!(in alloc; "{median} {most} {greatest}")?)
}

// So many S1F1 are written at once by `flow`.
const AT_ONCE: u64 = 64;

// Sends S1F1 so many times, and doesn't wait.
fn send_flow(alloc: Global, mut stream: TcpStream, count: u64) -> Result<()> {
    let mut bytes = Vec::new(alloc);
    for at in 0..count {
        let system = u32::try_from(at).unwrap_or(0).wrapping_add(2);
        bytes.extend_from_slice(&are_you_there(system))?;
        if (at + 1) % AT_ONCE == 0 {
            stream.write_all(bytes.as_slice())?;
            bytes.clear();
        }
    }
    stream.write_all(bytes.as_slice())?;
    Ok(())
}

// Reads so many frames.
fn read_flow(alloc: Global, stream: TcpStream, count: u64) -> Result<()> {
    let mut frames = BufReader::new(alloc, stream)?;
    for _ in 0..count {
        read_frame(&mut frames)?;
    }
    Ok(())
}

/// How many S1F1 a second are answered at this port, of so many that are sent without waiting.
pub(crate) fn flow<R: Net<Listener = TcpListener, Stream = TcpStream> + Threads + time::Clock>(
    rt: &R,
    alloc: Global,
    words: &[String],
) -> Result<u64> {
    let [port, count] = words else {
        bail!("the words are flow, a port, and how often");
    };
    let count = count.parse::<u64>()?;
    let stream = selected(rt, port.parse::<u16>()?)?;
    let other = stream.try_clone()?;
    let before = rt.monotonic()?;
    let (sent, read) = join(
        rt,
        move || send_flow(alloc, other, count).is_ok(),
        move || read_flow(alloc, stream, count).is_ok(),
    );
    let passed = nanos_since(rt, before)?;
    if !sent || !read {
        bail!("the link ended");
    }
    Ok(count.saturating_mul(1_000_000_000) / passed.max(1))
}

// Reads until the link ends.
fn read_to_end(stream: &mut TcpStream) {
    for _ in 0..u64::MAX {
        if read_frame(stream).is_err() {
            return;
        }
    }
}

// Sends frames and then reads until the link ends. The nanoseconds from the last answer to the end, for each of so many.
fn time_lot<R: time::Clock>(
    rt: &R,
    alloc: Global,
    stream: &mut TcpStream,
    dones: u64,
    frames: &[String],
) -> Result<u64> {
    send_frames(alloc, stream, frames)?;
    let before = rt.monotonic()?;
    read_to_end(stream);
    Ok(nanos_since(rt, before)? / dones.max(1))
}

// Sends a window of S1F1, of which the first has these system bytes.
fn send_window(stream: &mut TcpStream, first: u32) -> Result<()> {
    for more in 0..WINDOW {
        stream.write_all(&are_you_there(first.wrapping_add(more)))?;
    }
    Ok(())
}

// Reads the answers to a window, in order.
fn read_window(stream: &mut TcpStream, first: u32) -> Result<()> {
    for more in 0..WINDOW {
        if read_frame(stream)? != first.wrapping_add(more) {
            bail!("another frame was wanted");
        }
    }
    Ok(())
}

// Presses until so many windows were answered, or the link has ended. Tells how many S1F1 were answered.
fn press_all(stream: &mut TcpStream, windows: u64) -> u64 {
    let mut answered: u64 = 0;
    let mut first: u32 = 2;
    for _ in 0..windows {
        if send_window(stream, first).is_err() || read_window(stream, first).is_err() {
            break;
        }
        answered = answered.saturating_add(u64::from(WINDOW));
        first = first.wrapping_add(WINDOW);
    }
    answered
}

// Sends these frames, and reads a frame behind each.
fn send_frames(alloc: Global, stream: &mut TcpStream, frames: &[String]) -> Result<()> {
    for frame in frames {
        let bytes = hex::decode(alloc, frame.as_str())?;
        stream.write_all(bytes.as_slice())?;
        read_frame(stream)?;
    }
    Ok(())
}

// Connects, selects and goes away so many times.
fn visit_all<R: Net<Listener = TcpListener, Stream = TcpStream> + time::Clock>(
    rt: &R,
    port: u16,
    count: u64,
) -> Result<u64> {
    let mut visits: u64 = 0;
    for _ in 0..count {
        drop(selected(rt, port)?);
        visits = visits.saturating_add(1);
    }
    Ok(visits)
}

// What a client does that connects to this port.
fn act<R: Net<Listener = TcpListener, Stream = TcpStream> + time::Clock>(
    rt: &R,
    alloc: Global,
    what: &str,
    port: u16,
    count: u64,
    frames: &[String],
) -> Result<u64> {
    match what {
        "ask" => ask_all(&mut selected(rt, port)?, count),
        "press" => {
            let mut stream = selected(rt, port)?;
            send_frames(alloc, &mut stream, frames)?;
            Ok(press_all(&mut stream, count))
        }
        "visit" => visit_all(rt, port, count),
        "stay" => {
            let _stream = selected(rt, port)?;
            thread::sleep(rt, Duration::from_secs(count));
            Ok(count)
        }
        "lot" => time_lot(rt, alloc, &mut selected(rt, port)?, count, frames),
        _ => bail!("there is no such client"),
    }
}

/// Does what the words say. The error: the words are none of these, a link failed, or there is no memory.
pub(crate) fn measure<R: Net<Listener = TcpListener, Stream = TcpStream> + time::Clock>(
    rt: &R,
    alloc: Global,
    what: &str,
    words: &[String],
) -> Result<u64> {
    match words {
        [port] => echo(&TcpListener::bind(rt, address(port.parse::<u16>()?))?),
        [port, count, frames @ ..] => act(
            rt,
            alloc,
            what,
            port.parse::<u16>()?,
            count.parse::<u64>()?,
            frames,
        ),
        _ => bail!("the words are echo, ask, press, visit, stay or lot, a port, and how often"),
    }
}

/// An echo that is asked twice. The error: as above.
pub(crate) fn measure_twice<
    R: Net<Listener = TcpListener, Stream = TcpStream> + Threads + time::Clock + Sync,
>(rt: &R) -> Result<u64> {
    let listener = TcpListener::bind(rt, address(0))?;
    let port = listener.local_addr()?.port();
    let (_, answered) = join(rt, || echo(&listener).ok(), || ask_twice(rt, port).ok());
    match answered {
        Some(answered) => Ok(answered),
        None => bail!("the echo was not heard"),
    }
}

// Asks twice at this port.
fn ask_twice<R: Net<Listener = TcpListener, Stream = TcpStream> + time::Clock>(
    rt: &R,
    port: u16,
) -> Result<u64> {
    ask_all(&mut selected(rt, port)?, 2)
}
