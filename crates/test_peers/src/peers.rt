//! A host over TCP: it connects to a port of this machine, and sends frames.

use crate::frames::{SELECT, SELECTED, are_you_there, here_i_am};
use crate::signs::{TURNS, sleep_a_turn};
use std::io::{Read, Write};
use std::net::{Ipv4Addr, Net, SocketAddr, TcpListener, TcpStream};
use std::time::{self, Duration};

// A port of this machine.
fn address(port: u16) -> SocketAddr {
    SocketAddr::from((Ipv4Addr::LOCALHOST, port))
}

// A number from 0 to 4,899 that differs from one moment to the next.
fn number_by_clock<R: time::Clock>(rt: &R) -> u16 {
    match rt.monotonic() {
        Ok(time) => u16::try_from(time.subsec_nanos() / 1000 % 4900).unwrap_or(0),
        Err(_) => 0,
    }
}

/// A port at which nobody listens, at most 5,000 above this one: where it is below 27,768, none that the system gives to
/// clients. Where it is looked for depends on the moment, so that runs beside each other find ports of their own.
pub fn free_port<R: Net<Listener = TcpListener, Stream = TcpStream> + time::Clock>(
    rt: &R,
    first: u16,
) -> Option<u16> {
    let mut port = first.saturating_add(number_by_clock(rt));
    for _ in 0..100 {
        if TcpListener::bind(rt, address(port)).is_ok() {
            return Some(port);
        }
        port = port.saturating_add(1);
    }
    None
}

/// A stream to this port. While it is refused it tries again, for 60,000 turns at most. A read waits for ten seconds at most.
pub fn connected<R: Net<Listener = TcpListener, Stream = TcpStream> + time::Clock>(
    rt: &R,
    port: u16,
) -> Option<TcpStream> {
    for _ in 0..TURNS {
        if let Ok(stream) = TcpStream::connect(rt, address(port)) {
            let _ = stream.set_nodelay(true);
            let _ = stream.set_read_timeout(Some(Duration::from_secs(10)));
            return Some(stream);
        }
        sleep_a_turn(rt);
    }
    None
}

/// Sends the select request; whether the select response comes.
pub fn selects(stream: &mut TcpStream) -> bool {
    let mut answer = [0; 14];
    stream.write_all(&SELECT).is_ok()
        && stream.read_exact(&mut answer).is_ok()
        && answer == SELECTED
}

// So many S1F1 are sent at once.
const WINDOW: u32 = 25;

// Sends a window of S1F1, of which the first has these system bytes.
fn send_window(stream: &mut TcpStream, first: u32) -> bool {
    for more in 0..WINDOW {
        let ask = are_you_there(first.wrapping_add(more));
        if stream.write_all(&ask).is_err() {
            return false;
        }
    }
    true
}

// Reads the answers to a window; whether each is the S1F2 that is wanted, in order.
fn is_window_answered(stream: &mut TcpStream, first: u32) -> bool {
    let mut answer = [0; 32];
    for more in 0..WINDOW {
        if stream.read_exact(&mut answer).is_err()
            || answer != here_i_am(first.wrapping_add(more))
        {
            return false;
        }
    }
    true
}

/// Asks S1F1 in so many windows of 25, under the system bytes from 2 on. How many windows were answered, up to the first that
/// was not.
pub fn windows_answered(stream: &mut TcpStream, windows: u32) -> u32 {
    let mut first: u32 = 2;
    for window in 0..windows {
        if !send_window(stream, first) || !is_window_answered(stream, first) {
            return window;
        }
        first = first.wrapping_add(WINDOW);
    }
    windows
}

/// Reads until the tool ends the link; whether nothing came before.
pub fn is_ended_by_tool(stream: &mut TcpStream) -> bool {
    matches!(stream.read(&mut [0; 1]), Ok(0))
}
