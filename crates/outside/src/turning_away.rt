use crate::ready::{ready, ready_of_two};
use libc::net::{POLLERR, POLLHUP, POLLIN, POLLRDHUP};
use std::net::{TcpListener, TcpStream};
use std::os::fd::AsRawFd;

// For how many milliseconds a listener that gives nothing, though somebody asks, is left alone.
const LEFT_ALONE: i32 = 100;

// Waits until there is something to read at the stream, its end and its faults among that. Whoever connects at the listener
// meanwhile is turned away, but not where the peer has ended the stream, since it may be the peer who connects anew.
pub(crate) fn await_bytes(stream: &TcpStream, listener: &TcpListener) {
    let of_stream = (stream.as_raw_fd(), POLLIN | POLLRDHUP);
    let of_listener = (listener.as_raw_fd(), POLLIN);
    for _ in 0..u64::MAX {
        let Some((at_stream, at_listener)) = ready_of_two(of_stream, of_listener) else {
            return;
        };
        let is_refused = at_listener != 0 && !is_ended(stream) && !turn_away(listener);
        if at_stream != 0 {
            return;
        }
        if is_refused && ready(of_stream.0, of_stream.1, LEFT_ALONE) != Some(0) {
            return;
        }
    }
}

// Whether the peer has ended the stream by now, or it failed. It is asked behind the look that found somebody at the listener: a look
// at both tells of the stream as it was first, and a peer may end it and connect anew in between. An option is set before, which it
// has already, since that waits until no other thread is inside a write of the stream: the system takes no end of the peer's so long.
fn is_ended(stream: &TcpStream) -> bool {
    let _ = stream.set_nodelay(true);
    match ready(stream.as_raw_fd(), POLLIN | POLLRDHUP, 0) {
        Some(events) => events & (POLLRDHUP | POLLHUP | POLLERR) != 0,
        None => true,
    }
}

// Accepts the first of those who have connected, and closes the connection at once. Whether there was one. It is one alone, since
// whoever is behind may have connected later.
fn turn_away(listener: &TcpListener) -> bool {
    listener.accept().is_ok()
}
