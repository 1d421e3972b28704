//! A host that connects over loopback.

use crate::peers::{connected, is_ended_by_tool, selects, windows_answered};
use crate::signs::Sign;
use std::alloc::{AllocError, Global};
use std::net::{Net, TcpListener, TcpStream};
use std::time;
use test_lines::{tell_number, tell_whether};

/// What a host was told: whether it was selected, how many windows of S1F1 were answered, and whether the tool ended the link.
#[derive(Clone, Copy)]
pub struct HostTold {
    /// Whether it was selected.
    pub is_selected: bool,
    /// How many windows of S1F1 were answered.
    pub windows: u32,
    /// Whether the tool ended the link.
    pub is_ended: bool,
}

// A host that was told nothing.
const NOTHING: HostTold = HostTold {
    is_selected: false,
    windows: 0,
    is_ended: false,
};

/// The host: it selects and asks S1F1 in so many windows, raises the sign, and waits until the tool ends the link.
pub fn visit<R: Net<Listener = TcpListener, Stream = TcpStream> + time::Clock>(
    rt: &R,
    port: u16,
    windows: u32,
    is_done: &Sign,
) -> HostTold {
    match connected(rt, port) {
        Some(stream) => ask(stream, windows, is_done),
        None => NOTHING,
    }
}

fn ask(mut stream: TcpStream, windows: u32, is_done: &Sign) -> HostTold {
    if !selects(&mut stream) {
        return NOTHING;
    }
    let windows = windows_answered(&mut stream, windows);
    is_done.raise();
    HostTold {
        is_selected: true,
        windows,
        is_ended: is_ended_by_tool(&mut stream),
    }
}

/// Tells what a host was told.
pub fn tell_host(alloc: Global, told: &mut String, host: HostTold) -> Result<(), AllocError> {
    tell_whether(told, "selected", host.is_selected)?;
    tell_number(alloc, told, "windows", host.windows as u64)?;
    tell_whether(told, "ended by the tool", host.is_ended)
}
