//! The capture of a link: connections that come and go, and the bytes that they carry.

use crate::packet::{ACK, FIN, HEADERS, PUSH, SYN, Segment, push_packet};
use byteorder::{ByteOrder, LittleEndian};
use std::alloc::AllocError;

/// The link type of packets that begin with their IP header.
const RAW: u32 = 101;

/// The most bytes that a segment carries.
const MOST_CARRIED: usize = 16_384;

/// The port of the first connection's other end; each further one has the next.
const FIRST_PORT: u16 = 50_000;

/// The first sequence numbers of both ends.
const FIRST_OF_HOST: u32 = 1000;

const FIRST_OF_TOOL: u32 = 2000;

/// Seconds from the beginning of 1970, from which the file counts, to that of 2000.
const SECONDS_TO_2000: u64 = 946_684_800;

/// Microseconds of a hundredth of a second.
const HUNDREDTH: u64 = 10_000;

/// An end of the link.
#[derive(Clone, Copy, PartialEq, Eq)]
pub enum End {
    /// The host, which connects.
    Host,
    /// The tool, which listens.
    Tool,
}

/// Makes the packets of a link in turn. At most one connection is up.
#[derive(Clone, Copy)]
pub struct Capture {
    port: u16,
    host_port: u16,
    host_next: u32,
    tool_next: u32,
    number: u16,
    hundredth: u64,
    packets: u64,
}

// Appends a number of four bytes, the least significant first.
fn push_number(number: u32, out: &mut Vec<u8>) -> Result<(), AllocError> {
    let mut bytes = [0; 4];
    LittleEndian::write_u32(&mut bytes, number);
    out.extend_from_slice(&bytes)
}

/// Appends what a capture file begins with: version 2.4, times in microseconds, the greatest packet, and the link type.
fn push_file_header(out: &mut Vec<u8>) -> Result<(), AllocError> {
    push_number(0xA1B2_C3D4, out)?;
    out.extend_from_slice(&[2, 0, 4, 0])?;
    push_number(0, out)?;
    push_number(0, out)?;
    push_number(65_535, out)?;
    push_number(RAW, out)
}

impl Capture {
    /// Begins a capture file, of a tool that listens on this port, at a moment in hundredths of a second since the beginning of 2000. What it
    /// begins with is appended.
    pub fn begin(port: u16, moment: u64, out: &mut Vec<u8>) -> Result<Capture, AllocError> {
        push_file_header(out)?;
        Ok(Capture {
            port,
            host_port: FIRST_PORT,
            host_next: FIRST_OF_HOST,
            tool_next: FIRST_OF_TOOL,
            number: 0,
            hundredth: moment,
            packets: 0,
        })
    }

    /// It is now this moment, in hundredths of a second since the beginning of 2000. One that is past already changes nothing.
    pub fn set_moment(&mut self, moment: u64) {
        if moment > self.hundredth {
            self.hundredth = moment;
            self.packets = 0;
        }
    }

    // The time of the next packet, in microseconds since 1970: packets of one hundredth come one microsecond apart.
    fn next_time(&mut self) -> u64 {
        let within = self.packets.min(HUNDREDTH - 1);
        self.packets = self.packets.saturating_add(1);
        SECONDS_TO_2000
            .saturating_mul(1_000_000)
            .saturating_add(self.hundredth.saturating_mul(HUNDREDTH))
            .saturating_add(within)
    }

    // Appends the time of the next packet, and twice its length.
    fn push_packet_header(&mut self, length: u32, out: &mut Vec<u8>) -> Result<(), AllocError> {
        let time = self.next_time();
        let seconds = (time / 1_000_000).min(0xFFFF_FFFF) as u32;
        push_number(seconds, out)?;
        push_number((time % 1_000_000) as u32, out)?;
        push_number(length, out)?;
        push_number(length, out)
    }

    // The segment of an end that comes next, with these flags.
    fn segment(&mut self, from: End, flags: u8) -> Segment {
        self.number = self.number.wrapping_add(1);
        let acknowledges = flags & ACK != 0;
        let host = self.host_next;
        let tool = self.tool_next;
        match from {
            End::Host => Segment {
                number: self.number,
                from: self.host_port,
                to: self.port,
                sequence: host,
                acknowledged: if acknowledges { tool } else { 0 },
                flags,
            },
            End::Tool => Segment {
                number: self.number,
                from: self.port,
                to: self.host_port,
                sequence: tool,
                acknowledged: if acknowledges { host } else { 0 },
                flags,
            },
        }
    }

    // An end has sent so many bytes, or flags that count as one.
    fn go_on(&mut self, from: End, count: u32) {
        match from {
            End::Host => self.host_next = self.host_next.wrapping_add(count),
            End::Tool => self.tool_next = self.tool_next.wrapping_add(count),
        }
    }

    // Appends a packet of an end with at most 16,384 bytes.
    fn push(
        &mut self,
        from: End,
        flags: u8,
        bytes: &[u8],
        out: &mut Vec<u8>,
    ) -> Result<(), AllocError> {
        let carried = bytes.len().min(MOST_CARRIED) as u32;
        self.push_packet_header(HEADERS as u32 + carried, out)?;
        let segment = self.segment(from, flags);
        push_packet(segment, bytes, out)?;
        let counts = if flags & (SYN | FIN) != 0 { 1 } else { 0 };
        self.go_on(from, carried.saturating_add(counts));
        Ok(())
    }

    /// A connection comes up: the host connects, and both ends shake hands.
    pub fn connect(&mut self, out: &mut Vec<u8>) -> Result<(), AllocError> {
        self.host_next = FIRST_OF_HOST;
        self.tool_next = FIRST_OF_TOOL;
        self.push(End::Host, SYN, &[], out)?;
        self.push(End::Tool, SYN | ACK, &[], out)?;
        self.push(End::Host, ACK, &[], out)
    }

    /// An end sends bytes, each piece of which the other end acknowledges.
    pub fn send(&mut self, from: End, bytes: &[u8], out: &mut Vec<u8>) -> Result<(), AllocError> {
        let other = other_end(from);
        for piece in bytes.chunks(MOST_CARRIED) {
            self.push(from, PUSH | ACK, piece, out)?;
            self.push(other, ACK, &[], out)?;
        }
        Ok(())
    }

    /// An end closes the connection, and then the other.
    pub fn close(&mut self, from: End, out: &mut Vec<u8>) -> Result<(), AllocError> {
        let other = other_end(from);
        self.push(from, FIN | ACK, &[], out)?;
        self.push(other, FIN | ACK, &[], out)?;
        self.push(from, ACK, &[], out)?;
        self.host_port = next_port(self.host_port);
        Ok(())
    }
}

// The other end.
fn other_end(end: End) -> End {
    match end {
        End::Host => End::Tool,
        End::Tool => End::Host,
    }
}

// The port of the next connection.
fn next_port(port: u16) -> u16 {
    if port == u16::MAX {
        FIRST_PORT
    } else {
        port + 1
    }
}
