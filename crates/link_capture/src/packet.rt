//! One packet: an IPv4 header, a TCP header, and the bytes that they carry.

use crate::checksum::{checksum, sum_on};
use byteorder::{BigEndian, ByteOrder};
use std::alloc::AllocError;

/// Bytes of an IPv4 header without options (RFC 791).
const IP_HEADER: usize = 20;

/// Bytes of a TCP header without options (RFC 9293).
const TCP_HEADER: usize = 20;

/// Bytes of both.
pub(crate) const HEADERS: usize = IP_HEADER + TCP_HEADER;

/// The number of TCP among the protocols of IPv4.
const TCP: u8 = 6;

/// Both ends are on one machine: 127.0.0.1.
const LOOPBACK: [u8; 4] = [127, 0, 0, 1];

/// What a segment says beside its bytes (RFC 9293, control bits).
pub(crate) const FIN: u8 = 0x01;

pub(crate) const SYN: u8 = 0x02;

pub(crate) const PUSH: u8 = 0x08;

pub(crate) const ACK: u8 = 0x10;

/// The fields of a segment that differ from one to the next.
#[derive(Clone, Copy)]
pub(crate) struct Segment {
    /// The number of the packet.
    pub(crate) number: u16,
    pub(crate) from: u16,
    pub(crate) to: u16,
    pub(crate) sequence: u32,
    pub(crate) acknowledged: u32,
    pub(crate) flags: u8,
}

// The IPv4 header of a packet of so many bytes.
fn ip_header(number: u16, length: u16) -> [u8; IP_HEADER] {
    let mut header = [0; IP_HEADER];
    // Version 4, and a header of five words of four bytes.
    header[0] = 0x45;
    BigEndian::write_u16(&mut header[2..4], length);
    BigEndian::write_u16(&mut header[4..6], number);
    // Not to be cut into fragments.
    header[6] = 0x40;
    header[8] = 64;
    header[9] = TCP;
    header[12..16].copy_from_slice(&LOOPBACK);
    header[16..20].copy_from_slice(&LOOPBACK);
    let sum = checksum(sum_on(0, &header));
    BigEndian::write_u16(&mut header[10..12], sum);
    header
}

// The TCP header of a segment, with a checksum of 0.
fn tcp_front(segment: Segment) -> [u8; TCP_HEADER] {
    let mut header = [0; TCP_HEADER];
    BigEndian::write_u16(&mut header[0..2], segment.from);
    BigEndian::write_u16(&mut header[2..4], segment.to);
    BigEndian::write_u32(&mut header[4..8], segment.sequence);
    BigEndian::write_u32(&mut header[8..12], segment.acknowledged);
    // A header of five words of four bytes.
    header[12] = 0x50;
    header[13] = segment.flags;
    // The window: it is never full, since each segment is acknowledged.
    BigEndian::write_u16(&mut header[14..16], u16::MAX);
    header
}

// What is summed before a segment of so many bytes: the addresses, the protocol and the length.
fn pseudo_header(length: u16) -> [u8; 12] {
    let [high, low] = length.to_be_bytes();
    let [a, b, c, d] = LOOPBACK;
    [a, b, c, d, a, b, c, d, 0, TCP, high, low]
}

// The TCP header of a segment that carries these bytes.
fn tcp_header(segment: Segment, length: u16, bytes: &[u8]) -> [u8; TCP_HEADER] {
    let mut header = tcp_front(segment);
    let front = sum_on(sum_on(0, &pseudo_header(length)), &header);
    let sum = checksum(sum_on(front, bytes));
    BigEndian::write_u16(&mut header[16..18], sum);
    header
}

/// Appends the packet of a segment that carries these bytes, of which there are at most 65,000. After `AllocError` a part of it may
/// stand there.
pub(crate) fn push_packet(
    segment: Segment,
    bytes: &[u8],
    out: &mut Vec<u8>,
) -> Result<(), AllocError> {
    let carried = bytes.len().min(65_000) as u16;
    out.extend_from_slice(&ip_header(segment.number, HEADERS as u16 + carried))?;
    out.extend_from_slice(&tcp_header(segment, TCP_HEADER as u16 + carried, bytes))?;
    out.extend_from_slice(bytes)
}
