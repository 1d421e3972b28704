//! A capture file of a link, as tools for networks open it: classic pcap, whose packets are IPv4 over loopback, with TCP as it would have
//! carried the bytes (RFC 791, RFC 9293; the file's form is that of the pcap library). It opens no socket, and captures nothing: it is
//! handed bytes in the order in which they went, and says of them what would have been seen. Begin with `Capture`.
#![tactic(auto)]

mod capture;
mod checksum;
mod packet;

pub use capture::{Capture, End};
