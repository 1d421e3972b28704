//! Data messages of the host: what each is answered, what it writes, and which direct rows it fires (SEMI E5, streams 1,
//! 2, 5, 6 and 9; SEMI E30, communication, control, event reports, alarms, remote control and spooling; SEMI E87, stream 3; SEMI
//! E40 and SEMI E94, streams 14 and 16).
//!
//! Each is one change of the `Plant` of `core_state`, by its header and its body, which `msgs_gem` and `msgs_300` read. What the link
//! table says of the header, the settling behind the message and the history are for `tool_core`. The rules that come before a
//! message is read stand in one place, `verdict.rt`. What a message does that is taken is one arm in `messages.rt`, of streams 3, 14 and
//! 16 in `shop.rt`; what it was answered and which rows are still to fire is the `Done` of `host_messages`.
//!
//! Memory may run out; nothing is said of the plant after that. Begin with `host`.
#![tactic(auto)]

mod data;
mod jobs;
mod messages;
mod remote;
mod replies;
mod shop;
mod spooling;
mod verdict;

pub use data::{HostAct, host};
pub use host_messages::header_of;
