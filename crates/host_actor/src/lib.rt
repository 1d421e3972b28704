//! The host actor of the running tool: it accepts one link after another, and on each a session runs, whose reader and writer post
//! beside each other, each at a desk of its own.
//!
//! It waits where its desks, its door, its links or its gate do, and nothing is promised of how long. Begin with `run_host`.
#![tactic(auto)]

mod bytes;
mod host;
mod posting;
mod session;

pub use bytes::SessionBytes;
pub use host::run_host;
