//! The tool's open transactions (SEMI E5, transaction protocol): its primaries that wait for an answer, and the counter
//! of system bytes from which each of its messages is numbered.
//!
//! It holds at most sixteen, in room that `Transactions::new` takes; no later call takes memory. It sends nothing and
//! asks no clock: `start` tells the system bytes to send under, `answer`, `expired`, `forget` and `close_one` take out
//! the transaction that has ended. Begin with `Transactions::new`.
#![tactic(auto)]

mod sought;
mod table;
mod transaction;

pub use table::{Full, NoMemory, Transactions};
pub use transaction::{Open, What};
