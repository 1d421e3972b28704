//! The parts of a history that no plant is needed to say: the list of its entries, what is counted over it (sessions, notes and what
//! became of them, commands that were done, control jobs that were completed, substrates that were registered), why its sessions
//! ended, and how many bytes went out in each; and the view of the core that keeps it, which contracts speak of.
//!
//! The core itself is `tool_core`. What stands here needs none of it, so that what reads lines and what is said of a run are proved
//! beside it. Only lists take memory. Begin with `Totals`, and with `SessionCounts`.
#![tactic(auto)]

mod counts;
mod entries;
mod laws;
mod parts;
mod totals;

pub use counts::SessionCounts;
pub use entries::Entries;
pub use laws::each_registration_has_the_next_number;
pub use parts::{add_end, add_taken, cause_at, event_bytes, make_room};
pub use totals::Totals;
