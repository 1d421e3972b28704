//! The state of one HSMS link, after SEMI E37 (message exchange procedures) and SEMI E37.1 (single session): what a
//! header does on it, and its deadlines T6, T7 and the linktest period.
//!
//! It is plain data and takes no memory. It knows no texts, sends nothing, asks no clock, and gives out no system
//! bytes: headers and moments are handed in, and answers are given out. Begin with `LinkState::up`, and give each
//! header that arrives to `LinkState::take` and each look at the clock to `LinkState::due`.
#![tactic(auto)]

mod deadlines;
mod state;
mod table;

pub use deadlines::{LinkDue, LinkTimes, has_come};
pub use state::{LinkState, Phase, Ping};
pub use table::LinkAct;
