//! The running tool: all its actors over one core, each on a thread of its own and at a chair of its own. The reader and the writer
//! of the host's sessions have chairs 0 and 1, the operator 2, the clock 3, and module m has 3 + m. The clock is looked at once before the
//! others begin.
//!
//! It reads no configuration and writes no log (`serve` does). It waits where its actors do, and nothing is promised of how long.
//! Begin with `run_tool`.
#![tactic(auto)]

mod crew;
mod ends;
mod run;
mod seat;
mod seated;
mod seating;
mod seats;
mod start;

pub use ends::Ends;
pub use run::{Ran, run_tool};
