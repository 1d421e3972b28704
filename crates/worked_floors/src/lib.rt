//! Floors of the tool that are made by hand, on which the definitions are computed: what the rows of carriers, locations,
//! substrates and modules do behind a signal of a module or a word of the operator, and what the tool has its modules do next
//! (`worked`; after SEMI E87 and E90; this tool's profile, direct rows, settling and moves); and how a lot of one substrate begins, runs
//! and ends, by a route of one step and by one of two, and what STOP, ABORT, PAUSE and a start by hand do (`jobs`; after SEMI E40 and
//! E94; tables 14 and 15); and that such a lot runs calm in the tool, and completes at its last Done (`lots`).
//!
//! It has no code, and no crate stands on it. `specs/Worked.antt` and `specs/Jobs.antt` make the floors.
#![tactic(auto)]

pub mod jobs;
pub mod lots;
pub mod worked;
