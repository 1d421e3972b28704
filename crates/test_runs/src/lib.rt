//! Tests of whole runs, of any tool: conversations that are played, runs to which lines are said, and tools that are told events, and
//! played lots that are drawn from seeds. It knows no tool: a program gives its own, as `Tools`. So all of this is proved beside the tool,
//! and with no part of it in view. It is no part of the tool.
//!
//! A conversation whose first line is `to runs` is said to runs (`subject`): lines that lack their line feed, sources and sinks that fail,
//! words and configurations that are refused, long lines, batches, and what a run leaves behind. One whose first line is `to a core, ..`
//! is said to a tool alone (`begun`, `spoken`), and one whose first line is `to drawn lots` names lots that are drawn from seeds and played
//! to a tool (`drawn`). `to drawn bytes` begins one that names bytes, which come in two cuttings (`cuttings`), and `to a cutter ..` and
//! `to the reader of items` one that is said to these alone (`frames`). Any other is a whole run (`play`). Begin with `Tested`.
#![tactic(auto)]

mod begun;
mod cores;
mod cuttings;
mod drawn;
mod drawn_bytes;
mod events;
mod frames;
mod given;
mod lots;
mod narrow;
mod plant;
mod play;
mod played;
mod spoken;
mod steps;
mod subject;
mod tested;
mod told;
mod tool;
mod trial;
mod usage;

pub use tested::Tested;
pub use tool::{Ran, Tool, Tools};
