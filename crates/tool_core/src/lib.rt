//! The core of the tool: it takes events one at a time, answers each as the tables say, and keeps the history. What the
//! tool is at a moment is the `Plant` of `core_state`; what the messages of the host do to it stands in `core_host`, and what
//! links, operators, the equipment and the clock do in `core_shop`.
//!
//! The same events give the same history: the core reads no clock, no file and no link. Moments are handed in, and
//! frames are handed out when the writer takes them. Begin with `Core::open`, then `Core::apply`: they are calls of
//! the trait `Recorder`, which says what they promise.
//!
//! All tables of the tool are built: the link with T6, T7 and the tool's linktest (SEMI E37), communication and control with the
//! tool's transactions and T3, the line of notes with the spool (SEMI E30), load ports and carriers (SEMI E87), substrates (SEMI E90),
//! process jobs (SEMI E40), control jobs (SEMI E94), and the modules with their moves.
#![tactic(auto)]

mod react;
mod stepped;
mod tool;

pub use history_laws::Recorder;
pub use history_parts::Totals;
pub use tool::Core;
