//! What the operator, the equipment, the link and the clock do to the tool (SEMI E30, SEMI E37 and SEMI E87; the operator's
//! words to jobs, SEMI E40 and SEMI E94). What the messages of the host do stands in `core_host`.
//!
//! Each call is one event before the tool settles; `follow` of `core_settling` settles it. Contracts see a `Plant` as the `State`
//! of the definitions in `gem_model`. Memory may run out in each call that is handed an allocator; it answers `AllocError` then,
//! and nothing is said of the plant after that. Begin with `operator`, `signal` and `link_event`.
#![tactic(auto)]

mod clock;
mod links;
mod operate;
mod reaction;
mod signals;

pub use clock::{end_for, is_due};
pub use links::link_event;
pub use operate::operator;
pub use reaction::Reaction;
pub use signals::signal;
