//! What the variables of the plant show, and the reports that give them (SEMI E5, S1F3 and S2F13; SEMI E30, event reports).
//!
//! The plant itself stands in `core_state`, above: here all that it is comes as a `Seen`, which borrows its parts. Each call tells one
//! thing of it. Memory may run out in each call that is handed an allocator; it answers `AllocError` then. Begin with `Seen`.
#![tactic(auto)]

mod reports;
mod seen;
mod shown;
mod values;

pub use seen::Seen;
pub use values::Showing;
