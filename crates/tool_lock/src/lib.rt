//! A lock by turns. A value that keeps its own history stands under a `Turnstile`, and who holds a `Pass` takes turns with it:
//! a turn waits until its ticket is served, lends the value to one call, and leaves the history as it was or one entry
//! longer. A pass has a number, which its entries have. It knows a beginning of the history, its front, and the entries that
//! it appended; `close` says that the whole history begins with every front, and that the entries of each number are those
//! of its pass, whatever the order of the turns was.
//!
//! It knows nothing of what the value is, starts no thread, and says nothing of waiting: not that a pass is ever served, and
//! not in which order passes are. Begin with `Kept`, what a value has to tell, and with `Turnstile::open`.
#![tactic(auto)]

mod ends;
mod kept;
mod pass;
mod plays;
mod rule;
mod table;
mod turnstile;

pub use ends::NoMemory;
pub use kept::Kept;
pub use pass::Pass;
pub use table::Turnstile;
