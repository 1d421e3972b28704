//! The core of the tool, shared by chairs. Each actor of the running tool has a `Chair` of its own; a post waits for its turn, and
//! in it takes one step of the core. The history is that of all chairs: each chair's answered posts stand in it once, in the
//! order in which they were answered, with the number of the chair as their seat.
//!
//! It is written for any core that keeps its history as a `Recorder` does, and knows no other than that. It starts no thread, reads
//! no clock and no link, and says nothing of waiting. Begin with `Shared::open`, post with
//! `Shared::post`, and hand all chairs in with `Shared::close`, which gives the core back. An actor that is written for any desk
//! takes a `Sitting`, which is a chair with all that it needs to post.
#![tactic(auto)]

mod held;
mod keeping;
mod posted;
mod shared;
mod sitting;
mod standing;

pub use held::Held;
pub use posted::Posted;
pub use shared::{Chair, NoMemory, Shared};
pub use sitting::{Place, Sitting};
pub use standing::Standing;
