//! A chair that an actor takes and gives back, and how the actor ended.

use actors::ActorEnd;
use tool_lock::{Kept, Pass};

/// Where an actor sits. Its chair is out while the actor has it.
#[derive(Drop)]
pub struct Seat<V: Kept> {
    pub chair: Option<Pass<V>>,
    pub end: ActorEnd,
}
