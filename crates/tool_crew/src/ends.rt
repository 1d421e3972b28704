//! How the actors ended.

use actors::ActorEnd;

/// How each actor ended; of the modules the first that didn't end with `Quit`, if any.
#[derive(Clone, Copy)]
pub struct Ends {
    pub host: ActorEnd,
    pub operator: ActorEnd,
    pub clock: ActorEnd,
    pub modules: ActorEnd,
}
