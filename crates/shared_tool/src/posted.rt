//! What was posted and answered.

use gem_ids::Moment;
use tool_events::{Answer, Event};

/// An entry of the history with what it was answered: who posted it, the moment that was given with it, the event and the answer.
/// Contracts alone have values of it.
pub struct Posted {
    pub seat: u32,
    pub at: Moment,
    pub event: Event,
    pub answer: Answer,
}
