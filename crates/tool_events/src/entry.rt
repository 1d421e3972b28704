use crate::answer::Answer;
use crate::event::Event;
use gem_ids::Moment;

/// An entry of the history: who posted what, and the moment that was given with it.
pub struct Entry {
    pub seat: u32,
    pub at: Moment,
    pub event: Event,
}

// Written out, so that it is one call wherever an entry is dropped.
impl Drop for Entry {
    fn drop(self) {
        let Entry {
            seat: _seat,
            at: _at,
            event: _event,
        } = self;
    }
}

/// A post that a desk answered `Ok`: the moment that was given with it, the event, and its answer.
#[derive(Drop)]
pub struct Post {
    pub at: Moment,
    pub event: Event,
    pub answer: Answer,
}
