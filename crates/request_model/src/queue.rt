//! What a command on a control job does (SEMI E94, S16F27).

use gem_tables::Firing;

/// What a command on a control job does: it fires a row of table 15, or it makes the job the head of the queue,
/// which `make_head` does.
#[derive(Clone, Copy)]
pub enum QueueAct {
    Fires(Firing),
    Heads,
}
