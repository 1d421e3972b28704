//! A change.

use spool::Note;

/// A change of the notes: a push of a note, or a put back of one to its place by number, each by the rule of a full spool, which is
/// overwritten or not; or the oldest note leaves.
#[derive(Drop)]
pub enum Change {
    Push(bool, Note),
    PutBack(bool, Note),
    Take,
}
