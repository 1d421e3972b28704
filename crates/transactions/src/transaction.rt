//! One open transaction.

ghost use Rattle.std.specs.Prelude.{◌≡◌};
ghost use Rattle.transactions.specs.Endings.{answers, is_expired, is_before, same_kind};

use gem_ids::Moment;

/// What a transaction is for: S1F13, which establishes communication; S1F1, which attempts to go on-line; or the note of
/// a number, an S5F1 or S6F11.
#[derive(Clone, Copy)]
pub enum What {
    Establish,
    Attempt,
    Note(u64),
}

/// A primary of the tool that waits for its answer: the system bytes, stream and function that it was sent with, and the
/// moment, in hundredths of a second, at which T3 is over.
#[derive(Clone, Copy)]
pub struct Open {
    pub system: u32,
    pub stream: u8,
    pub function: u8,
    pub deadline: u64,
    pub what: What,
}

impl What {
    /// Whether the two are the same.
    pub(crate) fn is_same(self, other: What) -> bool
        ensures { result ≡ same_kind self other }
    {
        match (self, other) {
            (What::Establish, What::Establish) | (What::Attempt, What::Attempt) => true,
            (What::Note(number), What::Note(other)) => number == other,
            _ => false,
        }
    }
}

impl Open {
    /// Whether a message of these system bytes, this stream and function answers this transaction.
    pub(crate) fn is_answered_by(&self, system: u32, stream: u8, function: u8) -> bool
        ensures { result ≡ answers system stream function self.now }
    {
        let next = u16::from(self.function) + 1;
        self.system == system
            && self.stream == stream
            && (function == 0 || u16::from(function) == next)
    }

    /// Whether the deadline has come at this moment. One past the last moment never comes.
    pub(crate) fn is_expired(&self, at: Moment) -> bool
        ensures { result ≡ is_expired at.0 self.now }
    {
        self.deadline <= at.0 && self.deadline <= Moment::LAST.0
    }

    /// Whether its deadline is less, or equal and its system bytes are less.
    pub(crate) fn is_before(&self, other: &Open) -> bool
        ensures { result ≡ is_before self.now other.now }
    {
        self.deadline < other.deadline
            || self.deadline == other.deadline && self.system < other.system
    }
}
