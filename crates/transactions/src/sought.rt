//! Which transaction is looked for.

ghost use Rattle.std.specs.Prelude.{◌≡◌};
ghost use Rattle.transactions.specs.Sought.{fits};

use crate::transaction::{Open, What};

/// Which transaction is looked for: that of these system bytes, the one that a message answers, or the first of a kind.
#[derive(Clone, Copy)]
pub enum Sought {
    System(u32),
    AnsweredBy(u32, u8, u8),
    Kind(What),
}

impl Sought {
    /// Whether a transaction is such a one.
    pub fn fits(self, transaction: Open) -> bool
        ensures { result ≡ fits self transaction }
    {
        match self {
            Sought::System(system) => transaction.system == system,
            Sought::AnsweredBy(system, stream, function) => {
                transaction.is_answered_by(system, stream, function)
            }
            Sought::Kind(what) => transaction.what.is_same(what),
        }
    }
}
