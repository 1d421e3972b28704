//! The open transactions of the tool (SEMI E5, transaction protocol).
ghost use Rattle.std.specs.Prelude.{◌≡◌, is_some};
ghost use Rattle.transactions.specs.declared.transaction.What.TheVariants as what;
ghost use Rattle.transactions.specs.Table.{taken_out};
ghost use Rattle.transactions.specs.Endings.{answered, first_expired, first_of};
ghost use Rattle.gem_model.specs.State.{none_asked};
ghost use Rattle.gem_model.specs.Effects.{forgets};

use crate::plant::Plant;
use gem_ids::Moment;
use transactions::{Open, What};

impl Plant {
    /// The open transaction that a message of these system bytes, this stream and function answers, which stays open.
    /// `None`: the message answers none.
    pub fn find_transaction(&self, system: u32, stream: u8, function: u8) -> Option<Open>
        ensures { result ≡ answered system stream function self.now.transactions.opened }
    {
        self.transactions.find(system, stream, function)
    }

    /// Takes out the open transaction that a message of these system bytes, this stream and function answers. `None`:
    /// the message answers none, and nothing has changed.
    pub fn answer_transaction(&mut self, system: u32, stream: u8, function: u8) -> Option<Open>
        ensures answered { result ≡ answered system stream function self.old.transactions.opened }
        ensures after { self.new ≡ record self.old { transactions = taken_out result self.old.transactions } }
    {
        self.transactions.answer(system, stream, function)
    }

    /// Whether T3 of an open transaction is over at this moment.
    pub fn is_transaction_due(&self, at: Moment) -> bool
        ensures { result ≡ is_some (first_expired at.0 self.now.transactions.opened) }
    {
        self.transactions.is_due(at)
    }

    /// Takes out the transaction whose T3 is over at the present moment, the one of the least deadline, and of the least
    /// system bytes. `None`: T3 of none is over, and nothing has changed.
    pub fn expire_transaction(&mut self) -> Option<Open>
        ensures first { result ≡ first_expired self.old.moment self.old.transactions.opened }
        ensures after { self.new ≡ record self.old { transactions = taken_out result self.old.transactions } }
    {
        self.transactions.expired(self.moment)
    }

    /// Whether the tool attempts to go on-line: its S1F1 is open.
    pub fn is_attempting(&self) -> bool
        ensures { result ≡ is_some (first_of what.Attempt self.now.transactions.opened) }
    {
        self.transactions.is_open(What::Attempt)
    }

    /// The transaction of this kind is open no more.
    pub(crate) fn forget(&mut self, what: What)
        ensures { self.new ≡ forgets what self.old }
    {
        self.transactions.forget(what);
    }

    /// No transaction is open any more.
    pub fn close_all(&mut self)
        ensures { self.new ≡ none_asked self.old }
    {
        self.transactions.close_all();
    }
}
