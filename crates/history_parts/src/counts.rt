ghost use Rattle.std.specs.Prelude.{ℕ, ◌≡◌, ◌≤◌, ◌<◌, ◌+◌, ◌==◌, max, [], length, OnOk, OnErr, if◌then◌else◌};
ghost use Rattle.gem_model.specs.Sizes.{counted};
ghost use Rattle.history_parts.specs.Counts.{count_of};

use std::alloc::{AllocError, Global};
use std::marker::Model;

/// A count for each session, which contracts see as the list of the counts: the first is that of session 1. A session
/// for which no room was made counts 0.
#[derive(Drop)]
pub struct SessionCounts {
    counts: Vec<u64>,
}

impl Model for SessionCounts {
    ghost use Rattle.std.specs.Prelude.{ℕ, List};

    ghost Value = { List ℕ };

    ghost view = { λ s. s.counts.items };
}

impl SessionCounts {
    /// The counts of no session. Takes no memory.
    pub fn none(alloc: Global) -> SessionCounts
        ensures { result ≡ [] }
    {
        SessionCounts {
            counts: Vec::new(alloc),
        }
    }

    /// The count of a session, numbered from 1. 0: the session has none.
    pub fn of(&self, session: u64) -> u64
        ensures { result ≡ count_of self.now session }
    {
        if session == 0 || session > self.counts.len() as u64 {
            return 0;
        }
        self.counts[(session - 1) as usize]
    }

    /// Makes room for the count of a session, numbered from 1: `add` takes no memory then. On want of memory all is as
    /// before.
    pub fn make_room(&mut self, session: u64) -> Result<(), AllocError>
        ensures counts { (k : ℕ) → count_of self.new k ≡ count_of self.old k }
        ensures room { OnOk result (session ≤ length self.new) }
        ensures no_more { OnOk result (length self.new ≡ max (length self.old) session) }
        ensures unchanged { OnErr result (self.new ≡ self.old) }
    {
        if session <= self.counts.len() as u64 {
            return Ok(());
        }
        self.counts.resize(session as usize, 0)
    }

    /// Adds to the count of a session for which there is room. A count stands still at the greatest number of 64 bits.
    pub fn add(&mut self, session: u64, more: u64)
        requires some { 0 < session }
        requires room { session ≤ length self.old }
        ensures counts { (k : ℕ) → count_of self.new k ≡ (if k == session then counted (count_of self.old k + more) else count_of self.old k) }
        ensures len { length self.new ≡ length self.old }
    {
        let place = (session - 1) as usize;
        self.counts[place] = self.counts[place].saturating_add(more);
    }
}
