//! The open transactions in the order of their start, and the counter of system bytes.

ghost use Rattle.std.specs.Prelude.{◌≡◌, ◌+◌, ◌<◌, ◌++◌, [], ◌∷◌, length, true, false, is_some, ◌==◌, Ok, Err, Some, None, find, slice_get, if◌then◌else◌, IfOk, IfSome, IfNone};
ghost use Rattle.transactions.specs.Table.{IsTable, none_open, limit, is_full, has_system, taken_out};
ghost use Rattle.transactions.specs.SystemBytes.{behind, drawn, after_draw, after_start};
ghost use Rattle.transactions.specs.Endings.{answered, first_expired, first_of, latest};
ghost use Rattle.transactions.specs.Sought.{fits};
ghost use Rattle.transactions.specs.Earlier.{earlier};

use crate::sought::Sought;
use crate::transaction::{Open, What};
use gem_ids::Moment;
use slab::Slab;
use std::alloc::{AllocError, Global};
use std::marker::Model;

/// Memory ran out.
pub type NoMemory = AllocError;

/// No transaction can be started, since so many are open.
#[derive(Clone, Copy)]
pub struct Full(pub u32);

// So many transactions are open at most.
const LIMIT: usize = 16;

/// The tool's open transactions, which contracts see as the list of them, the oldest first, with the counter of system
/// bytes. No two have the same system bytes.
#[derive(Drop)]
pub struct Transactions {
    next: u32,
    slab: Slab<Open>,
    // The keys in the order of the starts.
    order: Vec<usize>,
}

impl Model for Transactions {
    ghost use Rattle.transactions.specs.Table.{Table};

    ghost Value = { Table };

    ghost use Rattle.transactions.specs.Kept.{table_of, IsKept};

    ghost view = { table_of };

    ghost invariant = { IsKept };
}

impl Transactions {
    /// None open, and the counter at 1. Takes room for all that can be open; no later call takes memory. `NoMemory`
    /// where there is no room.
    pub fn new(alloc: Global) -> Result<Transactions, NoMemory>
        ensures { IfOk result (λ transactions. transactions ≡ none_open) }
    {
        Ok(Transactions {
            next: 1,
            slab: Slab::with_capacity(alloc, LIMIT)?,
            order: Vec::with_capacity(alloc, LIMIT)?,
        })
    }

    /// How many are open, 16 at most.
    pub fn len(&self) -> usize
        ensures len { result ≡ length self.now.opened }
        ensures table { IsTable self.now }
    {
        self.order.len()
    }

    /// Whether none is open.
    pub fn is_empty(&self) -> bool
        ensures { result ≡ (length self.now.opened == 0) }
    {
        self.order.is_empty()
    }

    /// Whether no more can be started, since 16 are open.
    pub fn is_full(&self) -> bool
        ensures { result ≡ is_full self.now }
    {
        self.len() >= LIMIT
    }

    // The open transaction at this place in the order of the starts.
    fn at(&self, place: usize) -> Open
        requires { place < length self.now.opened }
        ensures { slice_get self.now.opened place ≡ Some result }
    {
        self.slab[self.order[place]]
    }

    // The place of the first open transaction that is looked for.
    fn place_of(&self, sought: Sought) -> Option<usize>
        ensures within { IfSome result (λ place. place < length self.now.opened) }
        ensures first { IfSome result (λ place. find (fits sought) self.now.opened ≡ slice_get self.now.opened place) }
        ensures none { IfNone result (find (fits sought) self.now.opened ≡ None) }
        ensures table { IsTable self.now }
    {
        for place in 0..self.len() {
            if sought.fits(self.at(place)) {
                return Some(place);
            }
        }
        None
    }

    // The first open transaction that is looked for.
    fn first(&self, sought: Sought) -> Option<Open>
        ensures { result ≡ find (fits sought) self.now.opened }
    {
        match self.place_of(sought) {
            Some(place) => Some(self.at(place)),
            None => None,
        }
    }

    // Whether an open transaction has these system bytes.
    fn has_system(&self, system: u32) -> bool
        ensures answer { result ≡ has_system self.now.opened system }
        ensures table { IsTable self.now }
    {
        self.place_of(Sought::System(system)).is_some()
    }

    // The system bytes of the next message: the first, from the counter on, that no open transaction has.
    fn next_free(&self) -> u32
        ensures drawn { result ≡ drawn self.now }
        ensures free { has_system self.now.opened result ≡ false }
    {
        let mut skipped = 0;
        while self.has_system(self.behind(skipped)) {
            skipped += 1;
        }
        self.behind(skipped)
    }

    // The system bytes so many behind the counter, where 0 follows the last.
    fn behind(&self, steps: u32) -> u32
        ensures { result ≡ behind self.now.next steps }
    {
        self.next.wrapping_add(steps)
    }

    /// Gives the next system bytes that no open transaction has, and passes over those that one has. The counter then
    /// stands behind them; 0 follows the last.
    pub fn draw(&mut self) -> u32
        ensures drawn { result ≡ drawn self.old }
        ensures free { has_system self.old.opened result ≡ false }
        ensures after { self.new ≡ after_draw self.old }
    {
        let system = self.next_free();
        self.next = system.wrapping_add(1);
        system
    }

    /// The counter stands at this number, as where that of an earlier run goes on. Open transactions stay as they are.
    pub fn count_from(&mut self, next: u32)
        ensures { self.new ≡ record self.old { next = next } }
    {
        self.next = next;
    }

    // Adds a transaction, which was started last.
    fn add(&mut self, one: Open)
        requires room { is_full self.old ≡ false }
        requires free { has_system self.old.opened one.system ≡ false }
        ensures next { self.new.next ≡ self.old.next }
        ensures opened { self.new.opened ≡ self.old.opened ++ one ∷ [] }
    {
        let key = self.slab.insert_reserved(one);
        self.order.push_reserved(key);
    }

    /// Starts a transaction under the next system bytes, which it gives: a primary of this stream and function, whose T3
    /// is over at this moment, in hundredths of a second. `Full(16)` exactly where 16 are open; then nothing has changed.
    pub fn start(
        &mut self,
        stream: u8,
        function: u8,
        deadline: u64,
        what: What,
    ) -> Result<u32, Full>
        ensures started { result ≡ (if is_full self.old then Err (record { 0 = limit }) else Ok (drawn self.old)) }
        ensures free { IfOk result (λ system. has_system self.old.opened system ≡ false) }
        ensures after { self.new ≡ after_start stream function deadline what self.old }
    {
        if self.is_full() {
            return Err(Full(16));
        }
        let system = self.draw();
        self.add(Open {
            system,
            stream,
            function,
            deadline,
            what,
        });
        Ok(system)
    }

    // Takes out this transaction, by its system bytes. Where there is none nothing changes.
    fn take_out(&mut self, found: Option<Open>)
        ensures { self.new ≡ taken_out found self.old }
    {
        let Some(one) = found else { return };
        let Some(place) = self.place_of(Sought::System(one.system)) else {
            return;
        };
        let key = self.order.remove(place);
        self.slab.remove(key);
    }

    /// The open transaction that a message of these system bytes, this stream and function answers, which stays open: its
    /// function is the primary's next, or 0. `None` exactly where there is none.
    pub fn find(&self, system: u32, stream: u8, function: u8) -> Option<Open>
        ensures { result ≡ answered system stream function self.now.opened }
    {
        self.first(Sought::AnsweredBy(system, stream, function))
    }

    /// Takes out the open transaction that a message of these system bytes, this stream and function answers: its
    /// function is the primary's next, or 0. `None` exactly where there is none; then nothing has changed.
    pub fn answer(&mut self, system: u32, stream: u8, function: u8) -> Option<Open>
        ensures taken { result ≡ answered system stream function self.old.opened }
        ensures after { self.new ≡ taken_out result self.old }
    {
        let found = self.find(system, stream, function);
        self.take_out(found);
        found
    }

    // The first of the expired transactions.
    fn first_expired(&self, at: Moment) -> Option<Open>
        ensures { result ≡ first_expired at.0 self.now.opened }
    {
        let mut first = None;
        for place in 0..self.len() {
            let one = self.at(place);
            if one.is_expired(at) {
                first = Some(earlier(first, one));
            }
        }
        first
    }

    /// Whether the deadline of an open transaction has come at this moment.
    pub fn is_due(&self, at: Moment) -> bool
        ensures { result ≡ is_some (first_expired at.0 self.now.opened) }
    {
        self.first_expired(at).is_some()
    }

    /// Takes out the expired transaction of the least deadline, among equal deadlines that of the least system bytes. A
    /// transaction is expired at its deadline and later, and one whose deadline is past the last moment never. `None`
    /// exactly where none is expired; then nothing has changed.
    pub fn expired(&mut self, at: Moment) -> Option<Open>
        ensures taken { result ≡ first_expired at.0 self.old.opened }
        ensures after { self.new ≡ taken_out result self.old }
    {
        let found = self.first_expired(at);
        self.take_out(found);
        found
    }

    /// Whether a transaction of this kind is open.
    pub fn is_open(&self, what: What) -> bool
        ensures { result ≡ is_some (first_of what self.now.opened) }
    {
        self.first(Sought::Kind(what)).is_some()
    }

    /// Takes out the transaction of this kind that was started first, and tells whether there was one. Where there was
    /// none nothing has changed.
    pub fn forget(&mut self, what: What) -> bool
        ensures was_open { result ≡ is_some (first_of what self.old.opened) }
        ensures after { self.new ≡ taken_out (first_of what self.old.opened) self.old }
    {
        let found = self.first(Sought::Kind(what));
        self.take_out(found);
        found.is_some()
    }

    // The transaction that was started last.
    #[tactic(auto, using(crate::proofs::Systems::latest_is))]
    fn latest(&self) -> Option<Open>
        ensures { result ≡ latest self.now.opened }
    {
        let len = self.len();
        if len == 0 {
            None
        } else {
            Some(self.at(len - 1))
        }
    }

    /// Takes out the transaction that was started last. `None` exactly where none is open; then nothing has changed.
    pub fn close_one(&mut self) -> Option<Open>
        ensures taken { result ≡ latest self.old.opened }
        ensures after { self.new ≡ taken_out result self.old }
    {
        let found = self.latest();
        self.take_out(found);
        found
    }

    /// No transaction is open any more. The counter of system bytes stays.
    pub fn close_all(&mut self)
        ensures { self.new ≡ record self.old { opened = [] } }
    {
        self.slab.clear();
        self.order.clear();
    }
}

// The earlier one of a transaction and the one that was first so far.
fn earlier(first: Option<Open>, one: Open) -> Open
    ensures { result ≡ earlier first one }
{
    match first {
        Some(other) if !one.is_before(&other) => other,
        _ => one,
    }
}
