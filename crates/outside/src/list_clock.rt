ghost use Rattle.std.specs.Prelude.{◌≡◌, ℕ, true, false};
ghost use Rattle.outside.specs.Counts.{one_more};
ghost use Rattle.outside.specs.Readings.{reading, readings};
ghost use Rattle.outside.specs.Told.{told, Grew};

use crate::clock::Clock;
use gem_ids::Moment;
use std::marker::Model;

/// A clock in memory, for tests and small programs. It gives the moments of its list, and then its last one again and
/// again; of no moments it gives moment 0. It waits for nothing. Contracts see it as its list, with how often it was read.
#[derive(Drop)]
pub struct ListClock {
    moments: Vec<Moment>,
    reads: u64,
    is_counted: bool,
}

impl Model for ListClock {
    ghost use Rattle.outside.specs.Memory.{Ticking};

    ghost Value = { Ticking };

    ghost view = { λ c. record { moments = c.moments.items; reads = c.reads; is_counted = c.is_counted } };
}

impl ListClock {
    /// A clock of these moments.
    pub fn new(moments: Vec<Moment>) -> ListClock
        ensures { result ≡ record { moments = moments.items; reads = 0; is_counted = true } }
    {
        ListClock {
            moments,
            reads: 0,
            is_counted: true,
        }
    }

    /// How often it was read.
    pub fn reads(&self) -> u64
        ensures { result ≡ self.now.reads }
    {
        self.reads
    }
}

impl Clock for ListClock {
    ghost given = { λ c. told c.is_counted (readings c.moments c.reads) };

    /// Once its readings are more than a u64 holds, it no longer tells what it gave.
    fn now(&mut self) -> Moment
        ensures given { Grew (told self.old.is_counted (readings self.old.moments self.old.reads)) (told self.new.is_counted (readings self.new.moments self.new.reads)) result }

        // More than every clock promises: which moment it gives.
        ensures moment { result ≡ reading self.old.moments self.old.reads }
        ensures reads { self.new.reads ≡ one_more self.old.reads }
        ensures same { self.new.moments ≡ self.old.moments }
    {
        let moment = reading_of(self.moments.as_slice(), self.reads);
        let Some(reads) = self.reads.checked_add(1) else {
            self.is_counted = false;
            return moment;
        };
        self.reads = reads;
        moment
    }

    fn wait(&mut self, _hundredths: u32)
        ensures given { told self.new.is_counted (readings self.new.moments self.new.reads) ≡ told self.old.is_counted (readings self.old.moments self.old.reads) }

        // More than every clock promises: nothing changes.
        ensures same { self.new ≡ self.old }
    {}
}

// The moment behind so many others.
fn reading_of(moments: &[Moment], count: u64) -> Moment
    ensures { result ≡ reading moments.now count }
{
    if moments.is_empty() {
        return Moment(0);
    }
    let at = (count as usize).min(moments.len() - 1);
    moments[at]
}
