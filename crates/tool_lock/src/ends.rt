//! How a turnstile is opened and closed.

ghost use Rattle.std.specs.Prelude.{◌≡◌, ℕ, ◌+◌, ◌<◌, ◌≤◌, [], ◌++◌, length, slice_get, Some, IfOk};
ghost use mathlib.Core.List.{IsPrefix};
ghost use Rattle.tool_lock.specs.Turned.{own, view, Starts};
ghost use Rattle.tool_lock.specs.declared.rule.Stage.TheVariants.{Idle};
ghost use Rattle.tool_lock.specs.Passes.{pass_number, pass_count, start, front, mine, IsPassOf};
ghost use Rattle.tool_lock.specs.Ends.{HasClaims, AreNew, AreKnown, AreOf, Gathers};

use crate::kept::Kept;
use crate::pass::Pass;
use crate::plays::Claims;
use crate::rule::{Key, View};
use crate::table::Turnstile;
use atomic_table::{Seat, Table};
use std::alloc::{AllocError, Global};
use std::snapshot::Snapshot;

/// Memory ran out.
pub type NoMemory = AllocError;

impl<V: Kept + Drop> Turnstile<V> {
    // Cuts off the pass of this number, the first of those that the seat has the claims of; so many others follow it.
    fn cut(
        &self,
        seat: &mut Seat<Option<V>, View<V::Entry, V::State>>,
        number: u32,
        count: u32,
    ) -> Pass<V>
        requires own { seat.old.table_id ≡ self.now.table.shared.table_id }
        requires claims { HasClaims (V.opening (start self.now)) number (count + 1) seat.old.me }
        ensures rest { (seat.new.table_id ≡ seat.old.table_id) × HasClaims (V.opening (start self.now)) (number + 1) count seat.new.me }
        ensures pass { IsPassOf self.now result × (pass_number result ≡ number) × (front result ≡ []) × (mine result ≡ []) }
    {
        Pass {
            seat: self.table.shared.split_seat::<Claims>(seat),
            number,
        }
    }

    // All passes, numbered from 0, of a seat that has all claims.
    fn deal(
        &self,
        alloc: Global,
        mut seat: Seat<Option<V>, View<V::Entry, V::State>>,
        count: u32,
    ) -> Result<Vec<Pass<V>>, NoMemory>
        requires own { seat.table_id ≡ self.now.table.shared.table_id }
        requires claims { HasClaims (V.opening (start self.now)) 0 count seat.me }
        ensures { IfOk result (λ ps. (length ps.items ≡ count) × AreNew self.now ps.items) }
    {
        let mut passes = Vec::with_capacity(alloc, count as usize)?;
        for number in 0..count {
            let pass = self.cut(&mut seat, number, count - number - 1);
            passes.push(pass)?;
        }
        Ok(passes)
    }

    // A turnstile for so many passes, and the seat that has all claims.
    fn made(
        alloc: Global,
        value: V,
        count: u32,
    ) -> Result<(Turnstile<V>, Seat<Option<V>, View<V::Entry, V::State>>), NoMemory>
        requires count { 0 < count }
        requires fresh { V.history value ≡ [] }
        ensures { IfOk result (λ t. (pass_count t.0 ≡ count) × (t.1.table_id ≡ t.0.table.shared.table_id) × (start t.0 ≡ value) × HasClaims (V.opening value) 0 count t.1.me) }
    {
        let key = Key {
            count,
            start: Snapshot::of(&value),
        };
        let mut slots = Vec::new(alloc);
        slots.push(Some(value))?;
        match Table::new(alloc, &[0, 0, 0], slots, &key) {
            Ok((table, seat)) => Ok((Turnstile { table }, seat)),
            Err(_) => Err(AllocError),
        }
    }

    /// Puts a value whose history is empty under a turnstile, and makes all its passes, as many as `seats` says and at least
    /// one, numbered from 0 in the order in which they are given. `NoMemory` where there is no room for them; the value is
    /// dropped then.
    pub fn open(
        alloc: Global,
        value: V,
        seats: u32,
    ) -> Result<(Turnstile<V>, Vec<Pass<V>>), NoMemory>
        requires seats { 0 < seats }
        requires fresh { V.history value ≡ [] }
        ensures { IfOk result (λ t. (pass_count t.0 ≡ seats) × (start t.0 ≡ value) × (length t.1.items ≡ seats) × AreNew t.0 t.1.items) }
    {
        let (turnstile, seat) = Turnstile::made(alloc, value, seats)?;
        let passes = turnstile.deal(alloc, seat, seats)?;
        Ok((turnstile, passes))
    }

    // Hands in a pass: its claim goes to those of the seat.
    fn absorb(&self, seat: &mut Seat<Option<V>, View<V::Entry, V::State>>, pass: Pass<V>)
        requires own { (seat.old.table_id ≡ self.now.table.shared.table_id) × IsPassOf self.now pass }
        requires rests { seat.old.me ≡ (view seat.old.me.0.claims Idle, []) }
        ensures same { seat.new.table_id ≡ seat.old.table_id }
        ensures claims { seat.new.me ≡ (view (seat.old.me.0.claims ++ pass.seat.me.0.claims) Idle, []) }
    {
        let Pass {
            seat: other,
            number: _,
        } = pass;
        self.table.shared.join_seat::<Claims>(seat, other);
    }

    // Hands in all passes. The last one's seat gets the claims of the others.
    fn gather(&self, mut passes: Vec<Pass<V>>) -> Seat<Option<V>, View<V::Entry, V::State>>
        requires some { 0 < length passes.items }
        requires own { AreOf self.now passes.items }
        ensures own { result.table_id ≡ self.now.table.shared.table_id }
        ensures starts { Starts result.me.0.claims (V.opening (start self.now)) }
        ensures all { Gathers passes.items [] result.me }
    {
        let Some(first) = passes.pop() else {
            unreachable!()
        };
        let Pass {
            mut seat,
            number: _,
        } = first;
        while let Some(pass) = passes.pop() {
            self.absorb(&mut seat, pass);
        }
        seat
    }

    /// Ends the turns and gives the value, once all passes are handed in, in any order. Its history begins with each pass's
    /// front, the entries of each pass's number there are those that it appended, and no entry has a number that no pass
    /// has. Takes no memory, and refuses nothing.
    pub fn close(self, passes: Vec<Pass<V>>) -> V
        requires all { length passes.items ≡ pass_count self }
        requires own { AreOf self passes.items }
        ensures known { AreKnown V.number (V.history result) passes.items }
        ensures others { (k : ℕ) → pass_count self ≤ k → own V.number k (V.history result) ≡ [] }
        ensures opening { V.opening result ≡ V.opening (start self) }
    {
        let seat = self.gather(passes);
        let Turnstile { table } = self;
        let mut closed = table.close_with(seat);
        let value = closed.take(0);
        closed.free();
        match value {
            Some(value) => value,
            None => unreachable!(),
        }
    }
}
