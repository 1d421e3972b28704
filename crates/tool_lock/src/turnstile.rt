//! How a pass takes a turn.

ghost use Rattle.std.specs.Prelude.{◌≡◌, length};
ghost use Rattle.tool_lock.specs.Passes.{pass_number, start, front, mine, IsPassOf};
ghost use Rattle.tool_lock.specs.Runs.{Run};
ghost use Rattle.tool_lock.specs.Turned.{own, keeps_history, front_of, mine_of, Starts};
ghost use Rattle.tool_lock.specs.Calls.{Rests, RestsAs, HasTurn, IsServed, IsOwn, IsNext, HasPut, IsTurn, TookTurn};

use crate::kept::Kept;
use crate::pass::Pass;
use crate::plays::{Count, Draw, Leave, Look};
use crate::rule::View;
use crate::table::Turnstile;
use atomic_table::Seat;
use crossbeam_utils::Backoff;
use std::sync::Wait;

impl<V: Kept + Drop> Turnstile<V> {
    // Pauses between two looks, longer from one to the next, and in the end sleeps until a wake. The look found `served` in word 1,
    // and it sleeps only where the word still has it.
    //
    // No wake is lost, since a pass draws its ticket before it looks, and who leaves raises word 1 before it looks at word 0. A
    // raise that came before the pass's look is in what that found. One that comes behind it finds the pass's ticket out, and a
    // wake follows: the pass sleeps by then and is woken, or finds the word changed and doesn't sleep. Only the low 32 bits of
    // the word are compared: they are enough, since word 1 rises by fewer than 2^32 until the pass is served, as no more tickets
    // are out than there are passes.
    fn pause<W: Wait>(&self, rt: &W, backoff: &Backoff, served: u64) {
        if backoff.is_completed() {
            self.table.shared.park(rt, 1, (served & 0xffff_ffff) as u32);
        } else {
            backoff.snooze();
        }
    }

    // Wakes all who sleep, behind a leave that raised word 1 from `left`, where a ticket is out. Where none is out nobody sleeps,
    // and who draws the next one finds word 1 raised.
    fn wake(&self, left: u64) {
        let shared = &self.table.shared;
        if shared.peek(0) != left.wrapping_add(1) {
            shared.wake_all(1);
        }
    }

    // Draws a ticket, and waits until it is served.
    fn enter<W: Wait>(&self, rt: &W, seat: &mut Seat<Option<V>, View<V::Entry, V::State>>)
        requires own { seat.old.table_id ≡ self.now.table.shared.table_id }
        requires rests { Rests seat.old.me }
        ensures same { (seat.new.table_id ≡ seat.old.table_id) × (seat.new.id ≡ seat.old.id) }
        ensures turn { HasTurn (keeps_history V.history V.opening) V.number seat.old.me seat.new.me }
    {
        let shared = &self.table.shared;
        let ticket = shared.fetch_add::<Draw>(seat, 0, 1);
        let backoff = Backoff::new();
        for _ in rt.forever() {
            let served = shared.load::<Look>(seat, 1);
            if served == ticket {
                return;
            }
            self.pause(rt, &backoff, served);
        }
        unreachable!()
    }

    // Puts the value back, counts the entry that it has more than before, if there is one, and lets the next ticket in.
    fn put(&self, seat: &mut Seat<Option<V>, View<V::Entry, V::State>>, before: u64, value: V)
        requires own { seat.old.table_id ≡ self.now.table.shared.table_id }
        requires served { IsServed seat.old.me }
        requires before { before ≡ length (front_of seat.old.me.0.claims) }
        requires mine { IsOwn V.number seat.old.me.0.claims }
        requires opening { Starts seat.old.me.0.claims (V.opening value) }
        requires next { IsNext V.history V.number seat.old.me.0.claims value }
        ensures same { (seat.new.table_id ≡ seat.old.table_id) × (seat.new.id ≡ seat.old.id) }
        ensures rests { Rests seat.new.me }
        ensures starts { (o : V.State) → Starts seat.old.me.0.claims o → Starts seat.new.me.0.claims o }
        ensures put { HasPut V.history V.number seat.old.me.0.claims value seat.new.me.0.claims }
    {
        let shared = &self.table.shared;
        let after = value.count();
        drop(shared.exchange(seat, 0, Some(value)));
        if after == before {
            let left = shared.fetch_add::<Leave>(seat, 1, 1);
            self.wake(left);
            return;
        }
        shared.fetch_add::<Count>(seat, 2, 1);
        let left = shared.fetch_add::<Leave>(seat, 1, 1);
        self.wake(left);
    }

    // A turn of a seat that has the claim of this number.
    fn take_turn<W: Wait, R, F: FnOnce(&mut V, u32) -> R>(
        &self,
        rt: &W,
        seat: &mut Seat<Option<V>, View<V::Entry, V::State>>,
        number: u32,
        f: F,
    ) -> R
        requires own { seat.old.table_id ≡ self.now.table.shared.table_id }
        requires rests { RestsAs number seat.old.me }
        requires starts { Starts seat.old.me.0.claims (V.opening (start self.now)) }
        requires turn { IsTurn V.history V.number V.opening F.FnOnce f number (V.opening (start self.now)) (front_of seat.old.me.0.claims) }
        ensures same { (seat.new.table_id ≡ seat.old.table_id) × (seat.new.id ≡ seat.old.id) }
        ensures rests { RestsAs number seat.new.me }
        ensures mine { IsOwn V.number seat.new.me.0.claims }
        ensures starts { Starts seat.new.me.0.claims (V.opening (start self.now)) }
        ensures turn { TookTurn V.history V.number V.opening F.FnOnce f number (V.opening (start self.now)) (front_of seat.old.me.0.claims) (mine_of seat.old.me.0.claims) result (front_of seat.new.me.0.claims) (mine_of seat.new.me.0.claims) }
    {
        self.enter(rt, seat);
        let Some(mut value) = self.table.shared.exchange(seat, 0, None) else {
            unreachable!()
        };
        let before = value.count();
        let answer = f(&mut value, number);
        self.put(seat, before, value);
        answer
    }

    /// Takes a turn: waits until the pass's ticket is served, lends the value and the pass's number to `f`, and gives what `f`
    /// answers. `f` may append one entry of that number to the history, or none, and leaves the opening state as it was. The
    /// history that it is lent begins with the pass's front; afterwards the front is the history as it left it. Takes no
    /// memory, and refuses nothing.
    pub fn turn<W: Wait, R, F: FnOnce(&mut V, u32) -> R>(
        &self,
        rt: &W,
        pass: &mut Pass<V>,
        f: F,
    ) -> R
        requires own { IsPassOf self.now pass.old }
        requires turn { IsTurn V.history V.number V.opening F.FnOnce f (pass_number pass.old) (V.opening (start self.now)) (front pass.old) }
        ensures same { IsPassOf self.now pass.new × (pass_number pass.new ≡ pass_number pass.old) }
        ensures runs { (end : V.State) × Run V.follows (V.opening (start self.now)) (front pass.new) end }
        ensures own { own V.number (pass_number pass.new) (front pass.new) ≡ mine pass.new }
        ensures turn { TookTurn V.history V.number V.opening F.FnOnce f (pass_number pass.old) (V.opening (start self.now)) (front pass.old) (mine pass.old) result (front pass.new) (mine pass.new) }
    {
        let number = pass.number;
        self.take_turn(rt, &mut pass.seat, number, f)
    }
}
