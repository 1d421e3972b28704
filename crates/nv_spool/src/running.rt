//! Several changes, one after another.

ghost use Rattle.std.specs.Prelude.{true, false, ◌≡◌, ◌↔◌, ◌+◌, ◌≤◌, ℕ, List, length, take, IfOk, OnOk, IfErr, OnErr, IsErrOf};
ghost use Rattle.nv_spool.specs.Writing.{BeforeOrAfter, AfterSome, CanMake, made};
ghost use Rattle.outside.specs.Counts.{Rose};
ghost use Rattle.outside.specs.Disk.{Each};
ghost use Rattle.spool_format.specs.Faults.{Told};
ghost use Rattle.spool_format.specs.Format.{CanStand, StandsFor, changed, may_follow};
ghost use Rattle.spool_format.specs.Runs.{LeavesOnly};

use crate::nv_spool::NvSpool;
use outside::Disk;
use spool_format::{Change, NvFault};

impl<D: Disk + Drop> NvSpool<D> {
    /// Makes a change, as `push`, `put_back` and `take` do.
    pub fn make(&mut self, change: Change) -> Result<(), NvFault>
        requires can { CanStand change }
        requires may { may_follow change self.old.notes ≡ true }
        ensures after { OnOk result (self.new.notes ≡ changed self.old.sizes.capacity change self.old.notes) }
        ensures sizes { self.new.sizes ≡ self.old.sizes }
        ensures acknowledged { OnOk result (D.tells self.old.disk ≡ true → Each (D.leaves self.new.disk) (StandsFor self.new.sizes self.new.notes)) }
        ensures any_moment { self.old.is_closed ≡ false → D.tells self.old.disk ≡ true
            → LeavesOnly D.moment D.left_since self.old.disk self.new.disk (BeforeOrAfter self.old.sizes self.old.notes (changed self.old.sizes.capacity change self.old.notes)) }
        ensures fault { self.old.is_closed ≡ false → IfErr result (Told (Rose (D.faults self.old.disk) (D.faults self.new.disk)) (λ place. ⊥)) }
        ensures closed { IsErrOf result NvFault.Closed ↔ (self.old.is_closed ≡ true) }
        ensures opened { OnOk result (self.new.is_closed ≡ false) }
        ensures tells { D.tells self.new.disk ≡ D.tells self.old.disk }
        ensures faults_stay { D.faults self.old.disk ≤ D.faults self.new.disk }
    {
        match change {
            Change::Push(overwrite, note) => match self.push(note, overwrite) {
                Ok(_) => Ok(()),
                Err(fault) => Err(fault),
            },
            Change::PutBack(overwrite, note) => match self.put_back(note, overwrite) {
                Ok(_) => Ok(()),
                Err(fault) => Err(fault),
            },
            Change::Take => match self.take() {
                Ok(_) => Ok(()),
                Err(fault) => Err(fault),
            },
        }
    }

    /// Makes these changes in their order, up to the first that isn't answered `Ok`; with its fault it tells how many were. From notes
    /// on that each image has, a crash at any moment, within a call or between two, leaves the notes after some of these changes, of which
    /// none is left out: of those that were answered `Ok`, and at most the one in work.
    pub fn make_all(&mut self, changes: Vec<Change>) -> Result<(), (usize, NvFault)>
        requires changes { CanMake self.old.sizes.capacity self.old.notes changes.items }
        requires opened { self.old.is_closed ≡ false }
        requires stands { D.tells self.old.disk ≡ true → Each (D.leaves self.old.disk) (StandsFor self.old.sizes self.old.notes) }
        ensures after { OnOk result (self.new.notes ≡ made self.old.sizes.capacity changes.items self.old.notes) }
        ensures acknowledged { OnOk result (D.tells self.old.disk ≡ true → Each (D.leaves self.new.disk) (StandsFor self.new.sizes self.new.notes)) }
        ensures any_moment { OnOk result (D.tells self.old.disk ≡ true
            → LeavesOnly D.moment D.left_since self.old.disk self.new.disk (AfterSome self.old.sizes self.old.notes changes.items)) }
        ensures up_to_a_fault { IfErr result (λ e. D.tells self.old.disk ≡ true
            → LeavesOnly D.moment D.left_since self.old.disk self.new.disk (AfterSome self.old.sizes self.old.notes (take (e.0 + 1) changes.items))) }
        ensures fault { IfErr result (λ e. Told (Rose (D.faults self.old.disk) (D.faults self.new.disk)) (λ place. ⊥) e.1) }
    {
        let mut count = 0;
        for change in changes {
            match self.make(change) {
                Ok(()) => count += 1,
                Err(fault) => return Err((count, fault)),
            }
        }
        Ok(())
    }
}
