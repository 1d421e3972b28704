//! Writing a record.

ghost use Rattle.std.specs.Prelude.{true, ◌≡◌, ◌++◌, ◌∷◌, [], ◌+◌, ◌^◌, ◌<◌, ◌≤◌, ℕ, List, length, IfOk, OnOk, OnErr};
ghost use Rattle.nv_spool.specs.Writing.{WithOrWithout};
ghost use Rattle.outside.specs.Counts.{Rose};
ghost use Rattle.outside.specs.Disk.{Each};
ghost use Rattle.spool_format.specs.Format.{Sizes, Record, Shows, body, half_start, spelled};
ghost use Rattle.spool_format.specs.Runs.{LeavesOnly};
ghost use Rattle.spool_format.specs.declared.change.Change.{Change};

use outside::{Disk, Failed};

/// Writes a record at a closed gate: all that stands behind the gate, and when that is on the disk, the gate. The text is all
/// behind the gate, with a closed gate at its end.
pub(crate) fn append<D: Disk>(disk: &mut D, gate: u64, text: &[u8]) -> Result<(), Failed>
    requires { gate + 1 < 2 ^ 64 }
    // The record is on the disk.
    ensures acknowledged { OnOk result (D.tells disk.old ≡ true → (s : Sizes) (selector : ℕ) (rs : List Record) (change : Change)
        → text.now ≡ body change ++ 0 ∷ [] → gate ≡ half_start s selector + length (spelled rs) → length (spelled rs) + 1 + length (body change) < s.half
        → Each (D.leaves disk.old) (Shows s selector rs)
        → Each (D.leaves disk.new) (Shows s selector (rs ++ (1, change) ∷ []))) }
    // At each moment a crash leaves the records as they were, or with this one.
    ensures any_moment { D.tells disk.old ≡ true → (s : Sizes) (selector : ℕ) (rs : List Record) (change : Change)
        → text.now ≡ body change ++ 0 ∷ [] → gate ≡ half_start s selector + length (spelled rs) → length (spelled rs) + 1 + length (body change) < s.half
        → Each (D.leaves disk.old) (Shows s selector rs)
        → LeavesOnly D.moment D.left_since disk.old disk.new (WithOrWithout s selector rs change) }
    ensures tells { D.tells disk.new ≡ D.tells disk.old }
    ensures failed { OnErr result (Rose (D.faults disk.old) (D.faults disk.new)) }
    ensures faults_stay { D.faults disk.old ≤ D.faults disk.new }
{
    disk.write_at(gate + 1, text)?;
    disk.sync()?;
    disk.write_at(gate, &[1])?;
    disk.sync()
}
