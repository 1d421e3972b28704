//! A disk that stands for no notes.

ghost use Rattle.std.specs.Prelude.{true, ◌≡◌, ◌++◌, ◌∷◌, [], ◌≤◌, OnOk, OnErr};
ghost use Rattle.outside.specs.Counts.{Rose};
ghost use Rattle.outside.specs.Disk.{Each};
ghost use Rattle.spool_format.specs.Format.{IsSize, StandsFor, head_bytes};

use outside::{Disk, Failed};

// The head of a disk of these sizes whose half A is read, and a closed gate at the start of that.
fn empty_bytes(capacity: u32, half: u64) -> [u8; 14]
    ensures { result ≡ head_bytes (record { capacity = capacity; half = half }) 0 ++ 0 ∷ [] }
{
    let c = capacity.to_be_bytes();
    let h = half.to_be_bytes();
    [
        0, c[0], c[1], c[2], c[3], h[0], h[1], h[2], h[3], h[4], h[5], h[6], h[7], 0,
    ]
}

/// Makes the disk stand for no notes. A crash within it leaves nothing that is promised.
pub(crate) fn format_disk<D: Disk>(disk: &mut D, capacity: u32, half: u64) -> Result<(), Failed>
    requires { IsSize (record { capacity = capacity; half = half }) }
    ensures stands { OnOk result (D.tells disk.old ≡ true → Each (D.leaves disk.new) (StandsFor (record { capacity = capacity; half = half }) [])) }
    ensures tells { D.tells disk.new ≡ D.tells disk.old }
    ensures failed { OnErr result (Rose (D.faults disk.old) (D.faults disk.new)) }
    ensures faults_stay { D.faults disk.old ≤ D.faults disk.new }
{
    disk.write_at(0, &empty_bytes(capacity, half))?;
    disk.sync()
}
