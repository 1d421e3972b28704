ghost use Rattle.std.specs.Prelude.{Bool, true, ◌≡◌, ◌≤◌, List, ℕ, length, take, IfOk, OnOk, OnErr};
ghost use Rattle.outside.specs.Counts.{Rose};
ghost use Rattle.outside.specs.Disk.{Torn, WrittenAt, IsRead, Follows, Each, Only, Elapses};

use crate::source::Failed;

/// A disk: bytes that are read and written at places, and that outlive the power once a sync has made sure of them. Between two syncs
/// a crash may leave any bytes in each range that was written and past the end that the disk had, and leaves the others.
///
/// Where a disk tells, its clauses say what a read gives and which images a crash may leave. Whether it does never changes. An adapter
/// over a file tells nothing.
pub trait Disk {
    /// Whether the disk tells what its bytes are.
    ghost tells: { Self → Bool };

    /// The bytes that a read gives.
    ghost reads: { Self → List ℕ };

    /// The images that a crash now may leave.
    ghost leaves: { Self → List ℕ → Type 0 };

    /// This moment, as a number that never falls.
    ghost moment: { Self → ℕ };

    /// The images that a crash at some moment from that one on may have left, during a call or between two.
    ghost left_since: { Self → ℕ → List ℕ → Type 0 };

    /// How often a call failed.
    ghost faults: { Self → ℕ };

    /// Reads from a place on into the front of the buffer, and answers how many bytes; 0 for a buffer that isn't empty is the end.
    /// `Failed` comes, of each of the calls, only where the disk's own count of faults rose in it, and the count rises at no other
    /// answer.
    fn read_at(&mut self, at: u64, buf: &mut [u8]) -> Result<usize, Failed>
        ensures fits { IfOk result (λ n. n ≤ length buf.old) }
        ensures bytes { IfOk result (λ n. tells self.old ≡ true → IsRead (reads self.old) at (length buf.old) n (take n buf.new)) }
        ensures tells { tells self.new ≡ tells self.old }
        ensures reads { tells self.old ≡ true → reads self.new ≡ reads self.old }
        ensures leaves { tells self.old ≡ true → Each (leaves self.new) (leaves self.old) }
        ensures time { tells self.old ≡ true → Elapses (moment self.old) (moment self.new) (left_since self.old) (left_since self.new) (leaves self.new) }
        ensures failed { OnErr result (Rose (faults self.old) (faults self.new)) }
        ensures unfailed { OnOk result (faults self.new ≡ faults self.old) }
        ensures faults_stay { faults self.old ≤ faults self.new };

    /// Writes all bytes from a place on, over what is there and past the end. A place may lie behind the end; what then stands between is
    /// free. After a write that failed any of the bytes may be written.
    fn write_at(&mut self, at: u64, bytes: &[u8]) -> Result<(), Failed>
        ensures written { OnOk result (tells self.old ≡ true → WrittenAt at bytes.now (reads self.old) (reads self.new)) }
        ensures tells { tells self.new ≡ tells self.old }
        ensures leaves { tells self.old ≡ true → Follows (Torn at (length bytes.now)) (leaves self.old) (leaves self.new) }
        ensures time { tells self.old ≡ true → Elapses (moment self.old) (moment self.new) (left_since self.old) (left_since self.new) (leaves self.new) }
        ensures failed { OnErr result (Rose (faults self.old) (faults self.new)) }
        ensures unfailed { OnOk result (faults self.new ≡ faults self.old) }
        ensures faults_stay { faults self.old ≤ faults self.new };

    /// Makes sure of all that was written: after it a crash leaves what a read gives.
    fn sync(&mut self) -> Result<(), Failed>
        ensures durable { OnOk result (tells self.old ≡ true → Only (reads self.old) (leaves self.new)) }
        ensures tells { tells self.new ≡ tells self.old }
        ensures reads { tells self.old ≡ true → reads self.new ≡ reads self.old }
        ensures leaves { tells self.old ≡ true → Each (leaves self.new) (leaves self.old) }
        ensures time { tells self.old ≡ true → Elapses (moment self.old) (moment self.new) (left_since self.old) (left_since self.new) (leaves self.new) }
        ensures failed { OnErr result (Rose (faults self.old) (faults self.new)) }
        ensures unfailed { OnOk result (faults self.new ≡ faults self.old) }
        ensures faults_stay { faults self.old ≤ faults self.new };

    /// A disk as it reads is one of its images.
    ghost reads_so: { (disk : Self) → tells disk ≡ true → leaves disk (reads disk) };

    /// From this moment on there is only what a crash may leave now.
    ghost only_now: { (disk : Self) (image : List ℕ) → tells disk ≡ true → left_since disk (moment disk) image → leaves disk image };

    /// This moment is one of those since an earlier one.
    ghost counts_now: { (disk : Self) (t : ℕ) (image : List ℕ) → tells disk ≡ true → t ≤ moment disk → leaves disk image → left_since disk t image };
}
