ghost use Rattle.std.specs.Prelude.{◌≡◌, ℕ, ◌<◌, ◌≤◌, ◌↔◌, List, Option, length, take, IfOk, OnOk, OnErr};
ghost use Rattle.outside.specs.Counts.{Rose};
ghost use Rattle.outside.specs.Told.{Taken, NothingLeft};

/// A read or a write failed.
#[derive(Clone, Copy, Debug)]
pub struct Failed;

/// Where bytes come from.
pub trait Source {
    /// The bytes that are left, where the source tells them.
    ghost left: { Self → Option (List ℕ) };

    /// How often a read failed.
    ghost faults: { Self → ℕ };

    /// How often a read of a buffer that isn't empty was answered 0.
    ghost ends: { Self → ℕ };

    /// Reads the next bytes into the front of the buffer, and answers how many. 0 for a buffer that isn't empty is
    /// the end. `Failed` comes only where the source's own count of faults rose in this call, and the count rises at
    /// no other answer.
    fn read(&mut self, buf: &mut [u8]) -> Result<usize, Failed>
        ensures fits { IfOk result (λ n. n ≤ length buf.old) }
        ensures taken { IfOk result (λ n. Taken (left self.old) (left self.new) (take n buf.new)) }
        ensures end { IfOk result (λ n. n ≡ 0 → 0 < length buf.old
            → NothingLeft (left self.old) × Rose (ends self.old) (ends self.new)) }
        ensures failed { OnErr result (Rose (faults self.old) (faults self.new)) }
        ensures unfailed { OnOk result (faults self.new ≡ faults self.old) }
        ensures untaken { OnErr result (left self.new ≡ left self.old) }
        ensures faults_stay { faults self.old ≤ faults self.new }
        ensures ends_stay { ends self.old ≤ ends self.new };
}
