ghost use Rattle.std.specs.Prelude.{◌≡◌, ◌≢◌, ℕ, ◌<◌, ◌≤◌, List, Option, length, take, Ok, IfOk, OnOk, OnErr};
ghost use Rattle.outside.specs.Counts.{Rose};
ghost use Rattle.outside.specs.Told.{Written};

use crate::source::Failed;

/// Where bytes go.
pub trait Sink {
    /// The bytes that it holds, where the sink tells them.
    ghost held: { Self → Option (List ℕ) };

    /// How often a write failed.
    ghost faults: { Self → ℕ };

    /// How often a write of a piece that isn't empty was answered 0.
    ghost refusals: { Self → ℕ };

    /// Writes a front of the piece, and answers how many bytes it took. `Failed` comes only where the sink's own
    /// count of faults rose in this call, and then nothing was taken; the count rises at no other answer. The count of
    /// refusals rises only at an answer 0.
    fn write(&mut self, bytes: &[u8]) -> Result<usize, Failed>
        ensures fits { IfOk result (λ n. n ≤ length bytes.now) }
        ensures written { IfOk result (λ n. Written (held self.old) (held self.new) (take n bytes.now)) }
        ensures refused { IfOk result (λ n. n ≡ 0 → 0 < length bytes.now → Rose (refusals self.old) (refusals self.new)) }
        ensures unrefused { result ≢ Ok 0 → refusals self.new ≡ refusals self.old }
        ensures failed { OnErr result (Rose (faults self.old) (faults self.new)) }
        ensures unfailed { OnOk result (faults self.new ≡ faults self.old) }
        ensures unwritten { OnErr result (held self.new ≡ held self.old) }
        ensures faults_stay { faults self.old ≤ faults self.new }
        ensures refusals_stay { refusals self.old ≤ refusals self.new };
}
