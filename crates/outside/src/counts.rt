ghost use Rattle.std.specs.Prelude.{◌≡◌, ◌<◌, ◌≤◌, ◌==◌, ◌&&◌, nat_lt, if◌then◌else◌, Ok, IfOk, OnOk, OnErr, is_err};
ghost use Rattle.outside.specs.Counts.{Rose, one_more};
ghost use Rattle.outside.specs.Memory.{is_zero_of};

use crate::source::Failed;

// How many calls of a source or a sink failed, and how many were answered 0 though they asked for bytes. A count stands
// still at the greatest that a u64 holds.
#[derive(Clone, Copy)]
pub(crate) struct Counts {
    pub(crate) faults: u64,
    pub(crate) zeros: u64,
}

impl Counts {
    // Of no calls.
    pub(crate) fn none() -> Counts
        ensures { result ≡ record { faults = 0; zeros = 0 } }
    {
        Counts {
            faults: 0,
            zeros: 0,
        }
    }

    // Counts a call that failed.
    pub(crate) fn failed(&mut self)
        ensures faults { self.new.faults ≡ one_more self.old.faults }
        ensures rose { Rose self.old.faults self.new.faults }
        ensures faults_stay { self.old.faults ≤ self.new.faults }
        ensures zeros { self.new.zeros ≡ self.old.zeros }
    {
        self.faults = self.faults.saturating_add(1);
    }

    // Counts a call that asked for so many bytes and was answered this number of them.
    pub(crate) fn answered(&mut self, n: usize, asked: usize)
        ensures zeros { self.new.zeros ≡ (if n == 0 && nat_lt 0 asked then one_more self.old.zeros else self.old.zeros) }
        ensures rose { n ≡ 0 → 0 < asked → Rose self.old.zeros self.new.zeros }
        ensures zeros_stay { self.old.zeros ≤ self.new.zeros }
        ensures faults { self.new.faults ≡ self.old.faults }
    {
        if n == 0 && asked > 0 {
            self.zeros = self.zeros.saturating_add(1);
        }
    }

    // Counts what a call for so many bytes was answered, and hands it on.
    pub(crate) fn count<E: Drop>(
        &mut self,
        answer: Result<usize, E>,
        asked: usize,
    ) -> Result<usize, Failed>
        ensures same { IfOk result (λ n. answer ≡ Ok n) }
        ensures variant { is_err result ≡ is_err answer }
        ensures failed { OnErr result (Rose self.old.faults self.new.faults) }
        ensures faults { self.new.faults ≡ (if is_err result then one_more self.old.faults else self.old.faults) }
        ensures zeros { self.new.zeros ≡ (if is_zero_of asked result then one_more self.old.zeros else self.old.zeros) }
        ensures faults_stay { self.old.faults ≤ self.new.faults }
        ensures zeros_stay { self.old.zeros ≤ self.new.zeros }
    {
        let Ok(n) = answer else {
            self.failed();
            return Err(Failed);
        };
        self.answered(n, asked);
        Ok(n)
    }

    // Counts a call that failed, and hands on what it was answered.
    pub(crate) fn passed<T: Drop, E: Drop>(&mut self, answer: Result<T, E>) -> Result<T, Failed>
        ensures same { IfOk result (λ x. answer ≡ Ok x) }
        ensures failed { OnErr result (Rose self.old.faults self.new.faults) }
        ensures unfailed { OnOk result (self.new.faults ≡ self.old.faults) }
        ensures faults_stay { self.old.faults ≤ self.new.faults }
    {
        let Ok(given) = answer else {
            self.failed();
            return Err(Failed);
        };
        Ok(given)
    }
}
