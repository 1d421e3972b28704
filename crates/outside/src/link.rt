ghost use Rattle.std.specs.Prelude.{◌≡◌, ◌≤◌, Bool, true, OnOk, OnErr};
ghost use Rattle.outside.specs.Counts.{Rose};

use crate::sink::Sink;
use crate::source::{Failed, Source};

/// The end of a link at which the peer's bytes come in. It is read as a source: an answer 0 for a buffer that isn't empty
/// is the peer's end.
pub trait LinkIn: Source {}

/// The end of a link at which bytes go out to the peer. It is written as a sink, and may keep what it took until it is flushed.
pub trait LinkOut: Sink {
    /// Whether it was shut.
    ghost is_shut: { Self → Bool };

    /// Sends what it took and still keeps. `Failed` comes only where the link's own count of faults rose in this call; the count
    /// rises at no other answer.
    fn flush(&mut self) -> Result<(), Failed>
        ensures held { Self.held self.new ≡ Self.held self.old }
        ensures failed { OnErr result (Rose (Self.faults self.old) (Self.faults self.new)) }
        ensures unfailed { OnOk result (Self.faults self.new ≡ Self.faults self.old) }
        ensures faults_stay { Self.faults self.old ≤ Self.faults self.new }
        ensures refusals { Self.refusals self.new ≡ Self.refusals self.old }
        ensures is_shut { is_shut self.new ≡ is_shut self.old };

    /// Sends what it took and still keeps, where that goes, and ends the link both ways. It takes no memory and refuses nothing.
    fn shut(&mut self)
        ensures shut { is_shut self.new ≡ true }
        ensures held { Self.held self.new ≡ Self.held self.old }
        ensures faults { Self.faults self.new ≡ Self.faults self.old }
        ensures refusals { Self.refusals self.new ≡ Self.refusals self.old };
}
