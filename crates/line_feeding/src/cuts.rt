//! What the bytes of a session make whole, and which line ends the run.
ghost use Rattle.std.specs.Prelude.{◌≡◌, List, [], ℕ, IfOk};
ghost use Rattle.line_grammar.specs.declared.line.Line.TheVariants as line;
ghost use Rattle.tool_events.specs.Sizes.{text_bytes};
ghost use Rattle.line_grammar.specs.Texts.{is_quit};
ghost use Rattle.hsms_frame.specs.Cut.{IsCutOf, arrivals_of};
ghost use Rattle.line_feeding.specs.Cuts.{Cuts};
ghost use Rattle.line_feeding.specs.Quitting.{quit_behind};

use crate::halt::Halt;
use hsms_frame::{Arrival, CutFault, Cutter};
use std::alloc::{AllocError, Global};
use tool_events::OperCmd;

/// Cuts the next bytes of a session, and tells whether a length below 10 follows what arrived.
pub fn cut_bytes(
    alloc: Global,
    cutter: &mut Cutter,
    bytes: &[u8],
    arrivals: &mut Vec<Arrival>,
) -> Result<bool, AllocError>
    requires { arrivals.old.items ≡ [] }
    ensures cuts { IfOk result (λ short. (stream : List ℕ) → cutter.old.max ≡ text_bytes
        → IsCutOf stream (arrivals_of text_bytes stream) cutter.old
        → Cuts bytes.now cutter.old cutter.new arrivals.new.items short stream) }
    ensures max { cutter.new.max ≡ cutter.old.max }
{
    match cutter.feed(alloc, bytes, arrivals) {
        Ok(()) => Ok(false),
        Err(CutFault::ShortLength(_)) => Ok(true),
        Err(CutFault::NoMemory) => Err(AllocError),
    }
}

/// Whether an operator's command ends the run.
pub fn ends_run(command: &OperCmd) -> bool
    ensures { result ≡ is_quit (line.Oper command.now) }
{
    matches!(command, OperCmd::Quit)
}

/// What was done in full ends the run.
pub fn quit_behind(taken: Result<(), Halt>) -> Result<(), Halt>
    ensures { result ≡ quit_behind taken }
{
    match taken {
        Ok(()) => Err(Halt::Quit),
        Err(halt) => Err(halt),
    }
}
