//! The core keeps its own history, which is a run of the steps of the tool.

ghost use Rattle.std.specs.Prelude.{◌≡◌};

use crate::held::Held;
use crate::posted::Posted;
use crate::standing::Standing;
use history_laws::Recorder;
use tool_lock::Kept;

impl<C: Recorder> Kept for Held<C> {
    ghost use Rattle.gem_model.specs.State.{opening};
    ghost use Rattle.shared_tool.specs.Posts.{posted_in, begun, standing, Follows};
    ghost use Rattle.shared_tool.specs.Laws.{leads};

    type Entry = Posted;

    type State = Standing;

    ghost history = { λ h. posted_in (C.view h.core).config (C.view h.core).history };

    ghost number = { λ e. e.seat };

    ghost opening = { λ h. begun (C.view h.core).config };

    ghost follows = { Follows };

    fn count(&self) -> u64 {
        self.core.history().len() as u64
    }

    ghost runs = { λ h. (
      standing (C.view h.core).config (C.view h.core).state,
      leads (C.view h.core).config (C.view h.core).history (C.view h.core).state h.legal h.there,
    ) };
}
