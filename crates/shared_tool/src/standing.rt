//! The states that the turns lead through.

use std::marker::Model;

/// A core in some state, of which contracts see what they see of any core. Contracts alone have values of it.
pub struct Standing;

impl Model for Standing {
    ghost use Rattle.history_parts.specs.CoreView.{CoreView};

    ghost Value = { CoreView };

    ghost use Rattle.shared_tool.specs.Nowhere.{no_core};

    ghost view = { λ _. no_core };
}
