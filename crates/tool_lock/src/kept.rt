//! What a value has to tell to stand under a turnstile.

ghost use Rattle.std.specs.Prelude.{◌≡◌, ℕ, List, length};
ghost use Rattle.tool_lock.specs.Runs.{Run};

/// A value that keeps its own history, which is a run of a step relation from its opening state.
///
/// Contracts see `history`, the entries in order; `number`, that of the pass that appended an entry; `opening`, the state
/// that the value was opened in; and `follows`, which relates a state, an entry and the state behind it. The law `runs` gives
/// for each value the state that its history leads to.
pub trait Kept {
    /// One entry of the history.
    type Entry;

    /// A state that the history leads through. Contracts alone have values of it.
    type State;

    ghost history: { Self → List Self.Entry };

    ghost number: { Self.Entry → ℕ };

    ghost opening: { Self → Self.State };

    ghost follows: { Self.State → Self.Entry → Self.State → Type 0 };

    /// How many entries the history has.
    fn count(&self) -> u64
        ensures { result ≡ length (history self.now) };

    ghost runs: { (v : Self) → (end : Self.State) × Run follows (opening v) (history v) end };
}
