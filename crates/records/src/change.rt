//! What is done to a record.

ghost use Rattle.std.specs.Prelude.{◌≡◌};

/// What is done to a record where it is kept, as a row that fires at it.
pub trait Change<R> {
    ghost does: { Self → R → R };

    /// Does it.
    fn apply(&self, one: &mut R)
        ensures { one.new ≡ does self.now one.old };
}
