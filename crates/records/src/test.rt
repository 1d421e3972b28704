//! What is asked of a record.

ghost use Rattle.std.specs.Prelude.{◌≡◌, Bool};

/// What is asked of a record where it is kept, as whether it goes with another object.
pub trait Test<R> {
    ghost passes: { Self → R → Bool };

    /// Whether a record passes.
    fn passes(&self, one: &R) -> bool
        ensures { result ≡ passes self.now one.now };
}
