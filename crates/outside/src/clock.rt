ghost use Rattle.std.specs.Prelude.{◌≡◌, List, Option};
ghost use Rattle.gem_ids.specs.declared.moment.Moment.{Moment};
ghost use Rattle.outside.specs.Told.{Grew};

use gem_ids::Moment;

/// What tells the moment. Of the moments nothing is promised: neither that they rise nor that they are the time.
pub trait Clock {
    /// The moments that it gave, the first of them first, where it tells them.
    ghost given: { Self → Option (List Moment) };

    /// The moment, in hundredths of a second since 2000-01-01 00:00:00.
    fn now(&mut self) -> Moment
        ensures given { Grew (given self.old) (given self.new) result };

    /// Waits for so many hundredths of a second. How long it is in truth, nothing says.
    fn wait(&mut self, hundredths: u32)
        ensures given { given self.new ≡ given self.old };
}
