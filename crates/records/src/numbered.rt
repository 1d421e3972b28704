//! Records by their numbers of creation.

ghost use Rattle.std.specs.Prelude.{◌≡◌, ℕ, position};
ghost use Rattle.records.specs.Numbers.{has_number, IsRising};

/// A record that has a number of creation of its own.
pub trait Numbered: Drop {
    ghost number: { Self → ℕ };

    /// The number.
    fn number(&self) -> u64
        ensures { result ≡ number self.now };
}

/// The place of the record of a number, counted from 0, of records whose numbers rise. `None` exactly where none of them has it. It
/// does not go through all of them.
pub fn place_numbered<R: Numbered>(records: &[R], number: u64) -> Option<usize>
    requires rising { IsRising R.number records.now }
    ensures { result ≡ position (has_number R.number number) records.now }
{
    let place = records.partition_point(|record| record.number() < number);
    match records.get(place) {
        Some(record) => {
            if record.number() == number {
                Some(place)
            } else {
                None
            }
        }
        None => None,
    }
}
