/// A moment, in hundredths of a second since 2000-01-01 00:00:00, at most `Moment::LAST`.
#[derive(Clone, Copy, PartialEq, Eq, PartialOrd, Ord)]
pub struct Moment(pub u64);

impl Moment {
    /// The last hundredth of the year 9999.
    pub const LAST: Moment = Moment(25_245_561_599_999);
}
