//! Lengths as they are printed.

use std::fmt;
use std::num::saturating_f64_to_i64;

/// A length in pixels, which is printed in tenths, rounded.
#[derive(Clone, Copy)]
pub struct Px(pub f64);

impl fmt::Display for Px {
    fn fmt<W: fmt::Write>(&self, f: &mut fmt::Formatter<W>) -> fmt::Result {
        let moved = if self.0 < 0.0 {
            self.0 * 10.0 - 0.5
        } else {
            self.0 * 10.0 + 0.5
        };
        let tenths = saturating_f64_to_i64(moved);
        let sign = if tenths < 0 { "-" } else { "" };
        let all = tenths.unsigned_abs();
        let whole = all / 10;
        let rest = all % 10;
        if rest == 0 {
            write!(f, "{sign}{whole}")
        } else {
            write!(f, "{sign}{whole}.{rest}")
        }
    }
}
