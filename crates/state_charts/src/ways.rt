//! Which arrows go which way.

use crate::layout::Way;
use state_arrows::Arrow;

/// The greatest number of a row of a table, and more.
const ROWS: u8 = 32;

// Whether one of the arrows is this.
fn has(arrows: &[Arrow], row: u8, from: Option<u8>, to: Option<u8>) -> bool {
    for arrow in arrows {
        if arrow.row == row && arrow.from == from && arrow.to == to {
            return true;
        }
    }
    false
}

// Whether the row leads from each state of a way to its end.
fn goes(arrows: &[Arrow], way: &Way, row: u8) -> bool {
    if way.from.is_empty() {
        return has(arrows, row, None, way.to);
    }
    for state in way.from {
        if !has(arrows, row, Some(*state), way.to) {
            return false;
        }
    }
    true
}

/// The first row that goes a way, from this number on.
pub(crate) fn next_row(arrows: &[Arrow], way: &Way, from: u8) -> Option<u8> {
    (from..ROWS).find(|row| goes(arrows, way, *row))
}

// Whether an arrow starts in a state of a way, or in none as the way does.
fn starts(way: &Way, arrow: &Arrow) -> bool {
    match arrow.from {
        None => way.from.is_empty(),
        Some(state) => way.from.contains(&state),
    }
}

// Whether an arrow goes a way.
fn is_of(arrows: &[Arrow], way: &Way, arrow: &Arrow) -> bool {
    way.to == arrow.to && starts(way, arrow) && goes(arrows, way, arrow.row)
}

/// The way of an arrow among these, where one is laid out for it.
pub(crate) fn way_of(
    arrows: &[Arrow],
    ways: &'static [Way],
    arrow: &Arrow,
) -> Option<&'static Way> {
    for way in ways {
        if is_of(arrows, way, arrow) {
            return Some(way);
        }
    }
    None
}

/// Whether an arrow is the first of those that go a way.
pub(crate) fn is_first(arrows: &[Arrow], way: &Way, arrow: &Arrow) -> bool {
    for other in arrows {
        if is_of(arrows, way, other) {
            return other == arrow;
        }
    }
    false
}
