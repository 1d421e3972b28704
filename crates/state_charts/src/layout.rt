//! Where the states of a table stand, and which way its arrows go.

use picture_svg::Point;

/// A point of a layout, in pixels.
pub(crate) type Spot = (i32, i32);

/// A state: its number, its printed name, of two lines where a `|` stands in it, the middle of its box, and the box's width.
#[derive(Clone, Copy)]
pub(crate) struct Shape {
    pub(crate) state: u8,
    pub(crate) name: &'static str,
    pub(crate) at: Spot,
    pub(crate) width: i32,
}

/// Which way the arrows go that lead to one state: from each of these states, or from none where it is a creation; or to none where its
/// object ends. It is the way of each row that leads there from all of them. Its label is the numbers of these rows.
#[derive(Clone, Copy)]
pub(crate) struct Way {
    pub(crate) from: &'static [u8],
    pub(crate) to: Option<u8>,
    pub(crate) line: &'static [Spot],
    pub(crate) label: Spot,
}

/// States that are drawn together, from whose frame an arrow goes that starts in each of them.
#[derive(Clone, Copy)]
pub(crate) struct Frame {
    pub(crate) name: &'static str,
    pub(crate) corner: Spot,
    pub(crate) size: Spot,
}

/// The layout of a table: what it is the picture of, its size, and its states, ways and frames.
#[derive(Clone, Copy)]
pub(crate) struct Layout {
    pub(crate) title: &'static str,
    pub(crate) size: Spot,
    pub(crate) shapes: &'static [Shape],
    pub(crate) ways: &'static [Way],
    pub(crate) frames: &'static [Frame],
}

/// The half height of a state's box.
pub(crate) const HALF: f64 = 22.0;

/// What stands above the states: the title.
pub(crate) const HEAD: f64 = 28.0;

/// The point of a picture at which a point of a layout is.
pub(crate) fn point(at: Spot) -> Point {
    Point {
        x: f64::from(at.0),
        y: f64::from(at.1) + HEAD,
    }
}
