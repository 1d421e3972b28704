//! The drawing of a layout with its arrows.

ghost use Rattle.std.specs.Prelude.{◌≡◌, true, [], ◌∷◌, ◌++◌, map, OnOk, IfOk};
ghost use Rattle.picture_svg.specs.Arrows.{arrows_in, is_name};
ghost use Rattle.state_charts.specs.Names.{arrow_name};

use crate::arrow_names::name_of;
use crate::layout::{Frame, HALF, HEAD, Layout, Shape, Way, point};
use crate::ways::{is_first, next_row, way_of};
use picture_svg::{Align, Area, Picture, Point};
use state_arrows::Arrow;
use std::alloc::{AllocError, Global};

// The radius of the dots from which a creation comes and to which an end leads.
const DOT: f64 = 5.0;

// The height of a label, and the width of a letter in it.
const LABEL: f64 = 17.0;

const LETTER: f64 = 6.4;

fn draw_frame(picture: &mut Picture, frame: &Frame) -> Result<(), AllocError>
    ensures { picture.new ≡ picture.old }
{
    let corner = point(frame.corner);
    let area = Area {
        x: corner.x,
        y: corner.y,
        width: f64::from(frame.size.0),
        height: f64::from(frame.size.1),
    };
    picture.rect("group", area, 12.0)
}

// A line of a state's name, this far below the middle of its box.
fn draw_name(
    picture: &mut Picture,
    middle: Point,
    below: f64,
    class: &str,
    name: &str,
) -> Result<(), AllocError>
    ensures { picture.new ≡ picture.old }
{
    let at = Point {
        x: middle.x,
        y: middle.y + below,
    };
    picture.words(class, at, Align::Middle, name)
}

fn draw_shape(picture: &mut Picture, shape: &Shape) -> Result<(), AllocError>
    ensures { picture.new ≡ picture.old }
{
    let middle = point(shape.at);
    let width = f64::from(shape.width);
    let area = Area {
        x: middle.x - width / 2.0,
        y: middle.y - HALF,
        width,
        height: HALF * 2.0,
    };
    picture.rect("state", area, 14.0)?;
    match shape.name.split_once('|') {
        None => draw_name(picture, middle, 4.5, "name", shape.name),
        Some((name, behind)) => {
            draw_name(picture, middle, -3.0, "name", name)?;
            draw_name(picture, middle, 13.0, "", behind)
        }
    }
}

// The numbers of the rows that go a way, with commas between them; none where no row does, or one without a number.
fn label_of(alloc: Global, arrows: &[Arrow], way: &Way) -> Result<String, AllocError> {
    let mut label = String::new(alloc);
    for row in 1..32u8 {
        if next_row(arrows, way, row) == Some(row) {
            if !label.is_empty() {
                label.push_str(", ")?;
            }
            write!(label, "{row}")?;
        }
    }
    Ok(label)
}

fn draw_label(picture: &mut Picture, middle: Point, label: &str) -> Result<(), AllocError>
    ensures { picture.new ≡ picture.old }
{
    let width = wide(label);
    let area = Area {
        x: middle.x - width / 2.0,
        y: middle.y - LABEL / 2.0,
        width,
        height: LABEL,
    };
    picture.rect("pill", area, LABEL / 2.0)?;
    draw_name(picture, middle, 4.2, "", label)
}

// How wide a label is.
fn wide(label: &str) -> f64 {
    let mut width = 10.0;
    for _ in label.chars() {
        width += LETTER;
    }
    width
}

// The points of a way.
fn points(alloc: Global, way: &Way) -> Result<Vec<Point>, AllocError> {
    let mut points = Vec::new(alloc);
    for spot in way.line {
        points.push(point(*spot))?;
    }
    Ok(points)
}

// The dot from which a creation comes, or the ringed one to which an end leads.
fn draw_ends(picture: &mut Picture, way: &Way) -> Result<(), AllocError>
    ensures { picture.new ≡ picture.old }
{
    if way.from.is_empty()
        && let Some(first) = way.line.first()
    {
        picture.circle("dot", point(*first), DOT)?;
    }
    if way.to.is_none()
        && let Some(last) = way.line.last()
    {
        let mut at = point(*last);
        at.y += DOT + 3.0;
        picture.circle("ring", at, DOT + 2.0)?;
        picture.circle("dot", at, DOT - 1.5)?;
    }
    Ok(())
}

// The ends and the label of a way, where an arrow goes it.
fn draw_way(
    alloc: Global,
    picture: &mut Picture,
    arrows: &[Arrow],
    way: &Way,
) -> Result<(), AllocError>
    ensures { picture.new ≡ picture.old }
{
    if next_row(arrows, way, 0).is_none() {
        return Ok(());
    }
    let label = label_of(alloc, arrows, way)?;
    draw_ends(picture, way)?;
    if label.is_empty() {
        return Ok(());
    }
    draw_label(picture, point(way.label), label.as_str())
}

// The middle of a state's box; where there is none, the corner of the picture.
fn middle_of(layout: &Layout, state: Option<u8>) -> Point {
    for shape in layout.shapes {
        if Some(shape.state) == state {
            return point(shape.at);
        }
    }
    Point { x: 10.0, y: HEAD }
}

// The class of an arrow that goes a way. Of those that go the same way the line of the first is seen.
fn class_of(arrows: &[Arrow], way: &Way, arrow: &Arrow) -> &'static str {
    if is_first(arrows, way, arrow) {
        "way"
    } else {
        "same"
    }
}

// An arrow for which no way is laid out: straight, and in another colour, so that it is seen that one is wanting.
fn draw_astray(
    picture: &mut Picture,
    layout: &Layout,
    arrow: &Arrow,
    name: &[u8],
) -> Result<(), AllocError>
    requires { is_name name.now ≡ true }
    ensures { OnOk result (picture.new ≡ picture.old ++ name.now ∷ []) }
{
    let from = middle_of(layout, arrow.from);
    let to = middle_of(layout, arrow.to);
    picture.arrow(name, "astray", &[from, to])
}

// Its label.
fn label_astray(
    alloc: Global,
    picture: &mut Picture,
    layout: &Layout,
    arrow: &Arrow,
) -> Result<(), AllocError>
    ensures { picture.new ≡ picture.old }
{
    let from = middle_of(layout, arrow.from);
    let to = middle_of(layout, arrow.to);
    let row = arrow.row;
    let middle = Point {
        x: (from.x + to.x) / 2.0,
        y: (from.y + to.y) / 2.0,
    };
    draw_label(picture, middle, format!(in alloc; "{row}")?.as_str())
}

// An arrow, along its way where one is laid out for it.
fn draw_arrow(
    alloc: Global,
    picture: &mut Picture,
    layout: &Layout,
    arrows: &[Arrow],
    arrow: &Arrow,
) -> Result<(), AllocError>
    ensures { OnOk result (picture.new ≡ picture.old ++ arrow_name arrow.now ∷ []) }
{
    let name = name_of(alloc, arrow)?;
    match way_of(arrows, layout.ways, arrow) {
        Some(way) => {
            let line = points(alloc, way)?;
            picture.arrow(
                name.as_slice(),
                class_of(arrows, way, arrow),
                line.as_slice(),
            )
        }
        None => draw_astray(picture, layout, arrow, name.as_slice()),
    }
}

// The frames and the states.
fn draw_states(picture: &mut Picture, layout: &Layout) -> Result<(), AllocError>
    ensures { picture.new ≡ picture.old }
{
    for frame in layout.frames {
        draw_frame(picture, frame)?;
    }
    for shape in layout.shapes {
        draw_shape(picture, shape)?;
    }
    Ok(())
}

// The arrows.
fn draw_arrows(
    alloc: Global,
    picture: &mut Picture,
    layout: &Layout,
    arrows: &[Arrow],
) -> Result<(), AllocError>
    ensures { OnOk result (picture.new ≡ picture.old ++ map arrow_name arrows.now) }
{
    for arrow in arrows {
        draw_arrow(alloc, picture, layout, arrows, arrow)?;
    }
    Ok(())
}

// The labels of the arrows, and the dots at their ends.
fn draw_labels(
    alloc: Global,
    picture: &mut Picture,
    layout: &Layout,
    arrows: &[Arrow],
) -> Result<(), AllocError>
    ensures { picture.new ≡ picture.old }
{
    for way in layout.ways {
        draw_way(alloc, picture, arrows, way)?;
    }
    for arrow in arrows {
        if way_of(arrows, layout.ways, arrow).is_none() {
            label_astray(alloc, picture, layout, arrow)?;
        }
    }
    Ok(())
}

/// The picture of a layout with these arrows, as SVG text: its arrows are these, in their order.
pub(crate) fn draw(alloc: Global, layout: &Layout, arrows: &[Arrow]) -> Result<Vec<u8>, AllocError>
    ensures { IfOk result (λ text. arrows_in text.items ≡ map arrow_name arrows.now) }
{
    let width = f64::from(layout.size.0);
    let height = f64::from(layout.size.1) + HEAD;
    let mut picture = Picture::new(alloc, width, height, layout.title)?;
    let corner = Point { x: 10.0, y: 18.0 };
    picture.words("faint", corner, Align::Start, layout.title)?;
    draw_states(&mut picture, layout)?;
    draw_arrows(alloc, &mut picture, layout, arrows)?;
    draw_labels(alloc, &mut picture, layout, arrows)?;
    picture.finish()
}
