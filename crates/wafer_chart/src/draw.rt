//! The drawing of a story.

use crate::axis::{LEFT, MOST_TICKS, WIDTH, across, axis_words, tick_number, tick_step};
use crate::lane::{Kind, Lane, Span};
use crate::story::{Mark, Story};
use gem_ids::Text80;
use picture_svg::{Align, Area, Picture, Point};
use std::alloc::{AllocError, Global};

// The width of the picture, the height of its head, and of what stands below its rows.
const PAGE: f64 = 800.0;

const HEAD: f64 = 66.0;

const FOOT: f64 = 40.0;

// How far apart rows are and how high they are, of carriers and jobs, of substrates, and of modules.
const BAR: Pitch = Pitch {
    apart: 20.0,
    high: 16.0,
};

const THIN: Pitch = Pitch {
    apart: 15.0,
    high: 11.0,
};

const MODULE: Pitch = Pitch {
    apart: 17.0,
    high: 12.0,
};

// The gap between two groups of rows.
const GAP: f64 = 8.0;

// About how wide a letter of small words is.
const LETTER: f64 = 6.2;

// How far apart rows are, and how high they are.
#[derive(Clone, Copy)]
struct Pitch {
    apart: f64,
    high: f64,
}

// What the legend explains, in its order.
const LEGEND: [(Kind, &str); 9] = [
    (Kind::Slot, "in its slot"),
    (Kind::Arm, "on the arm"),
    (Kind::Aligner, "at the aligner"),
    (Kind::Chamber, "in a chamber"),
    (Kind::AtWork, "in work"),
    (Kind::Finished, "back, done"),
    (Kind::Unfinished, "back, not done"),
    (Kind::Lost, "lost"),
    (Kind::Down, "module down"),
];

// About how wide words are.
fn wide(words: &str) -> f64 {
    let mut width = 0.0;
    for _ in words.chars() {
        width += LETTER;
    }
    width
}

// A text as words.
fn words_of(alloc: Global, text: Text80) -> Result<String, AllocError> {
    String::from_utf8_lossy(alloc, text.as_bytes())
}

// How high so many rows are.
fn height_of(lanes: &[Lane], pitch: Pitch) -> f64 {
    let mut height = 0.0;
    for _ in lanes {
        height += pitch.apart;
    }
    height
}

// How high all rows are.
fn rows_height(story: &Story) -> f64 {
    let marks = if story.marks.is_empty() {
        0.0
    } else {
        BAR.apart
    };
    height_of(&story.carriers, BAR)
        + height_of(&story.jobs, BAR)
        + marks
        + GAP
        + height_of(&story.substrates, THIN)
        + GAP
        + height_of(&story.modules, MODULE)
}

fn draw_legend(picture: &mut Picture) -> Result<(), AllocError> {
    let mut x = 12.0;
    for (kind, words) in LEGEND {
        let area = Area {
            x,
            y: 38.0,
            width: 11.0,
            height: 11.0,
        };
        picture.rect(kind.class(), area, 2.0)?;
        picture.words(
            "small",
            Point {
                x: x + 15.0,
                y: 47.5,
            },
            Align::Start,
            words,
        )?;
        x += 26.0 + wide(words) * 0.9;
    }
    Ok(())
}

// The ticks, with a line through all rows, which end at this height.
fn draw_ticks(
    alloc: Global,
    picture: &mut Picture,
    story: &Story,
    bottom: f64,
) -> Result<(), AllocError> {
    let step = tick_step(story);
    for count in 0..MOST_TICKS + 1 {
        let at = count.saturating_mul(step);
        if at <= story.end {
            let x = across(story, at);
            picture.line(
                "grid",
                Point { x, y: HEAD - 4.0 },
                Point { x, y: bottom + 4.0 },
            )?;
            let number = tick_number(story, at);
            let words = format!(in alloc; "{number}")?;
            picture.words(
                "small faint",
                Point {
                    x,
                    y: bottom + 17.0,
                },
                Align::Middle,
                words.as_str(),
            )?;
        }
    }
    let middle = Point {
        x: LEFT + WIDTH / 2.0,
        y: bottom + 32.0,
    };
    picture.words("small faint", middle, Align::Middle, axis_words(story))
}

// The words of a span, where they fit into it.
fn draw_span_words(
    alloc: Global,
    picture: &mut Picture,
    span: &Span,
    area: Area,
) -> Result<(), AllocError> {
    if span.words.is_empty() {
        return Ok(());
    }
    let words = words_of(alloc, span.words)?;
    if wide(words.as_str()) + 6.0 < area.width {
        let at = Point {
            x: area.x + 5.0,
            y: area.y + area.height - 4.2,
        };
        picture.words("small", at, Align::Start, words.as_str())?;
    }
    Ok(())
}

fn draw_span(
    alloc: Global,
    picture: &mut Picture,
    story: &Story,
    span: &Span,
    top: f64,
    high: f64,
) -> Result<(), AllocError> {
    let x = across(story, span.begin);
    let area = Area {
        x,
        y: top,
        width: across(story, span.end) - x,
        height: high,
    };
    if span.begin < span.end {
        picture.rect(span.kind.class(), area, 1.5)?;
        draw_span_words(alloc, picture, span, area)?;
    }
    Ok(())
}

fn draw_lane(
    alloc: Global,
    picture: &mut Picture,
    story: &Story,
    lane: &Lane,
    top: f64,
    pitch: Pitch,
) -> Result<(), AllocError> {
    let name = words_of(alloc, lane.name())?;
    let at = Point {
        x: LEFT - 6.0,
        y: top + pitch.high / 2.0 + 4.0,
    };
    picture.words("small", at, Align::End, name.as_str())?;
    for span in lane.spans() {
        draw_span(alloc, picture, story, span, top, pitch.high)?;
    }
    Ok(())
}

// Draws rows from this height on, and tells where the next may stand.
fn draw_lanes(
    alloc: Global,
    picture: &mut Picture,
    story: &Story,
    lanes: &[Lane],
    top: f64,
    pitch: Pitch,
) -> Result<f64, AllocError> {
    let mut y = top;
    for lane in lanes {
        draw_lane(alloc, picture, story, lane, y, pitch)?;
        y += pitch.apart;
    }
    Ok(y)
}

// Whether the mark behind this one stands where words behind this one would.
fn is_near(story: &Story, place: usize, mark: &Mark, words: &str) -> bool {
    match story.marks.get(place.saturating_add(1)) {
        Some(next) => across(story, next.at) < across(story, mark.at) + 14.0 + wide(words),
        None => false,
    }
}

// Adds the number of an alarm to those that wait for their place.
fn add_number(words: &mut String, alarm: u32) -> Result<(), AllocError> {
    if !words.is_empty() {
        words.push_str(", ")?;
    }
    write!(words, "{alarm}")
}

// The numbers of alarms, behind the last of their marks.
fn draw_numbers(picture: &mut Picture, at: Point, words: &str) -> Result<(), AllocError> {
    let beside = Point {
        x: at.x + 7.0,
        y: at.y + 4.0,
    };
    picture.words("small", beside, Align::Start, words)
}

// The alarms that were set: a dot for each. Numbers for which there is no room stand behind the next dot that has some.
fn draw_alarms(
    alloc: Global,
    picture: &mut Picture,
    story: &Story,
    top: f64,
) -> Result<(), AllocError> {
    let mut words = String::new(alloc);
    for (place, mark) in story.marks.iter().enumerate() {
        let at = Point {
            x: across(story, mark.at),
            y: top + 8.0,
        };
        picture.circle("alarm", at, 4.5)?;
        add_number(&mut words, mark.alarm)?;
        if !is_near(story, place, mark, words.as_str()) {
            draw_numbers(picture, at, words.as_str())?;
            words.clear();
        }
    }
    Ok(())
}

// The row of alarms, where one was set. Tells where the next row may stand.
fn draw_marks(
    alloc: Global,
    picture: &mut Picture,
    story: &Story,
    top: f64,
) -> Result<f64, AllocError> {
    if story.marks.is_empty() {
        return Ok(top);
    }
    let at = Point {
        x: LEFT - 6.0,
        y: top + 12.0,
    };
    picture.words("small", at, Align::End, "alarms set")?;
    draw_alarms(alloc, picture, story, top)?;
    Ok(top + BAR.apart)
}

// The title: how many substrates and entries there are.
fn title_of(alloc: Global, story: &Story) -> Result<String, AllocError> {
    let count = story.substrates.len();
    let entries = story.entries;
    let wafers = if count == 1 { "wafer" } else { "wafers" };
    format!(in alloc; "A run with {count} {wafers}, {entries} entries")
}

/// The picture of a story as SVG text. `AllocError` where there is no memory.
pub fn draw_story(alloc: Global, story: &Story) -> Result<Vec<u8>, AllocError> {
    let bottom = HEAD + rows_height(story);
    let title = title_of(alloc, story)?;
    let mut picture = Picture::new(alloc, PAGE, bottom + FOOT, title.as_str())?;
    picture.words(
        "title",
        Point { x: 12.0, y: 24.0 },
        Align::Start,
        title.as_str(),
    )?;
    draw_legend(&mut picture)?;
    draw_ticks(alloc, &mut picture, story, bottom)?;
    let y = draw_lanes(alloc, &mut picture, story, &story.carriers, HEAD, BAR)?;
    let y = draw_lanes(alloc, &mut picture, story, &story.jobs, y, BAR)?;
    let y = draw_marks(alloc, &mut picture, story, y)?;
    let y = draw_lanes(alloc, &mut picture, story, &story.substrates, y + GAP, THIN)?;
    draw_lanes(alloc, &mut picture, story, &story.modules, y + GAP, MODULE)?;
    picture.finish()
}
