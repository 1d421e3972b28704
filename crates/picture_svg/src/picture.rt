//! A picture that is written shape by shape.

ghost use Rattle.std.specs.Prelude.{◌≡◌, true, [], ◌∷◌, ◌++◌, OnOk, IfOk};
ghost use Rattle.picture_svg.specs.Arrows.{arrows_in, is_name};
ghost use Rattle.picture_svg.specs.Written.{has_no_arrow, tag_of};

use crate::numbers::Px;
use crate::sheet::{MARKS, SHEET};
use std::alloc::{AllocError, Global};
use std::marker::Model;

/// A point, in pixels from the left and from the top.
#[derive(Clone, Copy)]
pub struct Point {
    pub x: f64,
    pub y: f64,
}

/// An area: its left upper corner, its width and its height, in pixels.
#[derive(Clone, Copy)]
pub struct Area {
    pub x: f64,
    pub y: f64,
    pub width: f64,
    pub height: f64,
}

/// Where words stand: they begin at their point, are in the middle of it, or end there.
#[derive(Clone, Copy)]
pub enum Align {
    Start,
    Middle,
    End,
}

impl Align {
    // The word of SVG for it.
    fn word(self) -> &'static str {
        match self {
            Align::Start => "start",
            Align::Middle => "middle",
            Align::End => "end",
        }
    }
}

// The radius of the corners of a way.
const CORNER: f64 = 9.0;

/// A picture that is being written, which contracts see as the names of the arrows that are in it, as they are read off its text.
#[derive(Drop)]
pub struct Picture {
    text: Vec<u8>,
    alloc: Global,
}

impl Model for Picture {
    ghost use Rattle.std.specs.Prelude.{ℕ, List};
    ghost use Rattle.picture_svg.specs.Arrows.{arrows_in};
    ghost use Rattle.picture_svg.specs.Written.{IsClosed};

    ghost Value = { List (List ℕ) };

    ghost view = { λ picture. arrows_in picture.text.items };

    ghost invariant = { λ picture. IsClosed picture.text.items };
}

impl Picture {
    /// An empty page of this width and height, in pixels, with a title for who doesn't see it. `AllocError`, here and in the other calls,
    /// where there is no memory.
    pub fn new(alloc: Global, width: f64, height: f64, title: &str) -> Result<Picture, AllocError>
        ensures { IfOk result (λ picture. picture ≡ []) }
    {
        let mut picture = Picture {
            text: Vec::new(alloc),
            alloc,
        };
        picture.put(b"<svg xmlns=\"http://www.w3.org/2000/svg\"")?;
        picture.put_length(b" width=\"", width)?;
        picture.put_length(b" height=\"", height)?;
        picture.put(b" viewBox=\"0 0 ")?;
        picture.put_number(width)?;
        picture.put(b" ")?;
        picture.put_number(height)?;
        picture.put(b"\" role=\"img\">\n")?;
        picture.put_element(b"<title>", title, b"</title>\n")?;
        picture.put_element(b"<style>\n", SHEET, b"</style>\n")?;
        picture.put(MARKS)?;
        let page = Area {
            x: 0.0,
            y: 0.0,
            width,
            height,
        };
        picture.rect("page", page, 0.0)?;
        Ok(picture)
    }

    /// A box with corners of this radius.
    pub fn rect(&mut self, class: &str, area: Area, radius: f64) -> Result<(), AllocError>
        ensures { self.new ≡ self.old }
    {
        self.put_element(b"<rect class=\"", class, b"\"")?;
        self.put_length(b" x=\"", area.x)?;
        self.put_length(b" y=\"", area.y)?;
        self.put_length(b" width=\"", area.width)?;
        self.put_length(b" height=\"", area.height)?;
        self.put_length(b" rx=\"", radius)?;
        self.put(b"/>\n")
    }

    /// A circle.
    pub fn circle(&mut self, class: &str, at: Point, radius: f64) -> Result<(), AllocError>
        ensures { self.new ≡ self.old }
    {
        self.put_element(b"<circle class=\"", class, b"\"")?;
        self.put_length(b" cx=\"", at.x)?;
        self.put_length(b" cy=\"", at.y)?;
        self.put_length(b" r=\"", radius)?;
        self.put(b"/>\n")
    }

    /// A straight line.
    pub fn line(&mut self, class: &str, from: Point, to: Point) -> Result<(), AllocError>
        ensures { self.new ≡ self.old }
    {
        self.put_element(b"<line class=\"", class, b"\"")?;
        self.put_length(b" x1=\"", from.x)?;
        self.put_length(b" y1=\"", from.y)?;
        self.put_length(b" x2=\"", to.x)?;
        self.put_length(b" y2=\"", to.y)?;
        self.put(b"/>\n")
    }

    /// Words at a point, which is on their base line.
    pub fn words(
        &mut self,
        class: &str,
        at: Point,
        align: Align,
        words: &str,
    ) -> Result<(), AllocError>
        ensures { self.new ≡ self.old }
    {
        self.put_element(b"<text class=\"", class, b"\"")?;
        self.put_length(b" x=\"", at.x)?;
        self.put_length(b" y=\"", at.y)?;
        self.put_element(b" text-anchor=\"", align.word(), b"\">")?;
        self.put_element(b"", words, b"</text>\n")
    }

    /// An arrow of this name along these points, with round corners, and a tip at the last of them. Where it turns its parts are level or
    /// upright. The name has no quote in it and no `<`.
    pub fn arrow(&mut self, name: &[u8], class: &str, way: &[Point]) -> Result<(), AllocError>
        requires { is_name name.now ≡ true }
        ensures { OnOk result (self.new ≡ self.old ++ name.now ∷ []) }
    {
        self.begin_arrow(name)?;
        self.put_element(b" class=\"", class, b"\" marker-end=\"url(#tip)\" d=\"")?;
        self.put_way(way)?;
        self.put(b"\"/>\n")
    }

    /// The text of the picture.
    pub fn finish(mut self) -> Result<Vec<u8>, AllocError>
        ensures { IfOk result (λ text. arrows_in text.items ≡ self) }
    {
        self.put(b"</svg>\n")?;
        let Picture { text, alloc: _ } = self;
        Ok(text)
    }

    // ---- pieces

    // Adds a piece in which no arrow begins.
    fn put(&mut self, piece: &[u8]) -> Result<(), AllocError>
        requires { has_no_arrow piece.now ≡ true }
        ensures { self.new ≡ self.old }
    {
        self.text.extend_from_slice(piece)
    }

    // Adds words, with the signs that have a meaning in SVG written out.
    fn put_words(&mut self, words: &str) -> Result<(), AllocError>
        ensures { self.new ≡ self.old }
    {
        for byte in words.as_bytes() {
            self.put_byte(*byte)?;
        }
        Ok(())
    }

    // Adds a byte of words.
    fn put_byte(&mut self, byte: u8) -> Result<(), AllocError>
        ensures { self.new ≡ self.old }
    {
        if byte == b'<' {
            self.put(b"&lt;")
        } else if byte == b'>' {
            self.put(b"&gt;")
        } else if byte == b'&' {
            self.put(b"&amp;")
        } else if byte == b'"' {
            self.put(b"&quot;")
        } else {
            self.put(&[byte])
        }
    }

    // Adds words between two pieces.
    fn put_element(&mut self, before: &[u8], words: &str, behind: &[u8]) -> Result<(), AllocError>
        requires before { has_no_arrow before.now ≡ true }
        requires behind { has_no_arrow behind.now ≡ true }
        ensures { self.new ≡ self.old }
    {
        self.put(before)?;
        self.put_words(words)?;
        self.put(behind)
    }

    // Adds a length in pixels.
    fn put_number(&mut self, length: f64) -> Result<(), AllocError>
        ensures { self.new ≡ self.old }
    {
        let length = Px(length);
        let words = format!(in self.alloc; "{length}")?;
        self.put_words(words.as_str())
    }

    // Adds a length behind the beginning of its attribute.
    fn put_length(&mut self, before: &[u8], length: f64) -> Result<(), AllocError>
        requires { has_no_arrow before.now ≡ true }
        ensures { self.new ≡ self.old }
    {
        self.put(before)?;
        self.put_number(length)?;
        self.put(b"\"")
    }

    // ---- arrows

    // The beginning of the tag of an arrow.
    fn begin_arrow(&mut self, name: &[u8]) -> Result<(), AllocError>
        requires { is_name name.now ≡ true }
        ensures { OnOk result (self.new ≡ self.old ++ name.now ∷ []) }
    {
        let tag = tag_of(self.alloc, name)?;
        self.text.extend_from_slice(tag.as_slice())
    }

    // The path along these points.
    fn put_way(&mut self, way: &[Point]) -> Result<(), AllocError>
        ensures { self.new ≡ self.old }
    {
        if let Some(first) = way.first() {
            self.put_step(b"M", *first)?;
        }
        for three in way.windows(3) {
            if let [before, corner, behind] = three {
                self.put_corner(*before, *corner, *behind)?;
            }
        }
        match way.last() {
            Some(last) => self.put_step(b" L", *last),
            None => Ok(()),
        }
    }

    // A step of a path.
    fn put_step(&mut self, step: &[u8], to: Point) -> Result<(), AllocError>
        requires { has_no_arrow step.now ≡ true }
        ensures { self.new ≡ self.old }
    {
        self.put(step)?;
        self.put_number(to.x)?;
        self.put(b" ")?;
        self.put_number(to.y)
    }

    // A corner of a path, cut round.
    fn put_corner(&mut self, before: Point, corner: Point, behind: Point) -> Result<(), AllocError>
        ensures { self.new ≡ self.old }
    {
        self.put_step(b" L", toward(corner, before))?;
        self.put_step(b" Q", corner)?;
        self.put_step(b" ", toward(corner, behind))
    }
}

// The beginning of the tag of an arrow.
fn tag_of(alloc: Global, name: &[u8]) -> Result<Vec<u8>, AllocError>
    ensures { IfOk result (λ tag. tag.items ≡ tag_of name.now) }
{
    let mut tag = Vec::from_slice(alloc, b"<path data-arrow=\"")?;
    tag.extend_from_slice(name)?;
    tag.extend_from_slice(b"\"")?;
    Ok(tag)
}

// The point that is a corner's radius away from it, level or upright toward another, but at most half the way.
fn toward(corner: Point, other: Point) -> Point {
    Point {
        x: corner.x + step(other.x - corner.x),
        y: corner.y + step(other.y - corner.y),
    }
}

// A step of a corner's radius along a way of this length, with its sign, but at most half of it.
fn step(length: f64) -> f64 {
    let half = length / 2.0;
    if half > CORNER {
        CORNER
    } else if half < -CORNER {
        -CORNER
    } else {
        half
    }
}
