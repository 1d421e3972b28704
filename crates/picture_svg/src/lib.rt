//! Pictures as SVG text: boxes, lines and words, in the colours of one sheet that suit a light and a dark page, and that the colour-blind
//! can tell. There is no script in them, and nothing that is loaded from elsewhere.
//!
//! It knows nothing of what is drawn. Begin with `Picture::new`, then `Picture::rect`, `Picture::words` and `Picture::path`, and
//! `Picture::finish`, which hands out the text. A shape is told its class, which the sheet gives a colour.
#![tactic(auto)]

mod numbers;
mod picture;
mod sheet;

pub use numbers::Px;
pub use picture::{Align, Area, Picture, Point};
