//! Transcripts: the lines that `gem300_tool feed` was given, with those that it printed behind them (this tool's profile,
//! docs/profile/view.md), in words and as a capture file. A printed line may stand as a comment, as in the shipped examples.
//!
//! It runs no tool. Begin with `write_words` and `write_capture`.
#![tactic(auto)]

mod captured;
mod cursor;
mod line;
mod lines;
mod modules;
mod printed;
mod said;
mod slots;
mod told;
mod view;

pub use lines::TranscriptFault;
pub use view::{View, write_capture, write_words};
