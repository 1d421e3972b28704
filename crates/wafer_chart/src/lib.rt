//! What happened to each wafer in a run, as a picture: a row for each substrate, and below one for each module; the carriers at the ports and
//! the process jobs above, and alarms as marks (docs/profile/charts.md).
//!
//! It knows no tool: entry by entry it is told what the tool has. Begin with `Teller::new` and `Teller::tell`, which makes a `Story` of it, and
//! draw that by `draw_story`.
#![tactic(auto)]

mod axis;
mod draw;
mod lane;
mod shot;
mod story;
mod teller;

pub use draw::draw_story;
pub use lane::{Kind, Lane, Span};
pub use shot::{Happening, JobShot, Shot};
pub use story::{Axis, Mark, Story};
pub use teller::Teller;
