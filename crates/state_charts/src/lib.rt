//! The state models of the tool as pictures (after SEMI E30, E40, E87, E90 and E94, whose state models are drawn so): states as round boxes
//! with their printed names, and rows as arrows by their numbers (docs/profile/charts.md).
//!
//! Which arrows are drawn says `state_arrows` of a table, whose contract ties them to the table as it is printed, and `table_three` of the
//! spool and of the notes, which `laws` ties to table 3; and the contract of `draw_chart` says that each is drawn once and no other is. By
//! hand is only where a state stands and which way an arrow goes (`layouts`). An arrow for which no way is laid out is drawn straight, in
//! another colour.
//!
//! Begin with `chart_named` and `draw_chart`.
#![tactic(auto)]

mod arrow_names;
mod chart;
mod draw;
pub mod laws;
mod layout;
mod layouts;
mod table_three;
mod ways;

pub use chart::{Chart, chart_named, draw_chart, names};
