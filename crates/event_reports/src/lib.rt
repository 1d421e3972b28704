//! Reports, links, enabled events and alarms: what the host set up to be told of (SEMI E30, event data collection and
//! alarm management; SEMI E5, streams 2, 5 and 6), in this tool's profile.
//!
//! `Reports` keeps which reports are defined, to which reports each collection event is linked and which events are
//! enabled, and gives the items of a report. `Alarms` keeps which alarms are set and enabled. Neither knows the value of
//! a variable, which `Values` gives, nor sends a message. Begin with `Reports::new` and `Alarms::new`.
#![tactic(auto)]

mod alarms;
mod laws;
mod lines;
mod reports;
mod values;

pub use alarms::{AlarmLine, Alarms};
pub use item_model::NoMemory;
pub use laws::{reports_stay_sound, the_alarms_stay_the_same, the_plant_stays_the_same};
pub use lines::{EventLine, Report};
pub use reports::{Reports, values_of};
pub use values::Values;
