//! The substrates of the tool and their places (after SEMI E90, substrate tracking; tables 11 to 13): what the states of a
//! location and of a substrate are, which substrate has which place, and the numbers of their registration.
//!
//! It fires the rows that it is told, and knows of no carrier, module or job: what a row wants of these is for the crates
//! above. Begin with `Places::new`, then `Places::register`, which gives a substrate its number and its first place, and
//! `Places::shift`.
#![tactic(auto)]

mod board;
mod fault;
mod laws;
mod location;
mod names;
mod places;
mod record;
mod registered;

pub use fault::PlaceFault;
pub use laws::{each_number_was_given, each_substrate_has_one_place};
pub use location::{is_same, is_work_place};
pub use places::{MOST_SUBSTRATES, Places};
pub use record::{LocationRecord, Occupancy, Processing, SubstrateRecord, Transport};
pub use registered::Registered;
