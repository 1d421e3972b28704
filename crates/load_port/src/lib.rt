//! The load ports of the tool (after SEMI E87, load port states; tables 4 to 7): what each port's states are, which carrier
//! belongs to it, and the carrier that came and isn't told of yet.
//!
//! It knows of no carrier but its name: what a carrier is, and the rows that depend on one, are for the crates above. Begin
//! with `Ports::new`, then `Ports::verdict`, which says what the host is answered, and `Ports::fire`.
#![tactic(auto)]

mod action;
mod caack;
pub mod laws;
mod port;
mod ports;
mod record;

pub use action::{PortAction, PortView};
pub use caack::Caack;
pub use port::{Arrival, Port};
pub use ports::{MOST_PORTS, Ports};
pub use record::{Access, Association, PortRecord, Reservation, Transfer};
