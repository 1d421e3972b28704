//! The carriers of the tool (after SEMI E87, carrier states; tables 8 to 10): those that are at a port, bound to one, or
//! only notified, in the order in which they were created; and what the host is answered that asks for something of one.
//!
//! It fires the rows that it is told, and knows of the ports no more than their views. Begin with `Carriers::new`, then
//! `Carriers::verdict` and `Carriers::create`.
#![tactic(auto)]

mod action;
mod carrier;
mod carriers;
mod change;
mod fault;
mod laws;
mod record;

pub use action::{CarrierAction, CarrierWord};
pub use carrier::{Carrier, CarrierView};
pub use carriers::{Carriers, MOST_ABSENT, MOST_CARRIERS};
pub use fault::CarrierFault;
pub use laws::the_place_of_a_name_is_that_of_its_carrier;
pub use load_port::PortView;
pub use record::{Accessing, CarrierRecord, IdState, MapState};
