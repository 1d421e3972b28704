//! The shop floor (after SEMI E87; tables 4 to 10): the load ports and the carriers together, the rows that are ready by
//! themselves, what each does, and what the host and the equipment do to them.
//!
//! It makes no notes and sends nothing: its caller fires the rows that it tells, and tells of them. Begin with
//! `ShopFloor::new`, then `ShopFloor::least` and `ShopFloor::fire`.
#![tactic(auto)]

mod asking;
mod floor;
pub mod laws;
mod naming;
mod readiness;
mod requests;
mod rows;

pub use floor::ShopFloor;
pub use rows::MOST_CREATED;
