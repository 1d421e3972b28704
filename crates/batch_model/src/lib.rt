//! The definitions of the batch: the entries that it makes, and its summary (this tool's profile, batch). It has no code of the
//! tool, and its functions are statements that hold of the definitions.
//!
//! A batch is a host with its modules. What an input gives stands in `gem_model`, the lines of a carrier in `sim_modules`, and the
//! counts in `history_parts`. Begin with `specs/Batch.antt`.
#![tactic(auto)]

mod fetched;
mod primary;
pub mod worked;

pub use fetched::Fetched;
pub use primary::Primary;
