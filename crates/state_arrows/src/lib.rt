//! The arrows of the transition tables (this tool's profile, transition tables): for each table a list of who starts where and leads
//! where, made by asking the code about each row in each state. What is drawn of a table is drawn of this list.
//!
//! It draws nothing and fires no row of a tool: the states that it asks are its own. Begin with `arrows`, whose contract says that the
//! list is that of the table as it is printed, no arrow more and none less.
#![tactic(auto)]

mod arrow;
mod asked;
mod carriers;
mod gathered;
mod jobs;
mod link;
mod ports;
mod substrates;
mod tables;

pub use arrow::Arrow;
pub use tables::{StateTable, arrows};
