//! The batch: a host with its modules, which feeds the core by itself (this tool's profile, batch). The host selects the session,
//! enables all events, and answers what the tool asks; it brings one carrier after another, each with its jobs, and does the
//! commands of the modules in an order that is drawn from a seed.
//!
//! It does no input of its own, and its output goes to a sink that is handed in. What a batch makes is defined in `batch_model`.
//! The one call is `batch_over`, whose contract is the promise of the whole.
#![tactic(auto)]

mod batch;
mod carriers;
mod counts;
mod host;
mod keeper;
mod modules;
mod run;
mod summary;
mod turns;

pub use run::batch_over;
