//! The configuration of the tool: which text says which `Config` (this tool's profile, configuration).
//!
//! The text is a table of TOML, which the kit's `toml` reads. The nineteen rules stand as one table in `specs/Rules.antt`, as the
//! profile prints them, for version 1 and 2; `newest_version` there says which versions are taken. `specs/Reading.antt` says by it what
//! a text says, and which rule it breaks. This crate reads no file, and knows nothing of the tool that is configured. Begin with
//! `read_config`.
#![tactic(auto)]

mod fault;
mod keys;
pub mod laws;
mod read;
mod reader;
mod recipes;
mod routes;
mod values;
pub mod worked;

pub use fault::ConfigFault;
pub use read::{CONFIGURATION_BYTES, read_config};
