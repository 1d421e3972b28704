//! The actors of the running tool. Each posts at a desk of its own: the reader and the writer of a session, the operator with a
//! script, the clock, and the modules. What each posted, read and wrote is said in its contract over any desk; that the desks are
//! chairs of one tool is known above (`shared_tool`).
//!
//! None starts a thread. Each waits where its desk, its link or its gate does, and nothing is promised of how long. Begin with
//! `read_host` and `write_host` for a session, with `operate` for a script, with `look` and `keep_time`, and with `run_module`.
#![tactic(auto)]

mod clock;
mod end;
mod module;
mod operator;
mod reader;
mod writer;

pub use clock::{keep_time, look};
pub use end::ActorEnd;
pub use module::run_module;
pub use operator::operate;
pub use reader::read_host;
pub use writer::write_host;
