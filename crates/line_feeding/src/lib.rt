//! What the feeding of lines needs beside the core: the words of the command, the configuration, reading from sources, the
//! cutting of a session's bytes, the lines of an answer, and how a run of lines ends (this tool's profile,
//! docs/profile/lines.md).
//!
//! The definitions of all that the feeding of lines promises stand here too, with what follows from them alone. It posts no event: the
//! reader of lines stands in `feeding`, and `feed` itself in `top_calls`. Begin with `check_words` and `Ended`.
#![tactic(auto)]

mod configured;
mod cuts;
mod ended;
mod halt;
mod print;
mod read;
mod words;

pub use configured::read_configuration;
pub use cuts::{cut_bytes, ends_run, quit_behind};
pub use ended::{Ended, Notes, Panels, SessionNote};
pub use halt::{Halt, InputEnd, InputRead};
pub use print::outcome_text;
pub use read::{TextFault, read_text};
pub use run_causes::Cause;
pub use words::{FeedWords, check_serve_words, check_words};
