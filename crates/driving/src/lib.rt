//! The engine of the commands: one input after another is posted to what keeps a history, and what each entry is answered is handed on.
//!
//! Behind each input the writer of the session takes the frames that wait, and the modules fetch their commands, in the order of their
//! numbers (this tool's profile, docs/profile/lines.md, what an input line does). What becomes of the answers is the caller's: they
//! are printed, or kept to be answered, by an `AnswerHandler`. It reads no line, makes no input, and does no input or output of its
//! own. Begin with `input`, whose contract is the law of the engine.
#![tactic(auto)]

mod engine;
mod handler;

pub use engine::{AT_ONCE, input};
pub use handler::{AnswerHandler, Stop, Unhandled};
