//! Files of texts that are said to a subject line by line, as most tests below whole runs are written. It is a library of
//! the programs that say them, and no part of the tool. Begin with `Texts` and `play_folder`.
//!
//! A file is written as `conversation_files` reads it. The first line of a conversation names its subject and how that
//! begins; the others are what the subject is told and asked, and behind ` = ` stands what it answers, as its words are
//! printed. A line without that is answered nothing. What a run is given is put together by lines (`places`), and what it leaves is told
//! by keys (`told`). No function here has a clause on its result, so what calls one is
//! proved with nothing in view but its own words.
#![tactic(auto)]

mod commands;
mod line_words;
mod places;
mod said;
mod told;

pub use commands::{text_of, texts_of};
pub use line_words::{bytes, header, nothing, number, small, word, words};
pub use places::{add, add_line, first_word};
pub use said::{Subject, Texts, answers, play_folder, play_lines};
pub use told::{
    Noted, answer_of, tell, tell_cause, tell_notes, tell_number, tell_quoted, tell_whether,
};
