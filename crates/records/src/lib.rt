//! Records that have a number of creation or a name, in the order in which they came: `Book` keeps them in a list whose room is taken
//! once, and `Names` keeps them by their names, each of which is that of one record. `specs/Numbers` and `specs/Names` say what is found
//! among them, changed and forgotten, and that numbers rise: none is given twice.
//!
//! It knows no record of the tool, and gives no number. A record is `Numbered` or `Named`, what is done to one is a `Change`, and what
//! is asked of one a `Test`.
//! Begin with `Book::new` or `Names::new`.
#![tactic(auto)]

mod book;
mod change;
mod key;
mod names;
mod numbered;
mod test;

pub use book::Book;
pub use change::Change;
pub use names::{Named, Names};
pub use numbered::{Numbered, place_numbered};
pub use test::Test;
