//! Moments as calendar and clock show them, and the sixteen digits that say one: YYYYMMDDhhmmsscc, by the Gregorian calendar and a
//! clock without leap seconds (SEMI E5, TIME; this tool's profile, time). Takes no memory. Begin with `time16`, which makes digits of a
//! moment, and `moment_of`, which makes a moment of digits.
#![tactic(auto)]

mod civil;
mod laws;

pub use civil::{moment_of, time16};
pub use laws::{
    a_few_moments_are_computed, a_text_that_says_a_moment_is_its_digits,
    the_digits_of_a_moment_say_it, the_years_follow_one_another,
};
