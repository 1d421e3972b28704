//! Laws of the calendar and of the sixteen digits. Each function is a statement about the definitions, and has no code.

ghost use Rattle.std.specs.Prelude.{◌≡◌, ℕ, ◌+◌, ◌≤◌, List, Some, None, codes};
ghost use Rattle.gem_ids.specs.Moments.{last_moment};
ghost use Rattle.civil_time.specs.Civil.{days_in_year, days_before_year, days_of_months, time_digits, moment_in};

/// The digits of a moment say that moment.
pub fn the_digits_of_a_moment_say_it()
    ensures { (moment : ℕ) → moment ≤ last_moment → moment_in (time_digits moment) ≡ Some moment }
{}

/// A text that says a moment is the digits of it. So no two texts say one moment.
pub fn a_text_that_says_a_moment_is_its_digits()
    ensures digits { (text : List ℕ) (moment : ℕ) → moment_in text ≡ Some moment → time_digits moment ≡ text }
    ensures last { (text : List ℕ) (moment : ℕ) → moment_in text ≡ Some moment → moment ≤ last_moment }
{}

/// The years follow one another from 2000 on, each with its 365 or 366 days, and the twelve months make the year.
pub fn the_years_follow_one_another()
    ensures first { days_before_year 2000 ≡ 0 }
    ensures next { (year : ℕ) → 2000 ≤ year → days_before_year (year + 1) ≡ days_before_year year + days_in_year year }
    ensures months { (year : ℕ) → days_of_months year 12 ≡ days_in_year year }
{}

/// Moments and texts worked by hand: the first moment and the last, a leap day, the 29th of February of a year that has
/// none, and a text of fifteen digits.
pub fn a_few_moments_are_computed()
    ensures first { time_digits 0 ≡ codes "2000010100000000" }
    ensures last { time_digits 25245561599999 ≡ codes "9999123123595999" }
    ensures leap_day { moment_in (codes "2024022906070809") ≡ Some 76250202809 }
    ensures no_leap_day { moment_in (codes "2100022900000000") ≡ None }
    ensures short { moment_in (codes "200001010000000") ≡ None }
{}
