ghost use Rattle.std.specs.Prelude.{true, ◌≡◌, ◌+◌, ◌/◌, ◌%◌, ◌<◌, ◌≤◌, length, Some, None, IfSome, option_map, pos, if◌then◌else◌};
ghost use Rattle.std.specs.List.{list_all};
ghost use Rattle.jiff.specs.Words.{epoch_day};
ghost use Rattle.gem_ids.specs.Moments.{last_moment};
ghost use Rattle.civil_time.specs.Civil.{is_date, is_time, days_before, since_midnight, year_of, month_of, day_of_month, time_digits, is_digit, two_at, moment_in};

use gem_ids::Moment;
use jiff::civil::{Date, date};
// The plain date below jiff's: the difference of two is a number of days.
use jiff_core::civil::Date as Plain;

// The hundredths of a second of a day.
const DAY: u64 = 8_640_000;

/// The sixteen digits of a moment that is at most `Moment::LAST`: YYYYMMDDhhmmsscc in ASCII, by the Gregorian calendar
/// and a clock without leap seconds (this tool's profile, time). Takes no memory.
pub fn time16(m: Moment) -> [u8; 16]
    requires { m.0 ≤ last_moment }
    ensures digits { result ≡ time_digits m.0 }
    ensures sixteen { length result ≡ 16 }
{
    let Plain { year, month, day } = date_after(m.0 / DAY);
    let hour = (m.0 / 360_000 % 24) as u8;
    let minute = (m.0 / 6_000 % 60) as u8;
    let second = (m.0 / 100 % 60) as u8;
    let hundredth = (m.0 % 100) as u8;
    let century = (year / 100) as u8;
    let year_of_century = (year % 100) as u8;
    [
        tens(century),
        ones(century),
        tens(year_of_century),
        ones(year_of_century),
        tens(month),
        ones(month),
        tens(day),
        ones(day),
        tens(hour),
        ones(hour),
        tens(minute),
        ones(minute),
        tens(second),
        ones(second),
        tens(hundredth),
        ones(hundredth),
    ]
}

/// The moment that sixteen bytes say as YYYYMMDDhhmmsscc. None exactly where they are not sixteen ASCII digits of a date
/// of the years 2000 to 9999 and a time of day from 00:00:00.00 to 23:59:59.99 (this tool's profile, time). Takes no
/// memory.
pub fn moment_of(t: &[u8; 16]) -> Option<Moment>
    ensures { option_map (λ m. m.0) result ≡ moment_in t.now }
{
    if !are_digits(t) {
        return None;
    }
    let year = two(t, 0) as u16 * 100 + two(t, 2) as u16;
    let days = days_to(year, two(t, 4), two(t, 6))?;
    let clock = clock_of(two(t, 8), two(t, 10), two(t, 12), two(t, 14))?;
    Some(Moment(days * DAY + clock))
}

// The date that many days after 1 January 2000. 31 December 9999 comes 2,921,939 days after it.
fn date_after(days: u64) -> Plain
    requires { days ≤ 2921939 }
    ensures year { result.year ≡ pos (year_of days) }
    ensures month { result.month ≡ month_of days }
    ensures day { result.day ≡ day_of_month days }
{
    first_date().checked_add(days as i64).unwrap()
}

// 1 January 2000, from which the tool counts its days.
fn first_date() -> Plain
    ensures { epoch_day result ≡ pos 10957 }
{
    date(2000, 1, 1).to_plain()
}

// How many days after 1 January 2000 a date comes. None where the calendar does not have it in the years from 2000 on.
fn days_to(year: u16, month: u8, day: u8) -> Option<u64>
    requires year { year ≤ 9999 }
    requires month { month < 100 }
    requires day { day < 100 }
    ensures value { result ≡ (if is_date year month day then Some (days_before year month day) else None) }
    ensures last { IfSome result (λ days. days ≤ 2921939) }
{
    if year < 2000 {
        return None;
    }
    match Date::new(year as i16, month as i8, day as i8) {
        Ok(found) => Some(first_date().until(found.to_plain()) as u64),
        Err(_) => None,
    }
}

// The hundredths of a second from midnight to a time of day. None where a clock does not show it.
fn clock_of(hour: u8, minute: u8, second: u8, hundredth: u8) -> Option<u64>
    requires { hundredth < 100 }
    ensures value { result ≡ (if is_time hour minute second hundredth then Some (since_midnight hour minute second hundredth) else None) }
    ensures last { IfSome result (λ hundredths. hundredths < 8640000) }
{
    if hour > 23 || minute > 59 || second > 59 {
        return None;
    }
    Some(hour as u64 * 360_000 + minute as u64 * 6_000 + second as u64 * 100 + hundredth as u64)
}

fn tens(number: u8) -> u8
    requires { number < 100 }
    ensures { result ≡ 48 + number / 10 }
{
    b'0' + number / 10
}

fn ones(number: u8) -> u8
    ensures { result ≡ 48 + number % 10 }
{
    b'0' + number % 10
}

// Whether each byte is an ASCII digit.
fn are_digits(t: &[u8; 16]) -> bool
    ensures { result ≡ list_all is_digit t.now }
{
    t.iter().all(|byte| byte.is_ascii_digit())
}

// The number that the two digits at a place and behind it write.
fn two(t: &[u8; 16], place: usize) -> u8
    requires place { place < 15 }
    requires digits { list_all is_digit t.now ≡ true }
    ensures value { result ≡ two_at t.now place }
    ensures two { result < 100 }
{
    (t[place] - b'0') * 10 + (t[place + 1] - b'0')
}
