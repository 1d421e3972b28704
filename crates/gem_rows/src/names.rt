//! Names of numbers, of which some hold the number of a port, chamber or module.

ghost use Rattle.std.specs.Prelude.{◌≡◌, ◌≤◌, ◌++◌, length, Some, IsTrue};
ghost use Rattle.gem_rows.specs.Lines.{are_printable, digits, is_behind};

use arrayvec::ArrayVec;
use gem_ids::Text80;

// The text of these bytes, which print.
pub(crate) fn name(bytes: &[u8]) -> Option<Text80>
    requires fits { length bytes.now ≤ 80 }
    requires printable { IsTrue (are_printable bytes.now) }
    ensures { result ≡ Some bytes.now }
{
    Text80::read(bytes).ok()
}

// The text with a thing's number, 1 to 10, between the bytes before and behind it.
pub(crate) fn numbered(before: &[u8], number: u32, behind: &[u8]) -> Option<Text80>
    requires least { 1 ≤ number }
    requires most { number ≤ 10 }
    requires fits_before { length before.now ≤ 30 }
    requires fits_behind { length behind.now ≤ 30 }
    requires before { IsTrue (are_printable before.now) }
    requires behind { IsTrue (are_printable behind.now) }
    ensures { result ≡ Some (before.now ++ digits number ++ behind.now) }
{
    let mut bytes = ArrayVec::<u8, 80>::new();
    bytes.try_extend_from_slice(before).ok()?;
    bytes.try_extend_from_slice(digits(number)).ok()?;
    bytes.try_extend_from_slice(behind).ok()?;
    Text80::read(bytes.as_slice()).ok()
}

// The digits of a thing's number.
fn digits(number: u32) -> &'static [u8]
    requires least { 1 ≤ number }
    requires most { number ≤ 10 }
    ensures { result.now ≡ digits number }
{
    match number {
        1 => b"1".as_slice(),
        2 => b"2".as_slice(),
        3 => b"3".as_slice(),
        4 => b"4".as_slice(),
        5 => b"5".as_slice(),
        6 => b"6".as_slice(),
        7 => b"7".as_slice(),
        8 => b"8".as_slice(),
        9 => b"9".as_slice(),
        _ => b"10".as_slice(),
    }
}

// Whether a number is one of so many behind a base.
pub(crate) fn is_behind(base: u32, count: u8, number: u32) -> bool
    requires { base ≤ 1000 }
    ensures { result ≡ is_behind base count number }
{
    base < number && number <= base + u32::from(count)
}
