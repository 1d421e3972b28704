//! Numbers as words.
ghost use Rattle.std.specs.Prelude.{◌≡◌, ◌≤◌, ◌<◌, None, IfSome, IsTrue};
ghost use Rattle.std.specs.List.{list_all};
ghost use Rattle.program_words.specs.Numbers.{is_digit, leads, is_decimal, value_behind, number_in};

// Whether all bytes are digits.
fn are_digits(word: &[u8]) -> bool
    ensures { result ≡ list_all is_digit word.now }
{
    for byte in word {
        if *byte < b'0' || *byte > b'9' {
            return false;
        }
    }
    true
}

// Whether the first of several digits isn't 0.
fn leads(word: &[u8]) -> bool
    ensures { result ≡ leads word.now }
{
    match word {
        [] => false,
        [_] => true,
        [first, _, ..] => *first != b'0',
    }
}

// Whether the word has decimal digits without leading zeros, one at least.
fn is_decimal(word: &[u8]) -> bool
    ensures { result ≡ is_decimal word.now }
{
    leads(word) && are_digits(word)
}

// What digits stand for, where it is at most so much.
fn value_of(word: &[u8], most: u64) -> Option<u64>
    requires { IsTrue (list_all is_digit word.now) }
    ensures some { IfSome result (λ n. value_behind 0 word.now ≡ n) }
    ensures most { IfSome result (λ n. n ≤ most) }
    ensures none { result ≡ None → most < value_behind 0 word.now }
{
    let mut value = 0;
    for byte in word {
        let more = u128::from(value) * 10 + u128::from(*byte - b'0');
        if more > u128::from(most) {
            return None;
        }
        value = more as u64;
    }
    Some(value)
}

// The number of at least and at most so much that the word spells.
pub(crate) fn number_in(word: &[u8], least: u64, most: u64) -> Option<u64>
    ensures number { result ≡ number_in least most word.now }
    ensures most { IfSome result (λ n. n ≤ most) }
{
    if !is_decimal(word) {
        return None;
    }
    match value_of(word, most) {
        Some(value) if value >= least => Some(value),
        _ => None,
    }
}
