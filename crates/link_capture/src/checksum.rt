//! The checksum of IPv4 and TCP (RFC 1071): the complement of the sum of all words of two bytes, in ones' complement.

// The sum of two words in ones' complement: a carry is added at the other end.
fn sum(one: u16, other: u16) -> u16 {
    let (sum, has_carry) = one.overflowing_add(other);
    sum.wrapping_add(u16::from(has_carry))
}

// The word of one or two bytes, of which the first is the upper one.
fn word(bytes: &[u8]) -> u16 {
    match bytes {
        [high, low] => u16::from_be_bytes([*high, *low]),
        [high] => u16::from_be_bytes([*high, 0]),
        _ => 0,
    }
}

/// A sum goes on over bytes, of which only the last may be without its word's other one.
pub(crate) fn sum_on(before: u16, bytes: &[u8]) -> u16 {
    let mut total = before;
    for pair in bytes.chunks(2) {
        total = sum(total, word(pair));
    }
    total
}

/// The checksum of what was summed.
pub(crate) fn checksum(sum: u16) -> u16 {
    !sum
}
