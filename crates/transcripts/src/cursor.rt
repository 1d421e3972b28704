//! What is left of a printed line while it is read.

/// The bytes of a line from a place on. Where they are not what was wanted, the error is the place of the first byte with which no line
/// goes on, or the length of the line where only more was wanted.
#[derive(Clone, Copy)]
pub(crate) struct Cursor<'a> {
    rest: &'a [u8],
    place: u64,
}

impl<'a> Cursor<'a> {
    /// A whole line.
    pub(crate) fn new(line: &'a [u8]) -> Cursor<'a> {
        Cursor {
            rest: line,
            place: 0,
        }
    }

    /// The bytes that are left.
    pub(crate) fn rest(&self) -> &'a [u8] {
        self.rest
    }

    /// The place of the next byte.
    pub(crate) fn place(&self) -> u64 {
        self.place
    }

    // The next byte.
    fn next(&mut self) -> Option<u8> {
        match self.rest {
            [byte, rest @ ..] => {
                self.rest = rest;
                self.place = self.place.saturating_add(1);
                Some(*byte)
            }
            [] => None,
        }
    }

    // The next byte, which stays.
    fn peek(&self) -> Option<u8> {
        self.rest.first().copied()
    }

    /// These very bytes come.
    pub(crate) fn literal(&mut self, word: &[u8]) -> Result<(), u64> {
        for byte in word {
            if self.peek() != Some(*byte) {
                return Err(self.place);
            }
            let _byte = self.next();
        }
        Ok(())
    }

    // The digit that comes next.
    fn digit(&self) -> Option<u64> {
        match self.peek() {
            Some(byte @ b'0'..=b'9') => Some(u64::from(byte - b'0')),
            _ => None,
        }
    }

    /// A decimal number up to this one comes, without leading zeros.
    pub(crate) fn number(&mut self, most: u64) -> Result<u64, u64> {
        let Some(first) = self.digit() else {
            return Err(self.place);
        };
        let _first = self.next();
        let mut number = first;
        for _ in 0..20 {
            let Some(digit) = self.digit() else {
                return Ok(number);
            };
            if number == 0 {
                return Err(self.place);
            }
            number = match number
                .checked_mul(10)
                .and_then(|tens| tens.checked_add(digit))
            {
                Some(more) if more <= most => more,
                _ => return Err(self.place),
            };
            let _digit = self.next();
        }
        Ok(number)
    }

    /// Characters come that print, one at least, and end the line.
    pub(crate) fn printing(&mut self) -> Result<&'a [u8], u64> {
        let words = self.rest;
        if words.is_empty() {
            return Err(self.place);
        }
        for _ in 0..words.len() {
            match self.peek() {
                Some(32..=126) => {}
                _ => return Err(self.place),
            }
            let _character = self.next();
        }
        Ok(words)
    }

    /// The line ends here.
    pub(crate) fn end(&self) -> Result<(), u64> {
        if self.rest.is_empty() {
            Ok(())
        } else {
            Err(self.place)
        }
    }
}
