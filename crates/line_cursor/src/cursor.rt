ghost use Rattle.std.specs.Prelude.{◌≡◌, ℕ, ◌-◌, ◌≤◌, ◌==◌, length, slice_get, IfOk, IfSome, ◌<◌, MatchResult, Ok, Err, List};
ghost use Rattle.std.specs.List.{position};
ghost use Rattle.line_grammar.specs.Reading.{end_at, literal_at, before_space, from_space, number_at, run_at, word_at, pairs_at, hex_at, Gives};
ghost use Rattle.line_grammar.specs.Words.{run, least, most, has, hex_digit};

use crate::kind::{has, least, most};
use gem_ids::Text80;
use line_grammar::{LineFault, WordKind};

/// What is left of a line.
#[derive(Clone, Copy)]
pub struct Cursor<'a> {
    /// How many bytes the whole line has, up to the end of what is left.
    pub total: usize,
    /// The bytes that are left.
    pub rest: &'a [u8],
}

impl<'a> Cursor<'a> {
    /// All of a line.
    pub fn new(line: &'a [u8]) -> Cursor<'a>
        ensures total { result.total ≡ length line.now }
        ensures rest { result.rest.now ≡ line.now }
    {
        Cursor {
            total: line.len(),
            rest: line,
        }
    }

    /// The place of the next byte.
    pub fn place(&self) -> usize
        ensures { result ≡ self.now.total - length self.now.rest.now }
    {
        self.total.saturating_sub(self.rest.len())
    }

    /// The next byte, where there is one.
    pub fn first(&self) -> Option<u8>
        ensures { result ≡ slice_get self.now.rest.now 0 }
    {
        match self.rest {
            [] => None,
            [byte, ..] => Some(*byte),
        }
    }

    /// The line ends here.
    #[tactic(auto, unfolding(line_grammar::specs::Reading::end_at))]
    pub fn end(self) -> Result<(), usize>
        ensures { MatchResult result (λ v. end_at self.entry.total self.entry.rest.now ≡ Ok tt) (λ e. end_at self.entry.total self.entry.rest.now ≡ Err e) }
    {
        match self.rest {
            [] => Ok(()),
            [_, ..] => Err(self.place()),
        }
    }

    /// Goes past these very bytes.
    #[tactic(auto, unfolding(line_grammar::specs::Reading::literal_at))]
    pub fn literal(&mut self, text: &[u8]) -> Result<(), usize>
        ensures read { MatchResult result (λ v. literal_at text.now self.old.total self.old.rest.now ≡ Ok self.new.rest.now) (λ e. literal_at text.now self.old.total self.old.rest.now ≡ Err e) }
        ensures total { self.new.total ≡ self.old.total }
    {
        for byte in text {
            let [first, rest @ ..] = self.rest else {
                return Err(self.place());
            };
            if *first != *byte {
                return Err(self.place());
            }
            self.rest = rest;
        }
        Ok(())
    }

    /// Goes up to the next space, and gives what stands before it.
    pub fn word(&mut self) -> Cursor<'a>
        ensures word { result.rest.now ≡ before_space self.old.rest.now }
        ensures place { result.total ≡ self.old.total - length (from_space self.old.rest.now) }
        ensures rest { self.new.rest.now ≡ from_space self.old.rest.now }
        ensures total { self.new.total ≡ self.old.total }
    {
        let (front, back) = split(self.rest);
        self.rest = back;
        Cursor {
            total: self.place(),
            rest: front,
        }
    }

    /// The number that is left, up to a greatest.
    #[tactic(auto, unfolding(line_grammar::specs::Reading::number_at, line_grammar::specs::Reading::digits_at))]
    pub fn number(self, top: u64) -> Result<u64, usize>
        ensures read { number_at top self.entry.total self.entry.rest.now ≡ result }
        ensures within { IfOk result (λ n. n ≤ top) }
    {
        let [first, rest @ ..] = self.rest else {
            return Err(self.total);
        };
        if !first.is_ascii_digit() || u64::from(*first - b'0') > top {
            return Err(self.place());
        }
        let mut left = Cursor {
            total: self.total,
            rest,
        };
        let mut value = u64::from(*first - b'0');
        while let [digit, rest @ ..] = left.rest {
            if !digit.is_ascii_digit() || value == 0 {
                return Err(left.place());
            }
            let more = u128::from(value) * 10 + u128::from(*digit - b'0');
            if more > u128::from(top) {
                return Err(left.place());
            }
            value = more as u64;
            left.rest = rest;
        }
        Ok(value)
    }

    // What is left is such a word.
    #[tactic(auto, unfolding(line_grammar::specs::Reading::run_at))]
    fn is_run(self, kind: WordKind) -> Result<(), usize>
        ensures { result ≡ run_at kind self.entry.total 0 self.entry.rest.now }
    {
        let mut left = self;
        let mut count = 0;
        while let [byte, rest @ ..] = left.rest {
            if !has(kind, *byte) || count >= most(kind) {
                return Err(left.place());
            }
            count += 1;
            left.rest = rest;
        }
        if count < least(kind) {
            return Err(self.total);
        }
        Ok(())
    }

    /// The text that is left, where it is such a word.
    pub fn run(self, kind: WordKind) -> Result<Text80, usize>
        ensures read { result ≡ word_at (run kind) self.entry.total self.entry.rest.now }
        ensures least { IfOk result (λ t. least kind ≤ length t) }
        ensures most { IfOk result (λ t. length t ≤ most kind) }
    {
        match self.is_run(kind) {
            Ok(()) => Ok(Text80::read(self.rest).unwrap()),
            Err(place) => Err(place),
        }
    }

    /// Reads the hex digits that are left: their bytes replace what stands in `bytes`.
    pub fn hex(self, bytes: &mut Vec<u8>) -> Result<(), LineFault>
        ensures { MatchResult result (λ v. hex_at self.entry.total self.entry.rest.now ≡ Ok bytes.new.items) (λ e. Gives (Err e) (hex_at self.entry.total self.entry.rest.now)) }
    {
        if self.rest.is_empty() {
            return Err(LineFault::Place(self.total as u64));
        }
        let Ok(()) = bytes.resize(self.rest.len() / 2, 0) else {
            return Err(LineFault::NoMemory);
        };
        match hex::decode_to_slice(self.rest, bytes.as_mut_slice()) {
            Ok(()) => Ok(()),
            Err(_) => Err(LineFault::Place(self.leaves_hex() as u64)),
        }
    }

    // The place at which what is left goes on as no pairs of hex digits.
    #[tactic(auto, unfolding(line_grammar::specs::Reading::pairs_at))]
    fn leaves_hex(self) -> usize
        ensures { (place : ℕ) → pairs_at self.entry.total self.entry.rest.now ≡ Err place → result ≡ place }
    {
        let mut left = self;
        while let [high, low, rest @ ..] = left.rest {
            let Some(_) = hex_digit(*high) else {
                return left.place();
            };
            let Some(_) = hex_digit(*low) else {
                return left.place() + 1;
            };
            left.rest = rest;
        }
        let [odd, ..] = left.rest else {
            return self.total;
        };
        match hex_digit(*odd) {
            Some(_) => self.total,
            None => left.place(),
        }
    }
}

// What a hex digit of either case stands for.
fn hex_digit(b: u8) -> Option<u8>
    ensures value { result ≡ hex_digit b }
{
    if b'0' <= b && b <= b'9' {
        Some(b - b'0')
    } else if b'A' <= b && b <= b'F' {
        Some(b - b'A' + 10)
    } else if b'a' <= b && b <= b'f' {
        Some(b - b'a' + 10)
    } else {
        None
    }
}

// The place of the first space.
fn first_space(bytes: &[u8]) -> Option<usize>
    ensures place { result ≡ position (λ b. b == 32) bytes.now }
    ensures within { IfSome result (λ i. i < length bytes.now) }
{
    bytes.iter().position(|b| *b == b' ')
}

// What stands before the first space, and from there on.
#[tactic(auto, unfolding(line_grammar::specs::Reading::before_space, line_grammar::specs::Reading::from_space))]
fn split(bytes: &[u8]) -> (&[u8], &[u8])
    ensures front { result.0.now ≡ before_space bytes.now }
    ensures back { result.1.now ≡ from_space bytes.now }
{
    match first_space(bytes) {
        Some(end) => bytes.split_at(end),
        None => (bytes, &[]),
    }
}
