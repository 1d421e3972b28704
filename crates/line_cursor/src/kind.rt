//! The words that are runs of bytes.
ghost use Rattle.std.specs.Prelude.{◌≡◌};
ghost use Rattle.line_grammar.specs.Words.{least, most, has};

use line_grammar::WordKind;

// The least length of such a word.
pub(crate) fn least(kind: WordKind) -> usize
    ensures { result ≡ least kind }
{
    match kind {
        WordKind::Name => 1,
        WordKind::Substrate => 4,
        WordKind::SlotMap => 25,
    }
}

// The greatest length of such a word.
pub(crate) fn most(kind: WordKind) -> usize
    ensures { result ≡ most kind }
{
    match kind {
        WordKind::Name => 64,
        WordKind::Substrate => 67,
        WordKind::SlotMap => 25,
    }
}

// Whether such a word may have the byte.
pub(crate) fn has(kind: WordKind, byte: u8) -> bool
    ensures { result ≡ has kind byte }
{
    match kind {
        WordKind::Name | WordKind::Substrate => b'!' <= byte && byte <= b'~',
        WordKind::SlotMap => b'0' <= byte && byte <= b'5',
    }
}
