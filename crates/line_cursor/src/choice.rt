//! One reading or another, and readings of these very bytes.
ghost use Rattle.std.specs.Prelude.{◌≡◌};
ghost use Rattle.line_grammar.specs.Grammar.{says};
ghost use Rattle.line_grammar.specs.Reading.{read, either_of};

use crate::cursor::Cursor;

/// What one reading or the other gives, and the farther place where both fail.
pub fn either<T: Drop>(one: Result<T, usize>, other: Result<T, usize>) -> Result<T, usize>
    ensures { result ≡ either_of one other }
{
    match (one, other) {
        (Ok(value), _) => Ok(value),
        (Err(_), Ok(value)) => Ok(value),
        (Err(place), Err(farther)) => Err(place.max(farther)),
    }
}

/// The same, of values that are copied.
pub fn either_copied<T: Copy>(one: Result<T, usize>, other: Result<T, usize>) -> Result<T, usize>
    ensures { result ≡ either_of one other }
{
    match one {
        Ok(value) => Ok(value),
        Err(place) => match other {
            Ok(value) => Ok(value),
            Err(farther) => Err(place.max(farther)),
        },
    }
}

/// These very bytes, and no more, say the value.
pub fn says<T: Drop>(mut text: Cursor, words: &[u8], value: T) -> Result<T, usize>
    ensures { result ≡ read (says words.now value) text.entry.total text.entry.rest.now }
{
    text.literal(words)?;
    text.end()?;
    Ok(value)
}
