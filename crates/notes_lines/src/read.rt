//! The reader of the lines.
ghost use Rattle.std.specs.Prelude.{◌≡◌, ℕ, ◌≤◌, codes, Ok, Err, MatchResult, IfOk, Result};
ghost use Rattle.line_grammar.specs.Words.{number};
ghost use Rattle.line_grammar.specs.Grammar.{Grammar, gives, anything, literal, word, part};
ghost use Rattle.line_grammar.specs.Reading.{read, either_of, Gives};
ghost use Rattle.notes_lines.specs.declared.line.SpoolLine.{SpoolLine};
ghost use Rattle.notes_lines.specs.Lines.{skipped_line, format_line, id_words, kind_words, number_words, push_line, short_lines, open_lines, first_lines, spool_lines};
ghost use Rattle.notes_lines.specs.Reading.{behind_space, without_excess, excess, is_within, may_be_capacity, may_be_half, half_place, in_bounds, spool_line_of, CanBeDone};

use crate::line::SpoolLine;
use hsms_frame::Bytes;
use line_cursor::{Cursor, either, says};
use line_grammar::LineFault;
use spool::{Kind, Note};
use spool_format::{is_capacity, is_half};
use std::alloc::Global;
use tool_texts::LINE_BYTES;

// A line has at most so many digits of a text.
const TEXT_DIGITS: usize = 174_000;

/// What a line says, without its line feed, by whether the spool is open: a `format` then says nothing. `Place` comes exactly where it
/// leaves these lines, with the first byte at which none goes on, counted from 0, or with its length where only more was wanted. A size
/// that no disk has is refused at its first byte, and a text at its first digit behind 174,000. A line of over 600,000 bytes is
/// refused at 600,000, whatever it holds (this tool's profile, durable spool).
#[tactic(auto, unfolding(crate::specs::Reading::spool_line_of))]
pub fn read_spool_line(alloc: Global, line: &[u8], is_open: bool) -> Result<SpoolLine, LineFault>
    ensures says { Gives result (spool_line_of is_open line.now) }
    ensures fits { IfOk result CanBeDone }
{
    if line.len() > LINE_BYTES {
        return Err(LineFault::Place(600_000));
    }
    match any(alloc, Cursor::new(without_excess(line)), is_open) {
        Ok(says) => in_bounds(line, says),
        Err(fault) => Err(fault),
    }
}

// ---- bounds

// What stands behind the first space.
fn behind_space(line: &[u8]) -> &[u8]
    ensures { result.now ≡ behind_space line.now }
{
    let mut text = Cursor::new(line);
    text.word();
    match text.rest {
        [] => &[],
        [_, rest @ ..] => rest,
    }
}

// How many digits of a text are too many.
fn excess(line: &[u8]) -> usize
    ensures { result ≡ excess line.now }
{
    let kind = behind_space(behind_space(behind_space(line)));
    let text = behind_space(behind_space(kind));
    text.len().saturating_sub(TEXT_DIGITS)
}

// The line without them.
fn without_excess(line: &[u8]) -> &[u8]
    ensures { result.now ≡ without_excess line.now }
{
    let end = line.len().saturating_sub(excess(line));
    &line[..end]
}

// Whether the text is within the limit.
fn is_within(line: &[u8], note: &Note) -> bool
    ensures { result ≡ is_within line.now note.now }
{
    note.text.as_slice().len() <= 87_000 && excess(line) < 1
}

// The place of the second size.
fn half_place(line: &[u8]) -> usize
    ensures { result ≡ half_place line.now }
{
    line.len()
        .saturating_sub(behind_space(behind_space(line)).len())
}

// Sizes that a disk may have.
fn sized(line: &[u8], capacity: u32, half: u64) -> Result<SpoolLine, LineFault>
    ensures says { Gives result (in_bounds line.now (SpoolLine.Format capacity half)) }
    ensures fits { IfOk result CanBeDone }
{
    if !is_capacity(capacity) {
        return Err(LineFault::Place(7));
    }
    if !is_half(capacity, half) {
        return Err(LineFault::Place(half_place(line) as u64));
    }
    Ok(SpoolLine::Format(capacity, half))
}

// A text that a note may have.
fn texted(line: &[u8], overwrite: bool, note: Note) -> Result<SpoolLine, LineFault>
    ensures says { Gives result (in_bounds line.now (SpoolLine.Push overwrite note)) }
    ensures fits { IfOk result CanBeDone }
{
    if is_within(line, &note) {
        Ok(SpoolLine::Push(overwrite, note))
    } else {
        let place = line.len().saturating_sub(excess(line));
        Err(LineFault::Place(place as u64))
    }
}

// A line that is well formed.
fn in_bounds(line: &[u8], says: SpoolLine) -> Result<SpoolLine, LineFault>
    ensures says { Gives result (in_bounds line.now says) }
    ensures fits { IfOk result CanBeDone }
{
    match says {
        SpoolLine::Format(capacity, half) => sized(line, capacity, half),
        SpoolLine::Push(overwrite, note) => texted(line, overwrite, note),
        SpoolLine::Skip => Ok(SpoolLine::Skip),
        SpoolLine::Take => Ok(SpoolLine::Take),
        SpoolLine::List => Ok(SpoolLine::List),
    }
}

// ---- forms

// Any line, by whether the spool is open.
fn any(alloc: Global, text: Cursor, is_open: bool) -> Result<SpoolLine, LineFault>
    ensures { Gives result (read (spool_lines is_open) text.entry.total text.entry.rest.now) }
{
    if is_open {
        open_line(alloc, text)
    } else {
        first_line(alloc, text)
    }
}

// A line before the spool is open.
#[tactic(auto, unfolding(crate::specs::Lines::first_lines))]
fn first_line(alloc: Global, text: Cursor) -> Result<SpoolLine, LineFault>
    ensures { Gives result (read first_lines text.entry.total text.entry.rest.now) }
{
    either_line(open_line(alloc, text), placed(format(text)))
}

// A line once it is open.
#[tactic(auto, unfolding(crate::specs::Lines::open_lines))]
fn open_line(alloc: Global, text: Cursor) -> Result<SpoolLine, LineFault>
    ensures { Gives result (read open_lines text.entry.total text.entry.rest.now) }
{
    either_line(
        placed(either(skipped(text), short(text))),
        push(alloc, text),
    )
}

// What a part of a line was read as, which takes no memory.
fn placed(read: Result<SpoolLine, usize>) -> Result<SpoolLine, LineFault>
    ensures { Gives result read }
{
    match read {
        Ok(line) => Ok(line),
        Err(place) => Err(LineFault::Place(place as u64)),
    }
}

// What one reading or the other gives, and the farther place where both fail.
fn either_line(
    one: Result<SpoolLine, LineFault>,
    other: Result<SpoolLine, LineFault>,
) -> Result<SpoolLine, LineFault>
    ensures { (a b : Result SpoolLine ℕ) → Gives one a → Gives other b → Gives result (either_of a b) }
{
    match one {
        Ok(line) => Ok(line),
        Err(LineFault::NoMemory) => Err(LineFault::NoMemory),
        Err(LineFault::Place(place)) => match other {
            Ok(line) => Ok(line),
            Err(LineFault::NoMemory) => Err(LineFault::NoMemory),
            Err(LineFault::Place(farther)) => Err(LineFault::Place(place.max(farther))),
        },
    }
}

// A line that says nothing.
#[tactic(auto, unfolding(crate::specs::Lines::skipped_line))]
fn skipped(text: Cursor) -> Result<SpoolLine, usize>
    ensures { result ≡ read skipped_line text.entry.total text.entry.rest.now }
{
    either(empty(text), comment(text))
}

// The empty line.
fn empty(text: Cursor) -> Result<SpoolLine, usize>
    ensures { result ≡ read (gives SpoolLine.Skip) text.entry.total text.entry.rest.now }
{
    text.end()?;
    Ok(SpoolLine::Skip)
}

// A comment.
fn comment(mut text: Cursor) -> Result<SpoolLine, usize>
    ensures { result ≡ read (part (literal (codes "#")) (λ done. anything SpoolLine.Skip)) text.entry.total text.entry.rest.now }
{
    text.literal(b"#")?;
    Ok(SpoolLine::Skip)
}

// `take` and `list`.
#[tactic(auto, unfolding(crate::specs::Lines::short_lines))]
fn short(text: Cursor) -> Result<SpoolLine, usize>
    ensures { result ≡ read short_lines text.entry.total text.entry.rest.now }
{
    either(
        says(text, b"take", SpoolLine::Take),
        says(text, b"list", SpoolLine::List),
    )
}

// `format CAPACITY HALF`.
#[tactic(auto, unfolding(crate::specs::Lines::format_line))]
fn format(mut text: Cursor) -> Result<SpoolLine, usize>
    ensures { result ≡ read format_line text.entry.total text.entry.rest.now }
{
    text.literal(b"format ")?;
    let capacity = text.word().number(4_294_967_295)? as u32;
    text.literal(b" ")?;
    Ok(SpoolLine::Format(capacity, text.number(u64::MAX)?))
}

// These words, a number up to a greatest, and a space.
fn number_behind(text: &mut Cursor, words: &[u8], top: u64) -> Result<u64, usize>
    ensures read { (k : ℕ → Grammar SpoolLine)
        → MatchResult result (λ n. read (part (literal words.now) (λ done. part (word (number top)) k)) text.old.total text.old.rest.now ≡ read (k n) text.new.total text.new.rest.now)
        (λ place. read (part (literal words.now) (λ done. part (word (number top)) k)) text.old.total text.old.rest.now ≡ Err place) }
    ensures within { IfOk result (λ n. n ≤ top) }
{
    text.literal(words)?;
    let number = text.word().number(top)?;
    text.literal(b" ")?;
    Ok(number)
}

// A push.
#[tactic(auto, unfolding(crate::specs::Lines::push_line))]
fn push(alloc: Global, text: Cursor) -> Result<SpoolLine, LineFault>
    ensures { Gives result (read push_line text.entry.total text.entry.rest.now) }
{
    either_line(
        push_behind(alloc, text, b"push keep ", false),
        push_behind(alloc, text, b"push over ", true),
    )
}

// A push that begins with these words.
#[tactic(auto, unfolding(crate::specs::Lines::number_words))]
fn push_behind(
    alloc: Global,
    text: Cursor,
    words: &[u8],
    overwrite: bool,
) -> Result<SpoolLine, LineFault>
    ensures { Gives result (read (part (literal words.now) (λ done. number_words overwrite)) text.entry.total text.entry.rest.now) }
{
    let mut text = text;
    match number_behind(&mut text, words, u64::MAX) {
        Ok(number) => kind(alloc, text, overwrite, number),
        Err(place) => Err(LineFault::Place(place as u64)),
    }
}

// The kind of a note, and what follows it.
#[tactic(auto, unfolding(crate::specs::Lines::kind_words))]
fn kind(alloc: Global, text: Cursor, overwrite: bool, number: u64) -> Result<SpoolLine, LineFault>
    ensures { Gives result (read (kind_words overwrite number) text.entry.total text.entry.rest.now) }
{
    either_line(
        id_behind(alloc, text, b"event ", overwrite, number, Kind::Event),
        id_behind(alloc, text, b"alarm ", overwrite, number, Kind::Alarm),
    )
}

// The id of a note behind the word of its kind, and its text.
#[tactic(auto, unfolding(crate::specs::Lines::id_words))]
fn id_behind(
    alloc: Global,
    text: Cursor,
    words: &[u8],
    overwrite: bool,
    number: u64,
    kind: Kind,
) -> Result<SpoolLine, LineFault>
    ensures { Gives result (read (part (literal words.now) (λ done. id_words overwrite number kind)) text.entry.total text.entry.rest.now) }
{
    let mut text = text;
    let id = match number_behind(&mut text, words, 4_294_967_295) {
        Ok(id) => id as u32,
        Err(place) => return Err(LineFault::Place(place as u64)),
    };
    let mut bytes = Vec::new(alloc);
    match text.hex(&mut bytes) {
        Ok(()) => Ok(SpoolLine::Push(
            overwrite,
            Note {
                number,
                kind,
                id,
                text: Bytes::from_vec(bytes),
            },
        )),
        Err(fault) => Err(fault),
    }
}
