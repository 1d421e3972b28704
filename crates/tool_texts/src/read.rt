ghost use Rattle.std.specs.Prelude.{◌≢◌, ◌≡◌, ℕ, ◌-◌, ◌<◌, ◌≤◌, length, slice_get, codes, Some, Ok, Err, MatchResult};
ghost use Rattle.line_grammar.specs.declared.line.Line.TheVariants.{Bytes as bytes_line};
ghost use Rattle.line_grammar.specs.Grammar.{Reads, gives, says, ◌or◌};
ghost use Rattle.line_grammar.specs.Lines.{skipped_line, comment_line, moment_line, operator_line, signal_line, watch_line, common_lines, hex_line, link_lines, feed_lines, script_lines, all_lines, operator_words};
ghost use Rattle.line_grammar.specs.Reading.{read, either_of, Gives, feed_line_of, script_line_of};

use crate::operator::operator;
use crate::signal::signal;
use gem_ids::{Moment, PortNo};
use hsms_frame::Bytes;
use line_cursor::{Cursor, either, says};
use line_grammar::{Line, LineFault};
use std::alloc::Global;
use tool_events::OperCmd;

/// The greatest line, in bytes, without its line feed (this tool's profile, limits).
pub const LINE_BYTES: usize = 600_000;

/// What the words of an operator say, without the `O` before them. `Place` comes exactly where they leave the operator
/// words, with the first byte at which none of them goes on, counted from 0, or with their length where only more was wanted
/// (this tool's profile, operator words and refused lines). Takes no memory.
pub fn read_operator(words: &[u8]) -> Result<OperCmd, LineFault>
    ensures reads { Reads operator_words words.now result }
    ensures memory { result ≢ Err LineFault.NoMemory }
{
    match operator(Cursor::new(words)) {
        Ok(command) => Ok(command),
        Err(place) => Err(LineFault::Place(place as u64)),
    }
}

/// What a line says, without its line feed: any line, those of `feed` and those of a script. `Place` comes exactly where
/// it leaves all lines, with the first byte at which none goes on, counted from 0, or with its length where only more was
/// wanted; and with 600,000 where it has more bytes than that, whatever it holds (this tool's profile, input lines and
/// refused lines).
pub fn read_line(alloc: Global, line: &[u8]) -> Result<Line, LineFault>
    ensures long { 600000 < length line.now → result ≡ Err (LineFault.Place 600000) }
    ensures reads { length line.now ≤ 600000 → Reads all_lines line.now result }
{
    if line.len() > LINE_BYTES {
        return Err(LineFault::Place(600_000));
    }
    any(alloc, Cursor::new(line))
}

/// What a line says to `feed`: as `read_line`, but a line that begins with `W` is refused at place 0, since it stands in a
/// script only (this tool's profile, input lines and refused lines).
pub fn read_feed_line(alloc: Global, line: &[u8]) -> Result<Line, LineFault>
    ensures long { 600000 < length line.now → result ≡ Err (LineFault.Place 600000) }
    ensures reads { length line.now ≤ 600000 → Reads feed_lines line.now result }
    ensures line { Gives result (feed_line_of line.now) }
{
    if line.len() > LINE_BYTES {
        return Err(LineFault::Place(600_000));
    }
    feed(alloc, Cursor::new(line))
}

/// What a line says to `feed` that begins with `H`: bytes of the host, which replace what stands in `bytes`. The faults are
/// those of `read_feed_line`; after one it is not said what stands in `bytes`.
pub fn read_host_line(line: &[u8], bytes: &mut Vec<u8>) -> Result<(), LineFault>
    requires { slice_get line.now 0 ≡ Some 72 }
    ensures { MatchResult result (λ v. feed_line_of line.now ≡ Ok (bytes_line bytes.new.items)) (λ e. Gives (Err e) (feed_line_of line.now)) }
{
    if line.len() > LINE_BYTES {
        return Err(LineFault::Place(600_000));
    }
    host(Cursor::new(line), bytes)
}

/// What a line says in a script: as `read_line`, but a line that begins with `L`, `T` or `H` is refused at place 0, since it
/// stands in the input of `feed` only (this tool's profile, scripts and refused lines). Takes no memory.
pub fn read_script_line(line: &[u8]) -> Result<Line, LineFault>
    ensures long { 600000 < length line.now → result ≡ Err (LineFault.Place 600000) }
    ensures reads { length line.now ≤ 600000 → Reads script_lines line.now result }
    ensures line { Gives result (script_line_of line.now) }
    ensures memory { result ≢ Err LineFault.NoMemory }
{
    if line.len() > LINE_BYTES {
        return Err(LineFault::Place(600_000));
    }
    match scripted(Cursor::new(line)) {
        Ok(says) => Ok(says),
        Err(place) => Err(LineFault::Place(place as u64)),
    }
}

// Any line.
#[tactic(auto, unfolding(line_grammar::specs::Lines::all_lines))]
fn any(alloc: Global, text: Cursor) -> Result<Line, LineFault>
    ensures { Gives result (read all_lines text.entry.total text.entry.rest.now) }
{
    match feed(alloc, text) {
        Ok(line) => Ok(line),
        Err(LineFault::Place(place)) => match watch(text) {
            Ok(line) => Ok(line),
            Err(farther) => Err(LineFault::Place(place.max(farther as u64))),
        },
        Err(LineFault::NoMemory) => Err(LineFault::NoMemory),
    }
}

// A line that `feed` takes. The first letter of most lines tells which they may be.
fn feed(alloc: Global, text: Cursor) -> Result<Line, LineFault>
    ensures { Gives result (read feed_lines text.entry.total text.entry.rest.now) }
{
    match text.first() {
        Some(b'H') => host_bytes(alloc, text),
        Some(b'O') => behind_letter(text, said(text)),
        Some(b'S') => behind_letter(text, told(text)),
        _ => any_fed(alloc, text),
    }
}

// A line that begins with `H`.
fn host_bytes(alloc: Global, text: Cursor) -> Result<Line, LineFault>
    ensures { Gives result (either_of (Err (text.entry.total - length text.entry.rest.now)) (read hex_line text.entry.total text.entry.rest.now)) }
{
    match hex(alloc, text) {
        Ok(line) => Ok(line),
        Err(LineFault::Place(place)) => Err(LineFault::Place((text.place() as u64).max(place))),
        Err(LineFault::NoMemory) => Err(LineFault::NoMemory),
    }
}

// What a line is read as that no other begins like: a place is no less than that of its first byte.
fn behind_letter(text: Cursor, read: Result<Line, usize>) -> Result<Line, LineFault>
    ensures { Gives result (either_of (Err (text.entry.total - length text.entry.rest.now)) read) }
{
    match read {
        Ok(line) => Ok(line),
        Err(place) => Err(LineFault::Place(text.place().max(place) as u64)),
    }
}

// A line that `feed` takes, whatever it begins with.
#[tactic(auto, unfolding(line_grammar::specs::Lines::feed_lines))]
fn any_fed(alloc: Global, text: Cursor) -> Result<Line, LineFault>
    ensures { Gives result (read feed_lines text.entry.total text.entry.rest.now) }
{
    match common(text) {
        Ok(line) => Ok(line),
        Err(place) => match link(alloc, text) {
            Ok(line) => Ok(line),
            Err(LineFault::Place(farther)) => Err(LineFault::Place((place as u64).max(farther))),
            Err(LineFault::NoMemory) => Err(LineFault::NoMemory),
        },
    }
}

// A line that both `feed` and a script take.
#[tactic(auto, unfolding(line_grammar::specs::Lines::common_lines))]
fn common(text: Cursor) -> Result<Line, usize>
    ensures { result ≡ read common_lines text.entry.total text.entry.rest.now }
{
    let found = either(skipped(text), told(text));
    either(found, said(text))
}

// A line that only `feed` takes.
#[tactic(auto, unfolding(line_grammar::specs::Lines::link_lines))]
fn link(alloc: Global, text: Cursor) -> Result<Line, LineFault>
    ensures { Gives result (read link_lines text.entry.total text.entry.rest.now) }
{
    match short_link(text) {
        Ok(line) => Ok(line),
        Err(place) => match hex(alloc, text) {
            Ok(line) => Ok(line),
            Err(LineFault::Place(farther)) => Err(LineFault::Place((place as u64).max(farther))),
            Err(LineFault::NoMemory) => Err(LineFault::NoMemory),
        },
    }
}

// The same, but for bytes.
fn short_link(text: Cursor) -> Result<Line, usize>
    ensures { result ≡ read (says (codes "L+") Line.Up or says (codes "L-") Line.Down or moment_line) text.entry.total text.entry.rest.now }
{
    let found = either(says(text, b"L+", Line::Up), says(text, b"L-", Line::Down));
    either(found, moment(text))
}

// A line that a script has.
#[tactic(auto, unfolding(line_grammar::specs::Lines::script_lines))]
fn scripted(text: Cursor) -> Result<Line, usize>
    ensures { result ≡ read script_lines text.entry.total text.entry.rest.now }
{
    either(common(text), watch(text))
}

// A line that says nothing.
#[tactic(auto, unfolding(line_grammar::specs::Lines::skipped_line))]
fn skipped(text: Cursor) -> Result<Line, usize>
    ensures { result ≡ read skipped_line text.entry.total text.entry.rest.now }
{
    either(empty(text), comment(text))
}

// The empty line.
fn empty(text: Cursor) -> Result<Line, usize>
    ensures { result ≡ read (gives Line.Skip) text.entry.total text.entry.rest.now }
{
    text.end()?;
    Ok(Line::Skip)
}

// A comment.
#[tactic(auto, unfolding(line_grammar::specs::Lines::comment_line))]
fn comment(mut text: Cursor) -> Result<Line, usize>
    ensures { result ≡ read comment_line text.entry.total text.entry.rest.now }
{
    text.literal(b"#")?;
    Ok(Line::Skip)
}

// `T n`: a look at the clock.
#[tactic(auto, unfolding(line_grammar::specs::Lines::moment_line))]
fn moment(mut text: Cursor) -> Result<Line, usize>
    ensures { result ≡ read moment_line text.entry.total text.entry.rest.now }
{
    text.literal(b"T ")?;
    Ok(Line::Moment(Moment(text.number(Moment::LAST.0)?)))
}

// `W p`: a script waits for a port.
#[tactic(auto, unfolding(line_grammar::specs::Lines::watch_line))]
fn watch(mut text: Cursor) -> Result<Line, usize>
    ensures { result ≡ read watch_line text.entry.total text.entry.rest.now }
{
    text.literal(b"W ")?;
    Ok(Line::Watch(PortNo(text.number(255)? as u8)))
}

// `O words`: what an operator says.
#[tactic(auto, unfolding(line_grammar::specs::Lines::operator_line), using(line_grammar::proofs::Engine::read_mapped))]
fn said(mut text: Cursor) -> Result<Line, usize>
    ensures { result ≡ read operator_line text.entry.total text.entry.rest.now }
{
    text.literal(b"O ")?;
    Ok(Line::Oper(operator(text)?))
}

// The `S` lines: what the equipment tells.
#[tactic(auto, unfolding(line_grammar::specs::Lines::signal_line), using(line_grammar::proofs::Engine::read_mapped))]
fn told(text: Cursor) -> Result<Line, usize>
    ensures { result ≡ read signal_line text.entry.total text.entry.rest.now }
{
    Ok(Line::Signal(signal(text)?))
}

// `H hex`: bytes of the host.
fn hex(alloc: Global, text: Cursor) -> Result<Line, LineFault>
    ensures { Gives result (read hex_line text.entry.total text.entry.rest.now) }
{
    let mut bytes = Vec::new(alloc);
    match host(text, &mut bytes) {
        Ok(()) => Ok(Line::Bytes(Bytes::from_vec(bytes))),
        Err(fault) => Err(fault),
    }
}

// The same, where the bytes replace what stands in `bytes`.
#[tactic(auto, unfolding(line_grammar::specs::Lines::hex_line))]
fn host(mut text: Cursor, bytes: &mut Vec<u8>) -> Result<(), LineFault>
    ensures { MatchResult result (λ v. read hex_line text.entry.total text.entry.rest.now ≡ Ok (bytes_line bytes.new.items)) (λ e. Gives (Err e) (read hex_line text.entry.total text.entry.rest.now)) }
{
    if let Err(place) = text.literal(b"H ") {
        return Err(LineFault::Place(place as u64));
    }
    text.hex(bytes)
}
