//! What the equipment tells.
ghost use Rattle.std.specs.Prelude.{◌≡◌, ℕ, length};
ghost use Rattle.line_grammar.specs.Reading.{read};
ghost use Rattle.line_grammar.specs.Grammar.{◌or◌};
ghost use Rattle.gem_ids.specs.Names.{HasLength};
ghost use Rattle.line_grammar.specs.Lines.{read_id, slot_codes, placed_line, removed_line, done_line, failed_line, down_line};

use gem_ids::{CarrierId, CmdNo, ModuleId, PortNo, Text80};
use line_cursor::{Cursor, either_copied};
use line_grammar::WordKind;
use tool_events::Signal;

// The id of a carrier, which is unread where it is a dash.
fn carrier(text: Text80) -> Option<CarrierId>
    requires { HasLength 1 64 text }
    ensures { result ≡ read_id text }
{
    if text.as_bytes() == b"-".as_slice() {
        None
    } else {
        Some(CarrierId::read(text).unwrap())
    }
}

// The digits of a map.
fn digits(text: Text80) -> [u8; 25]
    requires { length text ≡ 25 }
    ensures { result ≡ text }
{
    let mut digits = [0; 25];
    digits.copy_from_slice(text.as_bytes());
    digits
}

// What the digits of a map stand for.
fn slots(digits: [u8; 25]) -> [u8; 25]
    ensures { result ≡ slot_codes digits }
{
    let mut slots = digits;
    for i in 0..25 {
        slots[i] = digits[i].saturating_sub(b'0');
    }
    slots
}

// `S placed p id digits`: a carrier was placed at a port.
#[tactic(auto, unfolding(line_grammar::specs::Lines::placed_line))]
fn placed(mut text: Cursor) -> Result<Signal, usize>
    ensures { result ≡ read placed_line text.entry.total text.entry.rest.now }
{
    text.literal(b"S placed ")?;
    let port = PortNo(text.word().number(255)? as u8);
    text.literal(b" ")?;
    let id = carrier(text.word().run(WordKind::Name)?);
    text.literal(b" ")?;
    let map = slots(digits(text.run(WordKind::SlotMap)?));
    Ok(Signal::Placed { port, id, map })
}

// `S done m n`: module m did command n.
#[tactic(auto, unfolding(line_grammar::specs::Lines::done_line))]
fn done(mut text: Cursor) -> Result<Signal, usize>
    ensures { result ≡ read done_line text.entry.total text.entry.rest.now }
{
    text.literal(b"S done ")?;
    let module = ModuleId(text.word().number(255)? as u8);
    text.literal(b" ")?;
    Ok(Signal::Done(module, CmdNo(text.number(u64::MAX)?)))
}

// What the equipment tells. The letter behind `S ` tells which of the lines it may be.
#[tactic(auto, using(crate::proofs::SignalLetters::placed_word, crate::proofs::SignalLetters::removed_word, crate::proofs::SignalLetters::done_down_words, crate::proofs::SignalLetters::failed_word, crate::proofs::SignalLetters::no_words, crate::proofs::SignalLetters::other_words, crate::proofs::SignalLetters::no_signal))]
pub(crate) fn signal(text: Cursor) -> Result<Signal, usize>
    ensures { result ≡ read (placed_line or removed_line or done_line or failed_line or down_line) text.entry.total text.entry.rest.now }
{
    let mut behind = text;
    behind.literal(b"S ")?;
    let none = Err(behind.place());
    let Some(letter) = behind.first() else {
        return none;
    };
    match letter {
        b'p' => either_copied(placed(text), none),
        b'r' => either_copied(none, removed(text)),
        b'd' => {
            let found = either_copied(none, done(text));
            either_copied(found, down(text))
        }
        b'f' => either_copied(none, failed(text)),
        _ => none,
    }
}

// `S failed m n`: module m failed at command n.
#[tactic(auto, unfolding(line_grammar::specs::Lines::failed_line))]
fn failed(mut text: Cursor) -> Result<Signal, usize>
    ensures { result ≡ read failed_line text.entry.total text.entry.rest.now }
{
    text.literal(b"S failed ")?;
    let module = ModuleId(text.word().number(255)? as u8);
    text.literal(b" ")?;
    Ok(Signal::Failed(module, CmdNo(text.number(u64::MAX)?)))
}

// `S removed p`: the carrier at a port was taken away.
#[tactic(auto, unfolding(line_grammar::specs::Lines::removed_line))]
fn removed(mut text: Cursor) -> Result<Signal, usize>
    ensures { result ≡ read removed_line text.entry.total text.entry.rest.now }
{
    text.literal(b"S removed ")?;
    Ok(Signal::Removed(PortNo(text.number(255)? as u8)))
}

// `S down m`: module m went down.
#[tactic(auto, unfolding(line_grammar::specs::Lines::down_line))]
fn down(mut text: Cursor) -> Result<Signal, usize>
    ensures { result ≡ read down_line text.entry.total text.entry.rest.now }
{
    text.literal(b"S down ")?;
    Ok(Signal::Down(ModuleId(text.number(255)? as u8)))
}
