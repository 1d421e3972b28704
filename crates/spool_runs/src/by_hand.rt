//! What the bytes of a disk stand for, read by hand from docs/profile/durable_spool.md, and by nothing of the crates that are tested.

use crate::note_words::words_of;
use anyhow::Result;
use std::alloc::Global;

/// The size of a half and the notes in words; or the place from which on the bytes are not in the format.
#[derive(Drop)]
pub enum ByHand {
    Notes(String),
    Unread(usize),
}

// A number of so many bytes at a place, the most significant first; the place of the first byte that is missing.
fn number_at(bytes: &[u8], at: usize, count: usize) -> Result<u64, usize> {
    let mut number: u64 = 0;
    for k in 0..count {
        let place = at.saturating_add(k);
        match bytes.get(place) {
            Some(byte) => number = number.wrapping_mul(256).wrapping_add(u64::from(*byte)),
            None => return Err(place),
        }
    }
    Ok(number)
}

// A number of one byte that is 0 or 1.
fn one_of_two(bytes: &[u8], at: usize) -> Result<bool, usize> {
    match number_at(bytes, at, 1) {
        Ok(0) => Ok(false),
        Ok(1) => Ok(true),
        Ok(_) => Err(at),
        Err(place) => Err(place),
    }
}

// A note: its number, and the note in words.
#[derive(Drop)]
struct Noted {
    number: u64,
    words: String,
}

// A record: nothing at the end, a take, or a note with whether it is put back, whether it overwrites, and where the next record stands.
#[derive(Drop)]
enum Step {
    End,
    Taken,
    Came(bool, bool, Noted, usize),
}

fn came_at(
    alloc: Global,
    bytes: &[u8],
    at: usize,
    is_put_back: bool,
) -> Result<Result<Step, usize>> {
    let overwrite = match one_of_two(bytes, at.saturating_add(2)) {
        Ok(overwrite) => overwrite,
        Err(place) => return Ok(Err(place)),
    };
    let number = match number_at(bytes, at.saturating_add(3), 8) {
        Ok(number) => number,
        Err(place) => return Ok(Err(place)),
    };
    let is_alarm = match one_of_two(bytes, at.saturating_add(11)) {
        Ok(is_alarm) => is_alarm,
        Err(place) => return Ok(Err(place)),
    };
    let id = match number_at(bytes, at.saturating_add(12), 4) {
        Ok(id) => u32::try_from(id).unwrap_or(0),
        Err(place) => return Ok(Err(place)),
    };
    let len = match number_at(bytes, at.saturating_add(16), 4) {
        Ok(len) => len as usize,
        Err(place) => return Ok(Err(place)),
    };
    if len > 87_000 {
        return Ok(Err(at.saturating_add(16)));
    }
    let from = at.saturating_add(20);
    let to = from.saturating_add(len);
    match bytes.get(from..to) {
        Some(text) => {
            let words = words_of(alloc, number, is_alarm, id, text)?;
            let note = Noted { number, words };
            Ok(Ok(Step::Came(is_put_back, overwrite, note, to)))
        }
        None => Ok(Err(bytes.len())),
    }
}

fn step_at(alloc: Global, bytes: &[u8], at: usize) -> Result<Result<Step, usize>> {
    match number_at(bytes, at, 1) {
        Ok(0) => return Ok(Ok(Step::End)),
        Ok(_) => {}
        Err(place) => return Ok(Err(place)),
    }
    let operation = at.saturating_add(1);
    match number_at(bytes, operation, 1) {
        Ok(1) => came_at(alloc, bytes, at, false),
        Ok(2) => came_at(alloc, bytes, at, true),
        Ok(3) => Ok(Ok(Step::Taken)),
        Ok(_) => Ok(Err(operation)),
        Err(place) => Ok(Err(place)),
    }
}

// Takes the oldest away.
fn drop_oldest(notes: Vec<Noted>, alloc: Global) -> Result<Vec<Noted>> {
    let mut left = Vec::new(alloc);
    for note in notes.into_iter().skip(1) {
        left.push(note)?;
    }
    Ok(left)
}

// Whether the numbers rise, and this is none of them.
fn may_put_back(notes: &[Noted], number: u64) -> bool {
    let mut before: Option<u64> = None;
    for note in notes.iter() {
        if note.number == number || before.is_some_and(|before| before >= note.number) {
            return false;
        }
        before = Some(note.number);
    }
    true
}

// The notes that have a lesser number than this one, the note, and the others.
fn put_back(notes: Vec<Noted>, one: Noted, alloc: Global) -> Result<Vec<Noted>> {
    let number = one.number;
    let mut lesser = Vec::new(alloc);
    let mut greater = Vec::new(alloc);
    for note in notes {
        if note.number < number {
            lesser.push(note)?;
        } else {
            greater.push(note)?;
        }
    }
    lesser.push(one)?;
    for note in greater {
        lesser.push(note)?;
    }
    Ok(lesser)
}

// The notes with one that came, by the rule of a full spool.
fn with_one(
    alloc: Global,
    notes: Vec<Noted>,
    step: (bool, bool, Noted),
    capacity: usize,
) -> Result<Vec<Noted>> {
    let (is_put_back, overwrite, one) = step;
    let mut all = notes;
    if is_put_back {
        all = put_back(all, one, alloc)?;
    } else {
        all.push(one)?;
    }
    if all.len() <= capacity {
        return Ok(all);
    }
    if overwrite {
        return drop_oldest(all, alloc);
    }
    all.pop();
    Ok(all)
}

// The notes that the records from a place on give.
fn notes_from(
    alloc: Global,
    bytes: &[u8],
    start: usize,
    capacity: usize,
) -> Result<Result<Vec<Noted>, usize>> {
    let mut notes: Vec<Noted> = Vec::new(alloc);
    let mut at = start;
    for _ in 0..bytes.len() {
        match step_at(alloc, bytes, at)? {
            Err(place) => return Ok(Err(place)),
            Ok(Step::End) => return Ok(Ok(notes)),
            Ok(Step::Taken) => {
                notes = drop_oldest(notes, alloc)?;
                at = at.saturating_add(2);
            }
            Ok(Step::Came(is_put_back, overwrite, note, next)) => {
                if is_put_back && !may_put_back(&notes, note.number) {
                    return Ok(Err(at));
                }
                notes = with_one(alloc, notes, (is_put_back, overwrite, note), capacity)?;
                at = next;
            }
        }
    }
    Ok(Err(at))
}

/// What these bytes stand for.
pub fn read(alloc: Global, bytes: &[u8]) -> Result<ByHand> {
    let selector = match number_at(bytes, 0, 1) {
        Ok(selector) => selector,
        Err(place) => return Ok(ByHand::Unread(place)),
    };
    let capacity = match number_at(bytes, 1, 4) {
        Ok(capacity) => capacity,
        Err(place) => return Ok(ByHand::Unread(place)),
    };
    if capacity == 0 || capacity > 65_536 {
        return Ok(ByHand::Unread(1));
    }
    let half = match number_at(bytes, 5, 8) {
        Ok(half) => half,
        Err(place) => return Ok(ByHand::Unread(place)),
    };
    let least = capacity.saturating_add(1).saturating_mul(87_020);
    if half <= least || half >= 1_099_511_627_776 {
        return Ok(ByHand::Unread(5));
    }
    let start = if selector % 2 == 0 {
        13
    } else {
        half.saturating_add(13)
    };
    let stop = start.saturating_add(half) as usize;
    let whole = bytes.get(..stop).unwrap_or(bytes);
    match notes_from(alloc, whole, start as usize, capacity as usize)? {
        Ok(notes) => {
            let mut words = format!(in alloc; "half {half}")?;
            for note in notes.iter() {
                write!(words, "; {}", note.words)?;
            }
            Ok(ByHand::Notes(words))
        }
        Err(place) => Ok(ByHand::Unread(place)),
    }
}
