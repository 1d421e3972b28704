//! Bytes that are drawn from seeds, and come to the tool in two cuttings: what it answers is the same.
//!
//! A line names them, as `from seed 7, 1000000 bytes to a selected link, cut twice`, or `to a link that is not selected` in its place. They
//! are at least so many, in runs of 16 sessions, whose seeds are the numbers from that on. Each run comes twice, in lines of one to 40 and
//! of one to 4,000 bytes, as they are drawn. It is answered `the same`, or of which seed the two runs print otherwise, or end.

use crate::drawn_bytes::{drawn, session_bytes};
use crate::given::{Given, run_printed};
use crate::tool::{Ran, Tools};
use anyhow::{Result, bail};
use std::alloc::{AllocError, Global};
use test_lines::{Subject, texts_of};

// So many sessions are drawn for a run.
const SESSIONS: u32 = 16;

// A select request, as a line of the host.
const SELECT: &str = "H 0000000AFFFF0000000100000001\n";

const CONFIG: &[u8] = b"communication = \"communicating\"\n";

const HEX: [u8; 16] = *b"0123456789ABCDEF";

/// Bytes that are named by lines.
#[derive(Drop)]
pub(crate) struct Cuttings<'a, O> {
    pub(crate) tools: &'a O,
}

impl<O: Tools> Subject for Cuttings<'_, O> {
    fn answer(&mut self, alloc: Global, said: &str) -> Result<String> {
        let Some((count, seed, is_selected)) = named(said) else {
            bail!("it names no bytes");
        };
        Ok(play_all(self.tools, alloc, count, seed, is_selected)?)
    }
}

// What a line names: how many bytes, the first seed, and whether the link is selected.
fn named(said: &str) -> Option<(u64, u64, bool)> {
    let Some(said) = said.strip_prefix("from seed ") else {
        return None;
    };
    let Some((from, link)) = said.split_once(" bytes to a ") else {
        return None;
    };
    let Some((seed, count)) = from.split_once(", ") else {
        return None;
    };
    match (count.parse::<u64>(), seed.parse::<u64>(), is_selected(link)) {
        (Ok(count), Ok(seed), Some(is_selected)) => Some((count, seed, is_selected)),
        _ => None,
    }
}

fn is_selected(link: &str) -> Option<bool> {
    match link {
        "selected link, cut twice" => Some(true),
        "link that is not selected, cut twice" => Some(false),
        _ => None,
    }
}

// Plays one run after another, until so many bytes have come.
fn play_all<O: Tools>(
    tools: &O,
    alloc: Global,
    count: u64,
    first: u64,
    is_selected: bool,
) -> Result<String, AllocError> {
    let mut left = count;
    for seed in first..u64::MAX {
        if left == 0 {
            break;
        }
        let (came, is_same) = play(tools, alloc, seed, is_selected)?;
        if !is_same {
            return format!(in alloc; "seed {seed} is answered otherwise");
        }
        left = left.saturating_sub(came.max(1));
    }
    String::from_str(alloc, "the same")
}

// The bytes of a run's sessions.
fn sessions(alloc: Global, seed: u64, is_selected: bool) -> Result<Vec<Vec<u8>>, AllocError> {
    let mut last = seed;
    let mut sessions = Vec::new(alloc);
    for _ in 0..SESSIONS {
        sessions.push(session_bytes(alloc, is_selected, &mut last)?)?;
    }
    Ok(sessions)
}

// Plays the run of a seed in both cuttings: how many bytes came, and whether both read all lines, with as many entries, and print the same. How
// many bytes a session read is no matter of it, since those of the line in which it ends count too.
fn play<O: Tools>(
    tools: &O,
    alloc: Global,
    seed: u64,
    is_selected: bool,
) -> Result<(u64, bool), AllocError> {
    let sessions = sessions(alloc, seed, is_selected)?;
    let sessions = sessions.as_slice();
    let (few, printed) = run_cut(tools, alloc, sessions, is_selected, 40, seed)?;
    let (many, printed_many) = run_cut(tools, alloc, sessions, is_selected, 4000, !seed)?;
    let ends = few.status == 0 && many.status == 0 && few.entries == many.entries;
    Ok((length_of(sessions), ends && printed == printed_many))
}

fn length_of(sessions: &[Vec<u8>]) -> u64 {
    let mut sum: u64 = 0;
    for session in sessions {
        sum = sum.saturating_add(session.len() as u64);
    }
    sum
}

// The lines of the sessions one after another, each in pieces of one to so many bytes.
fn lines(
    alloc: Global,
    sessions: &[Vec<u8>],
    is_selected: bool,
    most: u64,
    seed: u64,
) -> Result<Vec<u8>, AllocError> {
    let mut lines = Vec::new(alloc);
    let mut last = seed;
    for session in sessions {
        add_session(&mut lines, session.as_slice(), is_selected, most, &mut last)?;
    }
    Ok(lines)
}

// Runs over the sessions in this cutting: how the run ended, and what it printed.
fn run_cut<O: Tools>(
    tools: &O,
    alloc: Global,
    sessions: &[Vec<u8>],
    is_selected: bool,
    most: u64,
    seed: u64,
) -> Result<(Ran, Vec<u8>), AllocError> {
    let mut given = Given::none(alloc);
    given.words = texts_of(alloc, "feed c")?;
    given.config = Vec::from_slice(alloc, CONFIG)?;
    given.input = lines(alloc, sessions, is_selected, most, seed)?;
    run_printed(tools, alloc, &given)
}

// Adds the lines of a session.
fn add_session(
    input: &mut Vec<u8>,
    bytes: &[u8],
    is_selected: bool,
    most: u64,
    last: &mut u64,
) -> Result<(), AllocError> {
    input.extend_from_slice(b"L+\n")?;
    if is_selected {
        input.extend_from_slice(SELECT.as_bytes())?;
    }
    add_pieces(input, bytes, most, last)?;
    input.extend_from_slice(b"L-\n")
}

// How many bytes the next line has: one to so many.
fn drawn_size(most: u64, last: &mut u64) -> u64 {
    let [a, b, c, d, ..] = drawn(last);
    let number = u32::from_be_bytes([a, b, c, d]) as u64;
    number.checked_rem(most).unwrap_or(0).saturating_add(1)
}

// Adds bytes of the host as lines, each of a drawn number of bytes.
fn add_pieces(
    input: &mut Vec<u8>,
    bytes: &[u8],
    most: u64,
    last: &mut u64,
) -> Result<(), AllocError> {
    let mut left: u64 = 0;
    for byte in bytes {
        if left == 0 {
            left = drawn_size(most, last);
            input.extend_from_slice(b"\nH ")?;
        }
        input.push(HEX[(*byte / 16) as usize])?;
        input.push(HEX[(*byte % 16) as usize])?;
        left = left.saturating_sub(1);
    }
    Ok(input.push(b'\n')?)
}
