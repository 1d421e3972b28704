//! Acknowledge codes: which message has which, and what its numbers mean (this tool's profile, docs/profile/messages.md and the pages
//! that it names).

use crate::body::{number, pair, parts};
use crate::remarks::Remarks;
use item_model::Item;
use std::alloc::{AllocError, Global};

/// An acknowledge code.
#[derive(Clone, Copy)]
pub(crate) enum Acknowledge {
    Commack,
    Oflack,
    Onlack,
    Eac,
    Tiack,
    Drack,
    Lrack,
    Erack,
    Hcack,
    Rspack,
    Caack,
    Ackc5,
    Ackc6,
    Rsda,
    Objack,
    Cpack,
    Strack,
}

/// The code that a message answers with, if it has one.
pub(crate) fn acknowledge_of(stream: u8, function: u8) -> Option<Acknowledge> {
    match (stream, function) {
        (1, 14) => Some(Acknowledge::Commack),
        (1, 16) => Some(Acknowledge::Oflack),
        (1, 18) => Some(Acknowledge::Onlack),
        (2, _) => of_stream_2(function),
        (3, 18 | 26 | 28) => Some(Acknowledge::Caack),
        (5, 2 | 4) => Some(Acknowledge::Ackc5),
        (6, 12) => Some(Acknowledge::Ackc6),
        (6, 24) => Some(Acknowledge::Rsda),
        (14, 10) => Some(Acknowledge::Objack),
        _ => None,
    }
}

fn of_stream_2(function: u8) -> Option<Acknowledge> {
    match function {
        16 => Some(Acknowledge::Eac),
        32 => Some(Acknowledge::Tiack),
        34 => Some(Acknowledge::Drack),
        36 => Some(Acknowledge::Lrack),
        38 => Some(Acknowledge::Erack),
        42 => Some(Acknowledge::Hcack),
        44 => Some(Acknowledge::Rspack),
        _ => None,
    }
}

impl Acknowledge {
    /// Its name in the standards.
    fn name(self) -> &'static str {
        match self {
            Acknowledge::Commack => "COMMACK",
            Acknowledge::Oflack => "OFLACK",
            Acknowledge::Onlack => "ONLACK",
            Acknowledge::Eac => "EAC",
            Acknowledge::Tiack => "TIACK",
            Acknowledge::Drack => "DRACK",
            Acknowledge::Lrack => "LRACK",
            Acknowledge::Erack => "ERACK",
            Acknowledge::Hcack => "HCACK",
            Acknowledge::Rspack => "RSPACK",
            Acknowledge::Caack => "CAACK",
            Acknowledge::Ackc5 => "ACKC5",
            Acknowledge::Ackc6 => "ACKC6",
            Acknowledge::Rsda => "RSDA",
            Acknowledge::Objack => "OBJACK",
            Acknowledge::Cpack => "CPACK",
            Acknowledge::Strack => "STRACK",
        }
    }

    /// What a number of it means.
    fn meaning(self, code: u32) -> &'static str {
        match self {
            Acknowledge::Commack => one_of(code, &["accepted", "denied"]),
            Acknowledge::Oflack => one_of(code, &["the tool goes off-line"]),
            Acknowledge::Onlack => one_of(code, &ONLACK),
            Acknowledge::Eac => one_of(code, &EAC),
            Acknowledge::Tiack => one_of(code, &["the clock is set", "no time"]),
            Acknowledge::Drack => one_of(code, &DRACK),
            Acknowledge::Lrack => one_of(code, &LRACK),
            Acknowledge::Erack => one_of(code, &["done", "a CEID is unknown"]),
            Acknowledge::Hcack => one_of(code, &HCACK),
            Acknowledge::Rspack => one_of(
                code,
                &["these streams are spooled, and no others", "refused"],
            ),
            Acknowledge::Caack => one_of(code, &CAACK),
            Acknowledge::Ackc5 => one_of(code, &["accepted", "refused"]),
            Acknowledge::Ackc6 => one_of(code, &["accepted"]),
            Acknowledge::Rsda => one_of(code, &RSDA),
            Acknowledge::Objack => one_of(code, &["the object is created", "it is not created"]),
            Acknowledge::Cpack => one_of(code, &CPACK),
            Acknowledge::Strack => one_of(code, &STRACK),
        }
    }

    /// The number in the item of a message that has it.
    fn code_in(self, item: &Item) -> Option<u32> {
        match self {
            Acknowledge::Commack | Acknowledge::Hcack | Acknowledge::Rspack | Acknowledge::Caack =>
                { first_number(item) }
            Acknowledge::Objack => match parts(item) {
                Some([_, _, errors]) => first_number(errors),
                _ => None,
            },
            _ => number(item),
        }
    }
}

const ONLACK: [&str; 3] = [
    "the tool goes on-line",
    "not allowed: the operator has taken the tool off-line",
    "it is on-line already",
];

const EAC: [&str; 4] = [
    "all are set",
    "an ECID is unknown",
    "",
    "a value is of the wrong kind, or out of its range",
];

const DRACK: [&str; 5] = [
    "done",
    "no space",
    "",
    "a report is defined already",
    "a VID is unknown",
];

const LRACK: [&str; 6] = [
    "done",
    "no space",
    "",
    "a CEID has a link already",
    "a CEID is unknown",
    "an RPTID is not defined",
];

const HCACK: [&str; 7] = [
    "done",
    "the command is unknown",
    "not now",
    "a parameter is faulty, or missing",
    "",
    "done already",
    "there is no such object",
];

const CAACK: [&str; 6] = [
    "done",
    "the action is unknown",
    "not now",
    "a parameter is faulty",
    "",
    "impossible in this state of the port or the carrier",
];

const RSDA: [&str; 3] = ["done", "the notes leave already", "nothing is spooled"];

const CPACK: [&str; 4] = [
    "",
    "the command has no such parameter",
    "the value is none that it can have",
    "the value has the wrong format",
];

const STRACK: [&str; 5] = [
    "",
    "stream 1 is never spooled",
    "a stream that can't be spooled",
    "a function that can't be spooled, and is odd",
    "a function that can't be spooled, and is even",
];

// The meaning at a number's place; a number without one is told as such.
fn one_of(code: u32, meanings: &[&'static str]) -> &'static str {
    match meanings.get(code as usize) {
        Some(meaning) if !meaning.is_empty() => meaning,
        _ => "a code that has no meaning here",
    }
}

// The number of the first item of a list.
fn first_number(item: &Item) -> Option<u32> {
    match parts(item) {
        Some([first, ..]) => number(first),
        _ => None,
    }
}

/// Goes on with a code, and what it means.
pub(crate) fn add_code(
    alloc: Global,
    acknowledge: Acknowledge,
    code: u32,
    out: &mut Remarks,
) -> Result<(), AllocError> {
    out.add(acknowledge.name())?;
    out.add(" ")?;
    out.add_number(alloc, u64::from(code))?;
    out.add(", ")?;
    out.add(acknowledge.meaning(code))
}

/// Goes on with the code of a message, where its item has one.
pub(crate) fn add_code_in(
    alloc: Global,
    acknowledge: Acknowledge,
    item: &Item,
    out: &mut Remarks,
) -> Result<(), AllocError> {
    match acknowledge.code_in(item) {
        Some(code) => {
            out.add(": ")?;
            add_code(alloc, acknowledge, code, out)
        }
        None => Ok(()),
    }
}

// Says what is told of one parameter of a host command, `L[A name, B cpack]`.
fn say_parameter(alloc: Global, item: &Item, out: &mut Remarks) -> Result<(), AllocError> {
    let Some((name, code)) = pair(item) else {
        return Ok(());
    };
    let Some(code) = number(code) else {
        return Ok(());
    };
    out.begin("parameter ")?;
    out.add_item(alloc, name)?;
    out.add(": ")?;
    add_code(alloc, Acknowledge::Cpack, code, out)?;
    out.end()
}

// Says what is told of one stream, `L[U1 stream, B strack, L[U1 function*]]`.
fn say_stream(alloc: Global, item: &Item, out: &mut Remarks) -> Result<(), AllocError> {
    let Some([stream, code, _functions]) = parts(item) else {
        return Ok(());
    };
    let (Some(stream), Some(code)) = (number(stream), number(code)) else {
        return Ok(());
    };
    out.begin("stream ")?;
    out.add_number(alloc, u64::from(stream))?;
    out.add(": ")?;
    add_code(alloc, Acknowledge::Strack, code, out)?;
    out.end()
}

/// Says what is told of each part of what a message answers: the parameters of S2F42 and the streams of S2F44.
pub(crate) fn say_parts(
    alloc: Global,
    acknowledge: Acknowledge,
    item: &Item,
    out: &mut Remarks,
) -> Result<(), AllocError> {
    let Some((_code, listed)) = pair(item) else {
        return Ok(());
    };
    for part in parts(listed).unwrap_or(&[]) {
        match acknowledge {
            Acknowledge::Hcack => say_parameter(alloc, part, out)?,
            Acknowledge::Rspack => say_stream(alloc, part, out)?,
            _ => {}
        }
    }
    Ok(())
}
