//! Doors in memory.

use crate::ends::{PatientIn, TellingOut, patient_link};
use crate::frames::{SELECT, SELECTED};
use crate::given::{Given, Limits, fails_of};
use crate::signs::LinkSigns;
use outside::{MemDoor, MemIn, MemOut, MemSink};
use std::alloc::{AllocError, Global};
use std::time;

/// A door with one link, whose peer sends bytes and then waits.
pub type PatientDoor<'a, R> = MemDoor<PatientIn<'a, R>, TellingOut<'a>>;

/// A door with one link of these limits, whose peer sends these bytes and then waits.
pub fn patient_door<'a, R: time::Clock + Sync>(
    rt: &'a R,
    alloc: Global,
    bytes: &[u8],
    limits: Limits,
    signs: &'a LinkSigns,
) -> Result<PatientDoor<'a, R>, AllocError> {
    let mut links = Vec::new(alloc);
    links.push(patient_link(rt, alloc, bytes, limits, signs)?)?;
    MemDoor::new(alloc, links, Vec::new(alloc))
}

/// A door with three links, each of which has a peer that sends what is given and then waits. The first two have the same signs.
pub fn three_links_door<'a, R: time::Clock + Sync>(
    rt: &'a R,
    alloc: Global,
    given: &Given,
    earlier: &'a LinkSigns,
    last: &'a LinkSigns,
) -> Result<PatientDoor<'a, R>, AllocError> {
    let mut links = Vec::new(alloc);
    for signs in [earlier, earlier, last] {
        links.push(patient_link(rt, alloc, &given.peer, given.limits, signs)?)?;
    }
    MemDoor::new(alloc, links, Vec::new(alloc))
}

/// Whether the only link was handed back, and the select response went out over it.
pub fn is_selected<R>(door: &PatientDoor<'_, R>) -> bool {
    match door.backs() {
        [(_, link_out)] => link_out.as_bytes() == SELECTED.as_slice(),
        _ => false,
    }
}

/// The links of a door.
pub type Links = Vec<(MemIn, MemOut)>;

/// A door of these links, with these limits.
pub fn door_of(alloc: Global, links: Links, limits: Limits) -> Result<MemDoor, AllocError> {
    let door = MemDoor::new(alloc, links, fails_of(alloc, limits.door_fault)?)?;
    Ok(if limits.is_closed {
        door.with_end()
    } else {
        door
    })
}

/// One link, whose peer selects and goes away.
pub fn hasty_links(alloc: Global) -> Result<Links, AllocError> {
    let link_in = MemIn::new(Vec::from_slice(alloc, &SELECT)?, Vec::new(alloc));
    let link_out = MemOut::new(MemSink::new(alloc, Vec::new(alloc)));
    let mut links = Vec::new(alloc);
    links.push((link_in, link_out))?;
    Ok(links)
}

// What the host's reader may post where the operator ends the run meanwhile: the last of each is answered `Ended`.
const RACES: [&str; 3] = [
    "LinkUp",
    "LinkUp Host Listen",
    "LinkUp Host LinkDown { session: 1, cause: PeerEnd } Listen",
];

/// Whether the words are of one of these races.
pub fn is_race(words: Option<&str>) -> bool {
    for race in RACES {
        if words == Some(race) {
            return true;
        }
    }
    false
}

/// The link is handed back, and it holds a front of the select response.
pub fn holds_a_front(door: &MemDoor) -> bool {
    match door.backs() {
        [(_, link_out)] => SELECTED.starts_with(link_out.sink.as_bytes()),
        _ => false,
    }
}
