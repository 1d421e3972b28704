//! How a lot of a seed begins: the carriers that come, and what the host asks. A truth value tells whether it goes as is wanted.

use crate::drawn::Counts;
use crate::played::Played;
use crate::tool::Tool;
use gem_ids::{CarrierId, PortNo, Text80};
use sim_modules::draw;
use std::alloc::Global;
use tool_events::{Event, Signal};

/// How the process jobs of a lot lie over its carriers. All of them are of one control job.
#[derive(Clone, Copy)]
pub(crate) enum Shape {
    One,
    Shared,
    Each,
    Both,
}

/// Draws a number from 1 to `most`, by the upper 32 bits of what comes behind the last that was drawn.
pub(crate) fn up_to(last: &mut u64, most: u64) -> u64 {
    *last = draw(*last);
    (*last >> 32)
        .checked_rem(most)
        .unwrap_or(0)
        .saturating_add(1)
}

// The map of a carrier with so many substrates, which stand in its first slots.
fn map_of(substrates: u64) -> [u8; 25] {
    let mut map = [1; 25];
    for slot in 0..25 {
        if (slot as u64) < substrates {
            map[slot] = 3;
        }
    }
    map
}

// Adds the slots behind this one to the last, in words of items.
fn push_slots(words: &mut String, from: u64, last: u64) -> bool {
    for slot in from.saturating_add(1)..last.saturating_add(1) {
        if write!(words, ", U1 {slot}").is_err() {
            return false;
        }
    }
    true
}

// Adds the material of a job over these slots of the carrier of a port.
fn push_material(words: &mut String, port: u64, from: u64, last: u64) -> bool {
    write!(words, "L[A CAR{port}, L[U1 {from}").is_ok()
        && push_slots(words, from, last)
        && words.push_str("]]").is_ok()
}

// Adds all of the carrier of a port, as the material of a job.
fn push_all(words: &mut String, port: u64) -> bool {
    write!(words, "L[A CAR{port}, L[]]").is_ok()
}

// Adds all of the carriers of two ports.
fn push_both(words: &mut String, first: u64, second: u64) -> bool {
    push_all(words, first) && words.push_str(", ").is_ok() && push_all(words, second)
}

// The name of the carrier of a port.
fn carrier_of(alloc: Global, port: u64) -> Option<Text80> {
    match format!(in alloc; "CAR{port}") {
        Ok(name) => Text80::read(name.as_bytes()).ok(),
        Err(_) => None,
    }
}

// The messages that create the first process job, by recipe R1, and the second, by R2, over the material that stands between what begins
// and what ends them. Each starts by itself.
const FIRST_JOB: [&str; 2] = [
    "S16F11 W 4 L[U4 0, A PJ1, B 0D, L[",
    "], L[U1 1, A R1, L[]], BOOL true, L[]]",
];

const SECOND_JOB: [&str; 2] = [
    "S16F11 W 4 L[U4 0, A PJ2, B 0D, L[",
    "], L[U1 1, A R2, L[]], BOOL true, L[]]",
];

// The messages that create a control job of the first process job, and of both.
const CONTROL_JOB: &str =
    "S14F9 W 5 L[A Equipment, A ControlJob, L[L[A ObjID, A CJ1], L[A ProcessingCtrlSpec, L[A PJ1]]]]";

const CONTROL_JOB_OF_BOTH: &str =
    "S14F9 W 5 L[A Equipment, A ControlJob, L[L[A ObjID, A CJ1], L[A ProcessingCtrlSpec, L[A PJ1, A PJ2]]]]";

fn control_job(shape: Shape) -> &'static str {
    match shape {
        Shape::One | Shape::Both => CONTROL_JOB,
        Shape::Shared | Shape::Each => CONTROL_JOB_OF_BOTH,
    }
}

// The signal by which a carrier of this name with so many substrates comes to a port.
fn placed(port: u8, name: Text80, substrates: u64) -> Event {
    Event::Signal(Signal::Placed {
        port: PortNo(port),
        id: CarrierId::read(name),
        map: map_of(substrates),
    })
}

impl<T: Tool> Played<T> {
    // A carrier with so many substrates comes to a port.
    fn place(&mut self, alloc: Global, port: u64, substrates: u64) -> bool {
        match (u8::try_from(port), carrier_of(alloc, port)) {
            (Ok(port), Some(name)) => self.post(alloc, placed(port, name, substrates)),
            _ => false,
        }
    }

    // The host proceeds with the carrier of a port, for its id and for its slot map.
    fn proceed(&mut self, alloc: Global, port: u64) -> bool {
        let words = format!(in alloc;
            "S3F17 W 3 L[U4 0, A ProceedWithCarrier, A CAR{port}, U1 {port}, L[]]"
        );
        match words {
            Ok(words) => self.send(alloc, words.as_str()) && self.send(alloc, words.as_str()),
            Err(_) => false,
        }
    }

    // A carrier comes to a port, and the host proceeds with it. How many substrates it has is drawn, and given.
    fn receive(&mut self, alloc: Global, port: u64) -> Option<u64> {
        let substrates = up_to(&mut self.last, 25);
        if self.place(alloc, port, substrates) && self.proceed(alloc, port) {
            Some(substrates)
        } else {
            None
        }
    }

    // The host creates a process job over this material, by a message that begins and ends so.
    fn create(&mut self, alloc: Global, job: [&str; 2], material: &str) -> bool {
        let [begin, end] = job;
        match format!(in alloc; "{begin}{material}{end}") {
            Ok(words) => self.send(alloc, words.as_str()),
            Err(_) => false,
        }
    }

    // The same over all of the carrier of a port.
    fn create_over_all(&mut self, alloc: Global, job: [&str; 2], port: u64) -> bool {
        let mut material = String::new(alloc);
        push_all(&mut material, port) && self.create(alloc, job, material.as_str())
    }

    // The same over these slots of the carrier of a port.
    fn create_over(
        &mut self,
        alloc: Global,
        job: [&str; 2],
        port: u64,
        from: u64,
        last: u64,
    ) -> bool {
        let mut material = String::new(alloc);
        push_material(&mut material, port, from, last) && self.create(alloc, job, material.as_str())
    }

    // So many substrates, which recipe R1 processes, and so many more, which R2 does, and the commands that they take.
    fn counts(&self, substrates: u64, more: u64) -> Counts {
        Counts {
            substrates: substrates.saturating_add(more),
            dones: self.plant.dones(substrates, more),
        }
    }

    fn begin_one(&mut self, alloc: Global) -> Option<Counts> {
        let port = up_to(&mut self.last, self.plant.ports);
        match self.receive(alloc, port) {
            Some(substrates) if self.create_over_all(alloc, FIRST_JOB, port) => {
                Some(self.counts(substrates, 0))
            }
            _ => None,
        }
    }

    // The first process job has the slots from the first on, the second those to the last, and one at least is of both: what stands in
    // such a slot is processed by the first.
    fn create_shared(&mut self, alloc: Global, port: u64, substrates: u64) -> Option<Counts> {
        let end = up_to(&mut self.last, substrates);
        let begin = up_to(&mut self.last, end);
        if self.create_over(alloc, FIRST_JOB, port, 1, end)
            && self.create_over(alloc, SECOND_JOB, port, begin, substrates)
        {
            Some(self.counts(end, substrates.saturating_sub(end)))
        } else {
            None
        }
    }

    fn begin_shared(&mut self, alloc: Global) -> Option<Counts> {
        let port = up_to(&mut self.last, self.plant.ports);
        match self.receive(alloc, port) {
            Some(substrates) => self.create_shared(alloc, port, substrates),
            None => None,
        }
    }

    // Two ports: one that is drawn, and the next, which is port 1 behind the last.
    fn two_ports(&mut self) -> (u64, u64) {
        let first = up_to(&mut self.last, self.plant.ports);
        if first < self.plant.ports {
            (first, first.saturating_add(1))
        } else {
            (first, 1)
        }
    }

    // Two carriers come to these ports, and give how many substrates they have.
    fn receive_two(&mut self, alloc: Global, first: u64, second: u64) -> Option<(u64, u64)> {
        let Some(substrates) = self.receive(alloc, first) else {
            return None;
        };
        match self.receive(alloc, second) {
            Some(more) => Some((substrates, more)),
            None => None,
        }
    }

    fn create_each(&mut self, alloc: Global, first: u64, second: u64) -> bool {
        self.create_over_all(alloc, FIRST_JOB, first)
            && self.create_over_all(alloc, SECOND_JOB, second)
    }

    fn begin_each(&mut self, alloc: Global) -> Option<Counts> {
        let (first, second) = self.two_ports();
        match self.receive_two(alloc, first, second) {
            Some((substrates, more)) if self.create_each(alloc, first, second) => {
                Some(self.counts(substrates, more))
            }
            _ => None,
        }
    }

    fn create_both(&mut self, alloc: Global, first: u64, second: u64) -> bool {
        let mut material = String::new(alloc);
        push_both(&mut material, first, second) && self.create(alloc, FIRST_JOB, material.as_str())
    }

    fn begin_both(&mut self, alloc: Global) -> Option<Counts> {
        let (first, second) = self.two_ports();
        match self.receive_two(alloc, first, second) {
            Some((substrates, more)) if self.create_both(alloc, first, second) => {
                Some(self.counts(substrates.saturating_add(more), 0))
            }
            _ => None,
        }
    }

    // Carriers come, and process jobs of them are created. Gives how many substrates there are, and how many commands they take.
    fn begin_jobs(&mut self, alloc: Global, shape: Shape) -> Option<Counts> {
        match shape {
            Shape::One => self.begin_one(alloc),
            Shape::Shared => self.begin_shared(alloc),
            Shape::Each => self.begin_each(alloc),
            Shape::Both => self.begin_both(alloc),
        }
    }

    // A link comes up, on which the host has CEID 1508 alone told.
    fn connect(&mut self, alloc: Global) -> bool {
        self.post(alloc, Event::LinkUp)
            && self.send(alloc, "Select.req 1")
            && self.send(alloc, "S2F37 W 2 L[BOOL true, L[U4 1508]]")
    }

    // A control job of the process jobs is created, and what is to be fetched then is.
    fn start(&mut self, alloc: Global, shape: Shape) -> bool {
        self.send(alloc, control_job(shape)) && self.fetch_all(alloc)
    }

    /// A link comes up, on which the host has CEID 1508 alone told, carriers come, and process jobs and a control job of them are
    /// created. Gives how many substrates there are, and how many commands they take where nothing disturbs them.
    pub(crate) fn begin(&mut self, alloc: Global, shape: Shape) -> Option<Counts> {
        if !self.connect(alloc) {
            return None;
        }
        match self.begin_jobs(alloc, shape) {
            Some(wanted) if self.start(alloc, shape) => Some(wanted),
            _ => None,
        }
    }
}
