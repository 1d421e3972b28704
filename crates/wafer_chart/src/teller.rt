//! How a story comes of what is told of a run.

use crate::lane::{Kind, Lane};
use crate::shot::{Happening, JobShot, Shot};
use crate::story::{Axis, Mark, Story, last_named};
use gem_ids::{CarrierId, SlotNo, Text80, substrate_id};
use std::alloc::{AllocError, Global};

// The code of a slot that has a substrate (SEMI E87, slot map).
const OCCUPIED: u8 = 3;

// The number of the state in which a process job runs (SEMI E40, PROCESSING).
const PROCESSING: u8 = 3;

// Where a substrate is. A chamber is told by its place among the chambers.
#[derive(Clone, Copy, PartialEq, Eq)]
enum Whereabouts {
    Slot,
    Arm,
    Aligner,
    Chamber(usize),
    Work(usize),
}

// A substrate that is in the tool: its name, its carrier, its row, where it is, and whether the last Process of it was done.
#[derive(Clone, Copy)]
struct Wafer {
    name: Text80,
    carrier: Text80,
    lane: usize,
    at: Whereabouts,
    is_done: bool,
}

/// Makes a story of what is told of a run, entry by entry.
#[derive(Drop)]
pub struct Teller {
    story: Story,
    wafers: Vec<Wafer>,
    carriers: Vec<Text80>,
    alarms: Vec<u32>,
}

// The name of a row, of a word and a number.
fn numbered(alloc: Global, word: &str, number: usize) -> Result<Text80, AllocError> {
    let text = format!(in alloc; "{word} {number}")?;
    Ok(Text80::read(text.as_bytes()).unwrap_or(Text80::empty()))
}

// The rows of the ports.
fn port_lanes(alloc: Global, ports: u8) -> Result<Vec<Lane>, AllocError> {
    let mut lanes = Vec::new(alloc);
    for port in 0..ports {
        lanes.push(Lane::new(alloc, numbered(alloc, "port", usize::from(port) + 1)?))?;
    }
    Ok(lanes)
}

// The rows of the modules: the robot, the aligner and the chambers.
fn module_lanes(alloc: Global, chambers: u8) -> Result<Vec<Lane>, AllocError> {
    let mut lanes = Vec::new(alloc);
    for name in ["robot", "aligner"] {
        lanes.push(Lane::new(alloc, text_of(name)))?;
    }
    for chamber in 0..chambers {
        lanes.push(Lane::new(alloc, numbered(alloc, "chamber", usize::from(chamber) + 1)?))?;
    }
    Ok(lanes)
}

// A word as a text.
fn text_of(word: &str) -> Text80 {
    Text80::read(word.as_bytes()).unwrap_or(Text80::empty())
}

// The chamber in which a substrate is.
fn chamber_of(shot: &Shot, name: Text80) -> Option<usize> {
    for (place, held) in shot.chambers.iter().enumerate() {
        if *held == name {
            return Some(place);
        }
    }
    None
}

// Whether the module at this place has a command.
fn is_busy(shot: &Shot, place: usize) -> bool {
    match shot.busy.get(place) {
        Some(busy) => *busy,
        None => false,
    }
}

// Where a substrate is.
fn place_of(shot: &Shot, name: Text80) -> Whereabouts {
    if shot.arm == name {
        return Whereabouts::Arm;
    }
    if shot.aligner == name {
        return Whereabouts::Aligner;
    }
    match chamber_of(shot, name) {
        Some(place) if is_busy(shot, place.saturating_add(2)) => Whereabouts::Work(place),
        Some(place) => Whereabouts::Chamber(place),
        None => Whereabouts::Slot,
    }
}

// What is drawn of a substrate that is there, where it came there from elsewhere.
fn kind_at(at: Whereabouts, is_done: bool) -> Kind {
    match at {
        Whereabouts::Slot if is_done => Kind::Finished,
        Whereabouts::Slot => Kind::Unfinished,
        Whereabouts::Arm => Kind::Arm,
        Whereabouts::Aligner => Kind::Aligner,
        Whereabouts::Chamber(_) => Kind::Chamber,
        Whereabouts::Work(_) => Kind::AtWork,
    }
}

// Whether the Process of a substrate was done, that was worked at in this chamber.
fn is_done_now(happening: &Happening, at: Whereabouts) -> bool {
    match (happening, at) {
        (Happening::Done(module), Whereabouts::Work(place)) => {
            usize::from(*module) == place.saturating_add(3)
        }
        _ => false,
    }
}

// Whether the last Process of a substrate was done, where it was so before or not: what happens brings it from one place to the next.
fn is_done_behind(
    is_done: bool,
    happening: &Happening,
    at: Whereabouts,
    next: Whereabouts,
) -> bool {
    match next {
        Whereabouts::Work(_) => false,
        _ => is_done || is_done_now(happening, at),
    }
}

// What is drawn of a module that is busy, by its place.
fn busy_kind(place: usize) -> Kind {
    match place {
        0 => Kind::Arm,
        1 => Kind::Aligner,
        _ => Kind::AtWork,
    }
}

// Whether a module, by its place, goes down with this.
fn goes_down(happening: &Happening, place: usize) -> bool {
    match happening {
        Happening::Down(module) => usize::from(*module) == place.saturating_add(1),
        _ => false,
    }
}

// Whether it comes up.
fn comes_up(happening: &Happening, place: usize) -> bool {
    match happening {
        Happening::Up(module) => usize::from(*module) == place.saturating_add(1),
        _ => false,
    }
}

// The name of a state of a process job (SEMI E40).
fn state_name(state: u8) -> &'static str {
    match state {
        0 => "QUEUED",
        1 => "SETTING UP",
        2 => "WAITING FOR START",
        3 => "PROCESSING",
        4 => "PROCESS COMPLETE",
        6 => "PAUSING",
        7 => "PAUSED",
        8 => "STOPPING",
        9 => "ABORTING",
        _ => "",
    }
}

// What is drawn of a module, by its place, that was drawn so.
fn next_kind(
    before: Option<Kind>,
    happening: &Happening,
    place: usize,
    busy: bool,
) -> Option<Kind> {
    if goes_down(happening, place) {
        return Some(Kind::Down);
    }
    if before == Some(Kind::Down) && !comes_up(happening, place) {
        return before;
    }
    if busy { Some(busy_kind(place)) } else { None }
}

// Draws a module on as it was, or otherwise where that changes.
fn go_on(
    lane: &mut Lane,
    at: u32,
    happening: &Happening,
    place: usize,
    busy: bool,
) -> Result<(), AllocError> {
    let before = lane.kind();
    let next = next_kind(before, happening, place, busy);
    if next == before {
        return Ok(());
    }
    match next {
        Some(kind) => lane.begin(at, kind, Text80::empty()),
        None => lane.stop(at),
    }
}

// Draws a substrate on in its row, unless it is lost.
fn draw_at(lane: &mut Lane, at: u32, kind: Kind) -> Result<(), AllocError> {
    if lane.kind() == Some(Kind::Lost) {
        return Ok(());
    }
    lane.begin(at, kind, Text80::empty())
}

impl Teller {
    /// A story of a tool with so many load ports and chambers, of which nothing is told yet. `AllocError`, here and in the other calls,
    /// where there is no memory.
    pub fn new(alloc: Global, axis: Axis, ports: u8, chambers: u8) -> Result<Teller, AllocError> {
        let mut story = Story::new(alloc, axis);
        story.carriers = port_lanes(alloc, ports)?;
        story.modules = module_lanes(alloc, chambers)?;
        Ok(Teller {
            story,
            wafers: Vec::new(alloc),
            carriers: vec![in alloc; Text80::empty(); usize::from(ports)]?,
            alarms: Vec::new(alloc),
        })
    }

    /// An entry is told: where on the axis it stands, what it is, and what the tool has behind it.
    pub fn tell(
        &mut self,
        alloc: Global,
        at: u32,
        happening: &Happening,
        shot: &Shot,
    ) -> Result<(), AllocError> {
        self.story.entries = self.story.entries.saturating_add(1);
        self.tell_ports(alloc, at, happening, shot)?;
        self.tell_loss(at, happening)?;
        self.tell_wafers(at, happening, shot)?;
        self.tell_modules(at, happening, shot)?;
        self.tell_alarms(at, shot)?;
        self.tell_jobs(alloc, at, shot)
    }

    /// The story, which ends at this place of the axis.
    pub fn finish(self, end: u32) -> Result<Story, AllocError> {
        let Teller {
            mut story,
            wafers: _,
            carriers: _,
            alarms: _,
        } = self;
        story.finish(end)?;
        Ok(story)
    }

    // ---- carriers

    fn tell_ports(
        &mut self,
        alloc: Global,
        at: u32,
        happening: &Happening,
        shot: &Shot,
    ) -> Result<(), AllocError> {
        for (place, carrier) in shot.carriers.iter().enumerate() {
            self.tell_port(alloc, at, happening, place, *carrier)?;
        }
        Ok(())
    }

    // What is at a port.
    fn tell_port(
        &mut self,
        alloc: Global,
        at: u32,
        happening: &Happening,
        place: usize,
        carrier: Text80,
    ) -> Result<(), AllocError> {
        let Some(before) = self.carriers.get_mut(place) else {
            return Ok(());
        };
        if *before == carrier {
            return Ok(());
        }
        let gone = *before;
        *before = carrier;
        self.leave(at, gone)?;
        if let Some(lane) = self.story.carriers.get_mut(place) {
            lane.stop(at)?;
            if !carrier.is_empty() {
                lane.begin(at, Kind::There, carrier)?;
            }
        }
        match happening {
            Happening::Placed(port, map) if usize::from(*port) == place.saturating_add(1) => {
                self.arrive(alloc, at, carrier, map)
            }
            _ => Ok(()),
        }
    }

    // The substrates of a carrier are there, by its slot map.
    fn arrive(
        &mut self,
        alloc: Global,
        at: u32,
        carrier: Text80,
        map: &[u8; 25],
    ) -> Result<(), AllocError> {
        let Some(id) = CarrierId::read(carrier) else {
            return Ok(());
        };
        for index in 0..25u8 {
            if map[usize::from(index)] == OCCUPIED {
                let name = substrate_id(id, SlotNo(index + 1)).text();
                self.add_wafer(alloc, at, carrier, name)?;
            }
        }
        Ok(())
    }

    // A substrate is there, in its slot.
    fn add_wafer(
        &mut self,
        alloc: Global,
        at: u32,
        carrier: Text80,
        name: Text80,
    ) -> Result<(), AllocError> {
        let mut lane = Lane::new(alloc, name);
        lane.begin(at, Kind::Slot, Text80::empty())?;
        self.wafers.push(Wafer {
            name,
            carrier,
            lane: self.story.substrates.len(),
            at: Whereabouts::Slot,
            is_done: false,
        })?;
        self.story.substrates.push(lane)?;
        Ok(())
    }

    // The substrates of a carrier are gone with it.
    fn leave(&mut self, at: u32, carrier: Text80) -> Result<(), AllocError> {
        for wafer in &self.wafers {
            if wafer.carrier == carrier
                && let Some(lane) = self.story.substrates.get_mut(wafer.lane)
            {
                lane.stop(at)?;
            }
        }
        self.wafers.retain(|wafer| wafer.carrier != carrier);
        Ok(())
    }

    // ---- substrates

    // A substrate is lost: its row says so until its carrier is gone.
    fn tell_loss(&mut self, at: u32, happening: &Happening) -> Result<(), AllocError> {
        let Happening::Lost(name) = happening else {
            return Ok(());
        };
        let Some(place) = last_named(&self.story.substrates, *name) else {
            return Ok(());
        };
        match self.story.substrates.get_mut(place) {
            Some(lane) => lane.begin(at, Kind::Lost, Text80::empty()),
            None => Ok(()),
        }
    }

    fn tell_wafers(
        &mut self,
        at: u32,
        happening: &Happening,
        shot: &Shot,
    ) -> Result<(), AllocError> {
        for wafer in &mut self.wafers {
            let next = place_of(shot, wafer.name);
            if next != wafer.at {
                wafer.is_done = is_done_behind(wafer.is_done, happening, wafer.at, next);
                wafer.at = next;
                if let Some(lane) = self.story.substrates.get_mut(wafer.lane) {
                    draw_at(lane, at, kind_at(next, wafer.is_done))?;
                }
            }
        }
        Ok(())
    }

    // ---- modules, alarms and jobs

    fn tell_modules(
        &mut self,
        at: u32,
        happening: &Happening,
        shot: &Shot,
    ) -> Result<(), AllocError> {
        let mut place: usize = 0;
        for lane in &mut self.story.modules {
            go_on(lane, at, happening, place, is_busy(shot, place))?;
            place = place.saturating_add(1);
        }
        Ok(())
    }

    fn tell_alarms(&mut self, at: u32, shot: &Shot) -> Result<(), AllocError> {
        for alarm in &shot.alarms {
            if !self.alarms.contains(alarm) {
                self.story.marks.push(Mark { at, alarm: *alarm })?;
            }
        }
        self.alarms.clear();
        self.alarms.extend_from_slice(&shot.alarms)
    }

    fn tell_jobs(&mut self, alloc: Global, at: u32, shot: &Shot) -> Result<(), AllocError> {
        for lane in &mut self.story.jobs {
            if !is_listed(&shot.jobs, lane.name()) {
                lane.stop(at)?;
            }
        }
        for job in &shot.jobs {
            self.tell_job(alloc, at, *job)?;
        }
        Ok(())
    }

    // A process job is in a state. Its row has a span for each state.
    fn tell_job(&mut self, alloc: Global, at: u32, job: JobShot) -> Result<(), AllocError> {
        let words = text_of(state_name(job.state));
        let kind = if job.state == PROCESSING {
            Kind::Running
        } else {
            Kind::There
        };
        if let Some(place) = last_named(&self.story.jobs, job.name)
            && let Some(lane) = self.story.jobs.get_mut(place)
            && lane.kind().is_some()
        {
            if lane.words() != words {
                lane.begin(at, kind, words)?;
            }
            return Ok(());
        }
        let mut lane = Lane::new(alloc, job.name);
        lane.begin(at, kind, words)?;
        self.story.jobs.push(lane)?;
        Ok(())
    }
}

// Whether a job of this name is among these.
fn is_listed(jobs: &[JobShot], name: Text80) -> bool {
    for job in jobs {
        if job.name == name {
            return true;
        }
    }
    false
}
