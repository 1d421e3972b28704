//! A core that is asked what it has.

ghost use Rattle.tool_events.specs.Configs.{IsConfig};

use event_reports::Values;
use gem_ids::{CmdNo, ModuleId, Moment, Text80};
use hsms_frame::{Arrival, Bytes, Frame, Header};
use secs_items::{Item, read_one};
use std::alloc::{AllocError, Global};
use tool_core::{Core, Recorder};
use tool_events::{Answer, Config, Event};
use wafer_chart::{JobShot, Shot};

// What is asked raises no moment.
const AT_ONCE: Moment = Moment(0);

// The seat that asks.
const SEAT: u32 = 0;

// The numbers of variables (docs/profile/variables.md).
const ALARMS_SET: u32 = 8;

const JOB_COUNT: u32 = 9;

const ARM: u32 = 12;

const ALIGNER: u32 = 13;

const CHAMBER: u32 = 20;

const TRANSFER: u32 = 30;

const CARRIER: u32 = 50;

// Bytes 2 and 3 of the headers of S16F19, with its W-bit, and of S16F20.
const ASKS: (u8, u8) = (0x90, 19);

const TELLS: (u8, u8) = (16, 20);

/// A core with its configuration, and the process jobs that it told of last.
#[derive(Drop)]
pub(crate) struct Tool {
    core: Core,
    device: u16,
    ports: u8,
    chambers: u8,
    jobs: Vec<JobShot>,
}

// An item's text, empty where it is none.
fn text_in(item: &Item) -> Text80 {
    match item {
        Item::Ascii(bytes) => Text80::read(bytes.as_slice()).unwrap_or(Text80::empty()),
        _ => Text80::empty(),
    }
}

// An item's first number, 0 where there is none.
fn number_in(item: &Item) -> u32 {
    match item {
        Item::U1(numbers) => numbers.as_slice().first().map_or(0, |n| u32::from(*n)),
        Item::U2(numbers) => numbers.as_slice().first().map_or(0, |n| u32::from(*n)),
        _ => 0,
    }
}

// A process job, by what S16F20 tells of it.
fn job_in(item: &Item) -> Option<JobShot> {
    let Item::List(parts) = item else {
        return None;
    };
    let [name, state] = parts.as_slice() else {
        return None;
    };
    Some(JobShot {
        name: text_in(name),
        state: number_in(state).min(255) as u8,
    })
}

// The process jobs that S16F20 tells of.
fn jobs_in(alloc: Global, item: &Item) -> Result<Vec<JobShot>, AllocError> {
    let mut jobs = Vec::new(alloc);
    if let Item::List(parts) = item {
        for part in parts.as_slice() {
            if let Some(job) = job_in(part) {
                jobs.push(job)?;
            }
        }
    }
    Ok(jobs)
}

// The process jobs that a frame tells of, where it is an S16F20.
fn told_jobs(alloc: Global, frame: &[u8]) -> Result<Option<Vec<JobShot>>, AllocError> {
    let Some(stream) = frame.get(6) else {
        return Ok(None);
    };
    let (Some(function), Some(text)) = (frame.get(7), frame.get(14..)) else {
        return Ok(None);
    };
    if (*stream, *function) != TELLS {
        return Ok(None);
    }
    match read_one(alloc, text)? {
        Some(item) => Ok(Some(jobs_in(alloc, &item)?)),
        None => Ok(None),
    }
}

// Each call of the core stands in a function of its own, without a clause: its contracts are long, and those of several of them in view
// take long to prove.

// Posts an event. What the core answers, where it takes it.
#[inline(never)]
fn post(core: &mut Core, alloc: Global, seat: u32, at: Moment, event: Event) -> Option<Answer> {
    core.apply(alloc, seat, at, event).ok()
}

// The session that is up.
#[inline(never)]
fn session(core: &Core) -> Option<u64> {
    core.session_up()
}

// The value of a variable.
#[inline(never)]
fn value(core: &Core, alloc: Global, vid: u32) -> Result<Option<Item>, AllocError> {
    core.value(alloc, vid)
}

// The number of the command that a module has, and fetched.
#[inline(never)]
fn command_of(core: &Core, m: ModuleId) -> Option<CmdNo> {
    if core.is_whole() {
        core.fetched_number(m)
    } else {
        None
    }
}

impl Tool {
    /// A core in its first state.
    pub(crate) fn open(alloc: Global, config: &Config) -> Result<Tool, AllocError>
        requires { IsConfig config.now }
    {
        Ok(Tool {
            core: Core::open(alloc, config)?,
            device: config.device,
            ports: config.ports,
            chambers: config.chambers,
            jobs: Vec::new(alloc),
        })
    }

    /// Plays an entry to it, and tells its answer, where it has one. Frames that wait are taken.
    pub(crate) fn play(
        &mut self,
        alloc: Global,
        seat: u32,
        at: Moment,
        event: Event,
    ) -> Result<Option<Answer>, AllocError> {
        let answer = post(&mut self.core, alloc, seat, at, event);
        self.take_all(alloc)?;
        Ok(answer)
    }

    // Takes each frame that waits. The last that tells of process jobs counts.
    fn take_all(&mut self, alloc: Global) -> Result<(), AllocError> {
        let Some(session) = session(&self.core) else {
            return Ok(());
        };
        for _ in 0..u64::MAX {
            match post(
                &mut self.core,
                alloc,
                SEAT,
                AT_ONCE,
                Event::Take { session },
            ) {
                Some(Answer::Frame(frame)) => {
                    if let Some(jobs) = told_jobs(alloc, frame.as_slice())? {
                        self.jobs = jobs;
                    }
                }
                _ => return Ok(()),
            }
        }
        Ok(())
    }

    // Asks for the process jobs, as a host does, where a session is up.
    fn ask_jobs(&mut self, alloc: Global) -> Result<(), AllocError> {
        let Some(session) = session(&self.core) else {
            return Ok(());
        };
        let header = Header {
            session: self.device,
            byte2: ASKS.0,
            byte3: ASKS.1,
            ptype: 0,
            stype: 0,
            system: u32::MAX,
        };
        let frame = Frame {
            header,
            text: Bytes::from_vec(Vec::new(alloc)),
        };
        let arrival = Arrival::Frame(frame);
        let _ = post(
            &mut self.core,
            alloc,
            SEAT,
            AT_ONCE,
            Event::Host { session, arrival },
        );
        self.take_all(alloc)
    }

    // Asks for the process jobs where there are some; where there are none none is told.
    fn look_at_jobs(&mut self, alloc: Global) -> Result<(), AllocError> {
        if self.number(alloc, JOB_COUNT)? == 0 {
            self.jobs.clear();
            return Ok(());
        }
        self.ask_jobs(alloc)
    }

    // The text of a variable, empty where there is none.
    fn text(&self, alloc: Global, vid: u32) -> Result<Text80, AllocError> {
        match value(&self.core, alloc, vid)? {
            Some(item) => Ok(text_in(&item)),
            None => Ok(Text80::empty()),
        }
    }

    // The number of a variable, 0 where there is none.
    fn number(&self, alloc: Global, vid: u32) -> Result<u32, AllocError> {
        match value(&self.core, alloc, vid)? {
            Some(item) => Ok(number_in(&item)),
            None => Ok(0),
        }
    }

    // The alarms that are set.
    fn alarms(&self, alloc: Global) -> Result<Vec<u32>, AllocError> {
        match &value(&self.core, alloc, ALARMS_SET)? {
            Some(Item::U4(numbers)) => Vec::from_slice(alloc, numbers.as_slice()),
            _ => Ok(Vec::new(alloc)),
        }
    }

    // The carrier that is present at a port, empty where none is: the port is TRANSFER BLOCKED or READY TO UNLOAD.
    fn carrier_at(&self, alloc: Global, port: u32) -> Result<Text80, AllocError> {
        let transfer = self.number(alloc, TRANSFER.saturating_add(port))?;
        if transfer == 1 || transfer == 3 {
            self.text(alloc, CARRIER.saturating_add(port))
        } else {
            Ok(Text80::empty())
        }
    }

    fn carriers(&self, alloc: Global) -> Result<Vec<Text80>, AllocError> {
        let mut carriers = Vec::new(alloc);
        for port in 0..self.ports {
            carriers.push(self.carrier_at(alloc, u32::from(port) + 1)?)?;
        }
        Ok(carriers)
    }

    fn chambers(&self, alloc: Global) -> Result<Vec<Text80>, AllocError> {
        let mut held = Vec::new(alloc);
        for chamber in 0..self.chambers {
            held.push(self.text(alloc, CHAMBER + 1 + u32::from(chamber))?)?;
        }
        Ok(held)
    }

    /// Whether a module has the command of this number.
    pub(crate) fn has_command(&self, m: ModuleId, n: CmdNo) -> bool {
        command_of(&self.core, m) == Some(n)
    }

    // Which modules have a command that they fetched: the robot, the aligner, and the chambers.
    fn busy(&self, alloc: Global) -> Result<Vec<bool>, AllocError> {
        let mut busy = Vec::new(alloc);
        for place in 0..self.chambers.saturating_add(2) {
            busy.push(command_of(&self.core, ModuleId(place.saturating_add(1))).is_some())?;
        }
        Ok(busy)
    }

    /// What it has.
    pub(crate) fn shot(&mut self, alloc: Global) -> Result<Shot, AllocError> {
        self.look_at_jobs(alloc)?;
        Ok(Shot {
            carriers: self.carriers(alloc)?,
            arm: self.text(alloc, ARM)?,
            aligner: self.text(alloc, ALIGNER)?,
            chambers: self.chambers(alloc)?,
            busy: self.busy(alloc)?,
            alarms: self.alarms(alloc)?,
            jobs: Vec::from_slice(alloc, &self.jobs)?,
        })
    }
}
