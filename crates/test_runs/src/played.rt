//! A tool that a lot is played to: what it is told, and what it hands out. A truth value tells whether the lot goes as is wanted.

use crate::events::frame;
use crate::plant::Plant;
use crate::tool::Tool;
use conversation_files::spelled;
use gem_ids::{ModuleId, Moment, Text80};
use hsms_frame::{Arrival, Frame};
use item_model::Item;
use std::alloc::Global;
use tool_events::{Answer, Event, OperCmd, PostFault, Signal};
use tool_tasks::{Command, Task};

/// What disturbs a lot, until it has come: an open command fails; a module with one goes down; the host stops the process job that
/// runs; the operator says that a substrate is lost.
#[derive(Clone, Copy)]
pub(crate) enum Awaited {
    Nothing,
    Failed,
    Down,
    Stop,
    Lost,
}

/// A command that was fetched and has not ended, and its module.
#[derive(Clone, Copy)]
pub(crate) struct Fetched {
    pub(crate) module: ModuleId,
    pub(crate) command: Command,
}

/// A tool, what it answered last, and its plant; what was drawn last; the commands that were fetched and have not
/// ended, and how many have; the names of what is on the arm, at the aligner and in the chambers; how often a control job was told
/// to be COMPLETED; what disturbs the lot, and the module that is Down by it; and why it goes otherwise, where it does.
#[derive(Drop)]
pub(crate) struct Played<T> {
    tool: T,
    answer: Result<Answer, PostFault>,
    pub(crate) plant: Plant,
    pub(crate) last: u64,
    pub(crate) open: Vec<Fetched>,
    pub(crate) ended: u64,
    pub(crate) outside: Vec<Text80>,
    pub(crate) told: u64,
    pub(crate) awaited: Awaited,
    pub(crate) down: Option<ModuleId>,
    pub(crate) why: &'static str,
}

// Whether a frame tells that a control job is COMPLETED: it is S6F11 of CEID 1508.
fn is_completion(frame: &[u8]) -> bool {
    matches!(frame.get(6..8), Some([0x86, 11]))
        && matches!(frame.get(28..32), Some([0, 0, 0x05, 0xE4]))
}

// How many control jobs a frame that was taken tells to be COMPLETED.
fn completions(answer: &Result<Answer, PostFault>) -> u64 {
    match answer {
        Ok(Answer::Frame(frame)) if is_completion(frame.as_slice()) => 1,
        _ => 0,
    }
}

fn command_of(answer: &Result<Answer, PostFault>) -> Option<Command> {
    match answer {
        Ok(Answer::Command(command)) => Some(*command),
        _ => None,
    }
}

// The name of a variable's value, empty where it has none.
fn name_of<T: Tool>(alloc: Global, tool: &T, variable: u32) -> Option<Text80> {
    match &tool.value(alloc, variable) {
        Some(Some(Item::Ascii(name))) => Text80::read(name.as_slice()).ok(),
        Some(_) => Some(Text80::empty()),
        None => None,
    }
}

fn is_among(name: Text80, names: &[Text80]) -> bool {
    for other in names {
        if other.as_bytes() == name.as_bytes() {
            return true;
        }
    }
    false
}

// The frame of the message of these words.
fn frame_of(alloc: Global, words: &str) -> Option<Frame> {
    match spelled(alloc, words) {
        Ok(digits) => {
            let digits = digits.as_str();
            frame(alloc, digits.get(8..28)?, digits.get(28..)?)
        }
        Err(_) => None,
    }
}

impl<T: Tool> Played<T> {
    pub(crate) fn new(alloc: Global, tool: T, last: u64, plant: Plant) -> Played<T> {
        Played {
            tool,
            answer: Ok(Answer::Done),
            plant,
            last,
            open: Vec::new(alloc),
            ended: 0,
            outside: Vec::new(alloc),
            told: 0,
            awaited: Awaited::Nothing,
            down: None,
            why: "an event is not taken, or there is no memory",
        }
    }

    /// The lot goes otherwise, for this reason.
    pub(crate) fn wrong(&mut self, why: &'static str) -> bool {
        self.why = why;
        false
    }

    // ---- what it is told

    // Tells an event, and keeps what is answered.
    fn tell(&mut self, alloc: Global, event: Event) {
        self.answer = self.tool.post(alloc, Moment(0), event);
    }

    /// An event that is taken.
    pub(crate) fn post(&mut self, alloc: Global, event: Event) -> bool {
        self.tell(alloc, event);
        matches!(
            self.answer,
            Ok(Answer::Done | Answer::Session(1) | Answer::Oper(true))
        )
    }

    /// What the equipment tells of an open command, which has ended by it.
    pub(crate) fn end(&mut self, alloc: Global, signal: Signal) -> bool {
        self.ended = self.ended.saturating_add(1);
        self.post(alloc, Event::Signal(signal))
    }

    /// Whether an operator's command is accepted.
    pub(crate) fn operate(&mut self, alloc: Global, command: OperCmd) -> Option<bool> {
        self.tell(alloc, Event::Oper(command));
        match self.answer {
            Ok(Answer::Oper(accepted)) => Some(accepted),
            _ => None,
        }
    }

    // The host sends a frame in session 1.
    fn send_frame(&mut self, alloc: Global, frame: Frame) -> bool {
        let arrival = Arrival::Frame(frame);
        self.post(
            alloc,
            Event::Host {
                session: 1,
                arrival,
            },
        )
    }

    /// The host sends the message of these words in session 1.
    pub(crate) fn send(&mut self, alloc: Global, words: &str) -> bool {
        match frame_of(alloc, words) {
            Some(frame) => self.send_frame(alloc, frame),
            None => false,
        }
    }

    // ---- what it hands out

    // Whether what was wanted is not there.
    fn is_again(&self) -> bool {
        matches!(self.answer, Err(PostFault::Again))
    }

    // Takes the next frame that waits. False: there is none.
    fn take(&mut self, alloc: Global) -> bool {
        self.tell(alloc, Event::Take { session: 1 });
        self.told = self.told.saturating_add(completions(&self.answer));
        matches!(self.answer, Ok(Answer::Frame(_)))
    }

    // The frames that wait are taken, which are never many.
    fn take_all(&mut self, alloc: Global) -> bool {
        for _ in 0..20 {
            if !self.take(alloc) {
                return self.is_again();
            }
        }
        false
    }

    // A module fetches its command, where it has one.
    fn fetch(&mut self, alloc: Global, module: ModuleId) -> bool {
        // The borrow checker has to be told here of the type that a command holds.
        let _: Option<Task> = None;
        self.tell(alloc, Event::Fetch(module));
        match command_of(&self.answer) {
            Some(command) => self.open.push(Fetched { module, command }).is_ok(),
            None => self.is_again(),
        }
    }

    // All modules fetch, of which there are ten at most.
    fn fetch_each(&mut self, alloc: Global) -> bool {
        for module in 1..11 {
            if !self.fetch(alloc, ModuleId(module)) {
                return false;
            }
        }
        true
    }

    /// All modules fetch, and the frames that wait are taken.
    pub(crate) fn fetch_all(&mut self, alloc: Global) -> bool {
        self.fetch_each(alloc) && self.take_all(alloc)
    }

    // Adds the name of what is at a place outside a slot, which is at no other.
    fn add_name(&mut self, name: Text80) -> bool {
        if is_among(name, self.outside.as_slice()) {
            return self.wrong("a substrate is at two places");
        }
        name.len() == 0 || self.outside.push(name).is_ok()
    }

    // Looks at the place whose substrate a variable names.
    fn look_at(&mut self, alloc: Global, variable: u32) -> bool {
        match name_of(alloc, &self.tool, variable) {
            Some(name) => self.add_name(name),
            None => false,
        }
    }

    /// Looks at what is on the arm, at the aligner and in the chambers. It is wanted that nothing is there twice.
    pub(crate) fn look(&mut self, alloc: Global) -> bool {
        self.outside.clear();
        for variable in [12, 13, 21, 22, 23, 24, 25, 26, 27, 28] {
            if !self.look_at(alloc, variable) {
                return false;
            }
        }
        true
    }
}
