//! What is wanted of a lot.

use crate::drawn::Counts;
use crate::lots::{Shape, up_to};
use crate::played::{Awaited, Fetched, Played};
use crate::tool::Tool;
use gem_ids::{ModuleId, SubstrateId, Text80};
use std::alloc::Global;
use tool_events::{Event, OperCmd, Signal};
use tool_tasks::Task;

// The substrate that a task is for.
fn substrate_of(task: &Task) -> SubstrateId {
    match task {
        Task::Pick { sub, .. } => *sub,
        Task::Place { sub, .. } => *sub,
        Task::Align { sub } => *sub,
        Task::Process { sub, .. } => *sub,
    }
}

impl<T: Tool> Played<T> {
    // ---- commands

    // One of the open commands, which is drawn, and is open no longer.
    fn draw_open(&mut self) -> Option<Fetched> {
        let place = up_to(&mut self.last, self.open.len() as u64).saturating_sub(1) as usize;
        if place < self.open.len() {
            Some(self.open.swap_remove(place))
        } else {
            None
        }
    }

    // One of them is done.
    fn end_one(&mut self, alloc: Global) -> bool {
        match self.draw_open() {
            Some(drawn) => self.end(alloc, Signal::Done(drawn.module, drawn.command.number)),
            None => false,
        }
    }

    // Whether an open command names the substrate of this name.
    fn is_named(&self, name: &[u8]) -> bool {
        for fetched in self.open.as_slice() {
            if substrate_of(&fetched.command.task).as_bytes() == name {
                return true;
            }
        }
        false
    }

    // ---- disturbances

    // An open command fails, and its module is Down.
    fn fail(&mut self, alloc: Global) -> bool {
        let Some(drawn) = self.draw_open() else {
            return false;
        };
        self.down = Some(drawn.module);
        self.end(alloc, Signal::Failed(drawn.module, drawn.command.number))
    }

    // The module of an open command goes down.
    fn go_down(&mut self, alloc: Global) -> bool {
        let Some(drawn) = self.draw_open() else {
            return false;
        };
        self.down = Some(drawn.module);
        self.end(alloc, Signal::Down(drawn.module))
    }

    // The host stops both process jobs: that which runs, and the other where it runs next; else that is refused.
    fn stop(&mut self, alloc: Global) -> bool {
        self.send(alloc, "S16F5 W 6 L[U4 0, A PJ1, A STOP, L[]]")
            && self.send(alloc, "S16F5 W 7 L[U4 0, A PJ2, A STOP, L[]]")
    }

    // Whether the operator can say that a substrate outside its slot is lost.
    fn can_be_lost(&mut self, alloc: Global, name: Text80) -> Option<bool> {
        match SubstrateId::read(name) {
            Some(substrate) => self.operate(alloc, OperCmd::Lost(substrate)),
            None => None,
        }
    }

    // The same. It is wanted exactly where no open command names it.
    fn is_lost(&mut self, alloc: Global, name: Text80) -> Option<bool> {
        let accepted = self.can_be_lost(alloc, name);
        if accepted == Some(self.is_named(name.as_bytes())) {
            self.wrong("a substrate that a command names can be lost, or another cannot");
            return None;
        }
        accepted
    }

    // The first substrate outside its slot that can be lost is. Tells whether there is one.
    fn lose_first(&mut self, alloc: Global) -> Option<bool> {
        for place in 0..10 {
            let Some(name) = self.outside.get(place).copied() else {
                return Some(false);
            };
            match self.is_lost(alloc, name) {
                Some(false) => {}
                found => return found,
            }
        }
        Some(false)
    }

    // A substrate is lost. Where none can be, a command is done.
    fn lose(&mut self, alloc: Global) -> bool {
        match self.lose_first(alloc) {
            Some(true) => true,
            Some(false) => {
                self.awaited = Awaited::Lost;
                self.end_one(alloc)
            }
            None => false,
        }
    }

    // What is awaited comes; where nothing is, a command is done.
    fn disturb(&mut self, alloc: Global) -> bool {
        let awaited = self.awaited;
        self.awaited = Awaited::Nothing;
        match awaited {
            Awaited::Nothing => self.end_one(alloc),
            Awaited::Failed => self.fail(alloc),
            Awaited::Down => self.go_down(alloc),
            Awaited::Stop => self.stop(alloc),
            Awaited::Lost => self.look(alloc) && self.lose(alloc),
        }
    }

    // ---- steps

    // The module that is Down comes up.
    fn bring_up(&mut self, alloc: Global) -> bool {
        match self.down.take() {
            Some(module) => self.post(alloc, Event::Oper(OperCmd::Up(module))),
            None => false,
        }
    }

    // Where no command is open the module that is Down comes up; else the disturbance comes, where it is due, or a command is done.
    fn go_on(&mut self, alloc: Global, is_due: bool) -> bool {
        if self.open.is_empty() {
            self.bring_up(alloc)
        } else if is_due {
            self.disturb(alloc)
        } else {
            self.end_one(alloc)
        }
    }

    // A step, behind which the modules fetch.
    fn step(&mut self, alloc: Global, is_due: bool) -> bool {
        self.go_on(alloc, is_due) && self.fetch_all(alloc) && self.look(alloc)
    }

    // Whether no command is open, and no module is Down.
    fn is_at_rest(&self) -> bool {
        self.open.is_empty() && self.down.is_none()
    }

    // What is wanted of a lot of so many Dones that is undisturbed: until the last of them a command is open and the control job is
    // not COMPLETED, and at the last it is.
    fn check(&mut self, dones: u64) -> bool {
        let is_last = self.ended == dones;
        if self.open.is_empty() != is_last {
            return self.wrong("no command is open before the last Done, or one is behind it");
        }
        self.told == (if is_last { 1 } else { 0 })
            || self.wrong("the control job is COMPLETED too early, or too late")
    }

    // What is wanted where the tool is at rest.
    fn rests(&mut self, alloc: Global) -> bool {
        if self.told != 1 {
            return self.wrong("the control job is not COMPLETED at rest");
        }
        self.look(alloc)
            && (self.outside.is_empty() || self.wrong("a substrate is outside its slot at rest"))
    }

    // What disturbs the lot is drawn, where something does.
    fn await_one(&mut self, is_disturbed: bool) {
        let drawn = up_to(&mut self.last, 4);
        self.awaited = match drawn {
            _ if !is_disturbed => Awaited::Nothing,
            1 => Awaited::Failed,
            2 => Awaited::Down,
            3 => Awaited::Stop,
            _ => Awaited::Lost,
        };
    }

    // Plays a lot that has begun, of so many Dones where it is undisturbed, whose disturbance is due in the place of this one.
    fn play_on(&mut self, alloc: Global, is_disturbed: bool, dones: u64, due: u64) -> bool {
        for _ in 0..dones.saturating_mul(2).saturating_add(50) {
            if !is_disturbed && !self.check(dones) {
                return false;
            }
            if self.is_at_rest() {
                return self.rests(alloc);
            }
            if !self.step(alloc, self.ended.saturating_add(1) >= due) {
                return false;
            }
        }
        self.wrong("the tool does not come to rest")
    }

    // Plays a lot that has begun, of so many Dones where it is undisturbed.
    fn play_begun(&mut self, alloc: Global, is_disturbed: bool, dones: u64) -> bool {
        let due = up_to(&mut self.last, dones);
        self.await_one(is_disturbed);
        self.play_on(alloc, is_disturbed, dones, due)
    }

    /// Plays a lot, and gives how many substrates it has, and how many commands ended. Undisturbed these are five Dones for each
    /// substrate and three for each step of the route of the first process job that names its slot, in whatever order; at the last of
    /// them the control job is told to be COMPLETED, and until then a command is open.
    /// Disturbed, in the place of a Done that is drawn or as soon behind it as can be, the tool comes to rest, where a module that is
    /// Down is brought up once no command is open. At no step is a substrate at two places; and at rest all are in their slots or
    /// lost, and the control job was told to be COMPLETED.
    pub(crate) fn plays(
        &mut self,
        alloc: Global,
        shape: Shape,
        is_disturbed: bool,
    ) -> Option<Counts> {
        match self.begin(alloc, shape) {
            Some(wanted) if self.play_begun(alloc, is_disturbed, wanted.dones) => Some(Counts {
                substrates: wanted.substrates,
                dones: self.ended,
            }),
            _ => None,
        }
    }
}
