//! The modules of a tool.

ghost use Rattle.std.specs.Prelude.{◌≡◌, ◌≤◌, ◌+◌, min, length, IfOk};
ghost use Rattle.robot_moves.specs.Modules.{first_modules, module_at, change_module, is_idle, is_down, is_up, is_open, unfetched, fetched_number, stepped, given, taken, closed, goes_down, comes_up};
ghost use Rattle.robot_moves.specs.declared.module.Module.TheVariants.{Idle, Down};

use crate::module::{Module, Step};
use gem_ids::{CmdNo, ModuleId};
use std::alloc::{AllocError, Global};
use std::marker::Model;
use tool_tasks::{Command, Task};

/// The modules of a tool by their numbers, which contracts see as the list of them: 1 is the robot, 2 the aligner, and 2 + c
/// chamber c. Each has one open command at most. Only `new` takes memory. A module that isn't there is neither Idle nor Down,
/// and has no command.
#[derive(Drop)]
pub struct Modules {
    modules: Vec<Module>,
}

impl Model for Modules {
    ghost use Rattle.std.specs.Prelude.{List, length, ◌≤◌};
    ghost use Rattle.robot_moves.specs.declared.module.Module.{Module};

    ghost Value = { List Module };

    ghost view = { λ m. m.modules.items };

    ghost invariant = { λ m. length m.modules.items ≤ 255 };
}

impl Modules {
    /// The modules of a tool with so many chambers, each Idle. Of more than 253 chambers there are 253, since a module's number
    /// is 255 at most. `AllocError` where there is no memory.
    pub fn new(alloc: Global, chambers: u8) -> Result<Modules, AllocError>
        ensures { IfOk result (λ modules. modules ≡ first_modules chambers) }
    {
        // The borrow checker has to be told here of the types that a command holds.
        let _: Option<(Command, Task)> = None;
        let modules = vec![in alloc; Module::Idle; module_count(chambers)]?;
        Ok(Modules { modules })
    }

    /// How many modules there are, 2 to 255.
    pub fn len(&self) -> usize
        ensures len { result ≡ length self.now }
        ensures few { length self.now ≤ 255 }
    {
        self.modules.len()
    }

    /// The module of a number. `None` exactly where there is none.
    pub fn get(&self, m: ModuleId) -> Option<Module>
        ensures { result ≡ module_at m.0 self.now }
    {
        if m.0 == 0 {
            None
        } else {
            self.modules.get(m.0 as usize - 1).copied()
        }
    }

    /// Whether the module of a number is Idle.
    pub fn is_idle(&self, m: ModuleId) -> bool
        ensures { result ≡ is_idle (module_at m.0 self.now) }
    {
        matches!(self.get(m), Some(Module::Idle))
    }

    /// The number of the open command of a module that was fetched. `None` exactly where it has none.
    pub fn fetched_number(&self, m: ModuleId) -> Option<CmdNo>
        ensures { result ≡ fetched_number (module_at m.0 self.now) }
    {
        match self.get(m) {
            Some(Module::Busy { command, fetched }) => {
                if fetched { Some(command.number) } else { None }
            }
            _ => None,
        }
    }

    // ---- commands

    /// Gives a command to a module: true exactly where it is Idle, and it is Busy with the command then. False changes nothing.
    pub fn issue(&mut self, m: ModuleId, c: Command) -> bool
        ensures issues { result ≡ is_idle (module_at m.0 self.old) }
        ensures after { self.new ≡ change_module m.0 (given c) self.old }
    {
        let idle = self.is_idle(m);
        self.step(m, Step::Give(c));
        idle
    }

    /// The open command of a module that wasn't fetched yet; it is fetched then, and stays open. `None` exactly where there is
    /// none, and nothing changes.
    pub fn fetch(&mut self, m: ModuleId) -> Option<Command>
        ensures command { result ≡ unfetched (module_at m.0 self.old) }
        ensures after { self.new ≡ change_module m.0 taken self.old }
    {
        let command = self.unfetched(m);
        self.step(m, Step::Take);
        command
    }

    /// Whether this was the open command of a module: true exactly where the command of the number is the module's open one, and
    /// the module is Idle then. False changes nothing, so a command is done once.
    pub fn done(&mut self, m: ModuleId, n: CmdNo) -> bool
        ensures ends { result ≡ is_open n.0 (module_at m.0 self.old) }
        ensures after { self.new ≡ change_module m.0 (closed n.0 Idle) self.old }
    {
        let ends = self.is_open(m, n);
        self.step(m, Step::Close(n, Module::Idle));
        ends
    }

    /// Whether this was the open command of a module that failed: true exactly where the command of the number is the module's
    /// open one, and the module is Down then. False changes nothing.
    pub fn failed(&mut self, m: ModuleId, n: CmdNo) -> bool
        ensures ends { result ≡ is_open n.0 (module_at m.0 self.old) }
        ensures after { self.new ≡ change_module m.0 (closed n.0 Down) self.old }
    {
        let ends = self.is_open(m, n);
        self.step(m, Step::Close(n, Module::Down));
        ends
    }

    // ---- modules that go down and come up

    /// Takes a module down: true exactly where it is one of the tool and isn't Down; it is Down then, and its open command is
    /// closed. False changes nothing.
    pub fn down(&mut self, m: ModuleId) -> bool
        ensures goes { result ≡ is_up (module_at m.0 self.old) }
        ensures after { self.new ≡ change_module m.0 goes_down self.old }
    {
        let up = matches!(self.get(m), Some(Module::Idle) | Some(Module::Busy { .. }));
        self.step(m, Step::GoDown);
        up
    }

    /// Brings a module up: true exactly where it is Down, and it is Idle then. False changes nothing.
    pub fn up(&mut self, m: ModuleId) -> bool
        ensures comes { result ≡ is_down (module_at m.0 self.old) }
        ensures after { self.new ≡ change_module m.0 comes_up self.old }
    {
        let down = matches!(self.get(m), Some(Module::Down));
        self.step(m, Step::ComeUp);
        down
    }

    // ---- helpers

    // Whether the open command of a module has this number.
    fn is_open(&self, m: ModuleId, n: CmdNo) -> bool
        ensures { result ≡ is_open n.0 (module_at m.0 self.now) }
    {
        match self.get(m) {
            Some(Module::Busy { command, .. }) => command.number.0 == n.0,
            _ => false,
        }
    }

    // The open command of a module that wasn't fetched.
    fn unfetched(&self, m: ModuleId) -> Option<Command>
        ensures { result ≡ unfetched (module_at m.0 self.now) }
    {
        match self.get(m) {
            Some(Module::Busy { command, fetched }) => {
                if fetched { None } else { Some(command) }
            }
            _ => None,
        }
    }

    // Something happens to the module of a number, where there is one.
    fn step(&mut self, m: ModuleId, step: Step)
        ensures { self.new ≡ change_module m.0 (stepped step) self.old }
    {
        if let Some(module) = self.get(m) {
            self.put(m, module.stepped(step));
        }
    }

    // The module of a number is this one, where there is one.
    fn put(&mut self, m: ModuleId, new: Module)
        ensures { self.new ≡ change_module m.0 (λ _. new) self.old }
    {
        let number = m.0 as usize;
        if number == 0 {
            return;
        }
        if number <= self.modules.len() {
            self.modules[number - 1] = new;
        }
    }
}

// How many modules a tool with so many chambers has: none has a number over 255.
fn module_count(chambers: u8) -> usize
    ensures count { result ≡ 2 + min chambers 253 }
    ensures few { result ≤ 255 }
{
    if chambers < 253 {
        2 + chambers as usize
    } else {
        255
    }
}
