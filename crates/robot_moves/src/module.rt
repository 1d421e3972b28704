//! A module and its command.

ghost use Rattle.std.specs.Prelude.{◌≡◌};
ghost use Rattle.robot_moves.specs.Modules.{state_of, stepped, given, taken, closed, goes_down, comes_up};

use gem_ids::CmdNo;
use tool_tasks::Command;

/// The states of a module: Idle, Busy with one command, and Down.
#[derive(Clone, Copy)]
pub enum ModuleState {
    Idle,
    Busy,
    Down,
}

/// A module: the robot, the aligner or a chamber. It is Idle, Busy with one command, which was fetched or not, or Down.
#[derive(Clone, Copy)]
pub enum Module {
    Idle,
    Busy { command: Command, fetched: bool },
    Down,
}

// What happens to a module: it is given a command; its command is taken; its command is closed where it has this number, and the
// module is then as said; it goes down; it comes up.
#[derive(Clone, Copy)]
pub(crate) enum Step {
    Give(Command),
    Take,
    Close(CmdNo, Module),
    GoDown,
    ComeUp,
}

impl Module {
    /// The state of the module in its table.
    pub fn state(&self) -> ModuleState
        ensures { result ≡ state_of self.now }
    {
        match self {
            Module::Idle => ModuleState::Idle,
            Module::Busy { .. } => ModuleState::Busy,
            Module::Down => ModuleState::Down,
        }
    }

    // What it is behind a step.
    pub(crate) fn stepped(self, step: Step) -> Module
        ensures { result ≡ stepped step self }
    {
        match step {
            Step::Give(command) => self.given(command),
            Step::Take => self.taken(),
            Step::Close(number, next) => self.closed(number, next),
            Step::GoDown => Module::Down,
            Step::ComeUp => self.come_up(),
        }
    }

    fn given(self, command: Command) -> Module
        ensures { result ≡ given command self }
    {
        match self {
            Module::Idle => Module::Busy {
                command,
                fetched: false,
            },
            other => other,
        }
    }

    fn taken(self) -> Module
        ensures { result ≡ taken self }
    {
        match self {
            Module::Busy { command, .. } => Module::Busy {
                command,
                fetched: true,
            },
            other => other,
        }
    }

    fn closed(self, number: CmdNo, next: Module) -> Module
        ensures { result ≡ closed number.0 next self }
    {
        match self {
            Module::Busy { command, fetched } => {
                if command.number.0 == number.0 {
                    next
                } else {
                    Module::Busy { command, fetched }
                }
            }
            other => other,
        }
    }

    fn come_up(self) -> Module
        ensures { result ≡ comes_up self }
    {
        match self {
            Module::Down => Module::Idle,
            other => other,
        }
    }
}
