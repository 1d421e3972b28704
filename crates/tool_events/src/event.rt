use gem_ids::{CarrierId, CmdNo, JobId, ModuleId, PortNo, SubstrateId};
use hsms_frame::Arrival;
use tool_tasks::JobWord;

/// Why a session ended.
#[derive(Clone, Copy, Debug, PartialEq, Eq)]
pub enum SessionCause {
    /// A read of the link failed.
    ReadFault,
    /// A write of the link failed, or took nothing of a piece.
    WriteFault,
    /// The peer closed the link.
    PeerEnd,
    /// A length field below 10 came, with which no frame begins.
    ShortLength,
    /// The peer sent a separate message.
    Separated,
    /// No answer came to the tool's linktest in time.
    T6,
    /// The link was not selected in time.
    T7,
    /// The operator ended the run.
    Quit,
    /// The run ended while the session was up.
    Stopped,
}

/// A session that ended, and why. Sessions are numbered from 1.
#[derive(Clone, Copy)]
pub struct SessionEnd {
    pub session: u64,
    pub cause: SessionCause,
}

/// What the equipment tells.
#[derive(Clone, Copy)]
pub enum Signal {
    /// A carrier was placed at a port. The id is there where it was read; the map has a code from 0 to 5 for each of the
    /// slots 1 to 25.
    Placed {
        port: PortNo,
        id: Option<CarrierId>,
        map: [u8; 25],
    },
    /// The carrier at a port was taken away.
    Removed(PortNo),
    /// A module did the command of this number.
    Done(ModuleId, CmdNo),
    /// A module failed at the command of this number.
    Failed(ModuleId, CmdNo),
    /// A module went down.
    Down(ModuleId),
}

/// What an operator wants.
#[derive(Clone, Copy)]
pub enum OperCmd {
    /// Communication is enabled (SEMI E30, communication states).
    Enable,
    /// Communication is disabled.
    Disable,
    /// The equipment goes on-line (SEMI E30, control states).
    Online,
    /// The equipment goes off-line.
    Offline,
    /// On-line, the operator has control.
    Local,
    /// On-line, the host has control.
    Remote,
    /// A port goes in service, or out of it.
    Service(PortNo, bool),
    /// The access of a port is automatic, or manual.
    Access(PortNo, bool),
    /// What a process job is told.
    Job(JobId, JobWord),
    /// A command, 1 to 8, to a control job.
    CtlJob(JobId, u8),
    /// A module is up again.
    Up(ModuleId),
    /// The alarm of this number is cleared.
    Clear(u32),
    /// A substrate is lost.
    Lost(SubstrateId),
    /// The run ends.
    Quit,
}

/// The longest text of a message, in bytes (this tool's profile, limits).
pub const TEXT_BYTES: u32 = 262_144;

/// What happens to the tool.
pub enum Event {
    /// A link came up.
    LinkUp,
    /// The link of this session was lost.
    LinkDown { session: u64, cause: SessionCause },
    /// A message of the host arrived in this session.
    Host { session: u64, arrival: Arrival },
    /// The writer of this session wants the next frame that waits.
    Take { session: u64 },
    /// An operator wants something.
    Oper(OperCmd),
    /// The equipment tells something.
    Signal(Signal),
    /// This module wants its command.
    Fetch(ModuleId),
    /// The clock is looked at.
    Tick,
    /// No link came where one was awaited.
    Listen,
    /// A script waits until this port is ready to unload.
    Watch(PortNo),
}

// Written out, so that it is one call wherever an event is dropped.
impl Drop for Event {
    fn drop(self) {
        match self {
            Event::Host {
                session: _session,
                arrival: _arrival,
            } => {}
            Event::LinkUp
            | Event::LinkDown {
                session: _,
                cause: _,
            }
            | Event::Take { session: _ }
            | Event::Oper(_)
            | Event::Signal(_)
            | Event::Fetch(_)
            | Event::Tick
            | Event::Listen
            | Event::Watch(_) => {}
        }
    }
}
