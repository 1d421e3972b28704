use gem_ids::{Moment, PortNo};
use hsms_frame::Bytes;
use thiserror::Error;
use tool_events::{OperCmd, Signal};

/// What an input line says (this tool's profile, input lines).
#[derive(Drop)]
pub enum Line {
    /// Nothing: it is empty, or a comment.
    Skip,
    /// `L+`: a link comes up.
    Up,
    /// `L-`: the peer closes the link.
    Down,
    /// `H hex`: bytes of the host come.
    Bytes(Bytes),
    /// `T n`: the clock is looked at, at this moment.
    Moment(Moment),
    /// `O words`: an operator wants something.
    Oper(OperCmd),
    /// `S words`: the equipment tells something.
    Signal(Signal),
    /// `W p`: a script waits for this port.
    Watch(PortNo),
}

/// Why a line says nothing.
#[derive(Clone, Copy, Debug, Error)]
pub enum LineFault {
    /// The line leaves the grammar at this byte, counted from 0: lines begin with the bytes before it, and none with
    /// this one behind them. It is the length of the line where more was wanted.
    #[error("no line goes on so at {0}")]
    Place(u64),
    /// Memory ran out.
    #[error("out of memory")]
    NoMemory,
}
