//! What the host or the operator asks of a control job.

ghost use Rattle.std.specs.Prelude.{◌≡◌};
ghost use Rattle.control_job.specs.Commands.{act_of};

/// What a command does: it fires a row of table 15, or it makes a job the first in the queue's order.
#[derive(Clone, Copy)]
pub enum CtlAct {
    Row(u8),
    Head,
}

impl CtlAct {
    // What a command of this number does: 1 start, 2 pause, 3 resume, 4 cancel, 5 deselect, 6 stop, 7 abort, 8 head of queue.
    pub(crate) fn of(cmd: u8) -> Option<CtlAct>
        ensures { result ≡ act_of cmd }
    {
        match cmd {
            1 => Some(CtlAct::Row(5)),
            2 => Some(CtlAct::Row(6)),
            3 => Some(CtlAct::Row(7)),
            4 => Some(CtlAct::Row(9)),
            5 => Some(CtlAct::Row(10)),
            6 => Some(CtlAct::Row(11)),
            7 => Some(CtlAct::Row(12)),
            8 => Some(CtlAct::Head),
            _ => None,
        }
    }
}
