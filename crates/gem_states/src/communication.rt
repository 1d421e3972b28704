//! The states of communication with the host (after SEMI E30, communication state model; table 1).

ghost use Rattle.std.specs.Prelude.{◌≡◌, ◌∷◌, []};
ghost use Rattle.gem_tables.specs.Table.{first_starting};
ghost use Rattle.gem_states.specs.Communication.{communication_table, comm_number, comm_starts, comm_fired};
ghost use Rattle.gem_states.specs.Triggers.{comm_rows};

/// The states of communication. In `WaitDelay` the delay is over at the moment `until`, in hundredths of a second.
#[derive(Clone, Copy, PartialEq, Eq)]
pub enum Comm {
    Disabled,
    WaitDelay { until: u64 },
    WaitCra,
    Communicating,
}

/// What fires a direct row of communication: the operator's `enable` and `disable`, an S1F14 with COMMACK 0, another
/// answer to the tool's S1F13 (S1F14, S1F0, or none in T3), an S1F13 of the host, or the session's end.
#[derive(Clone, Copy)]
pub enum CommTrigger {
    Enable,
    Disable,
    Accepted,
    Refused,
    HostS1F13,
    SessionEnd,
}

impl Comm {
    /// The state's number, as variables print it: 0 DISABLED, 1 WAIT DELAY, 2 WAIT CRA, 3 COMMUNICATING.
    pub fn number(&self) -> u8
        ensures { result ≡ comm_number self.now }
    {
        match self {
            Comm::Disabled => 0,
            Comm::WaitDelay { .. } => 1,
            Comm::WaitCra => 2,
            Comm::Communicating => 3,
        }
    }

    /// Fires a row of table 1: true exactly where the row starts at this state, which is then the row's end. A row that
    /// ends in WAIT DELAY (1, 5 and 7) takes `until`, the moment at which the delay is over. False changes nothing.
    pub fn fire(&mut self, row: u8, until: u64) -> bool
        ensures fires { result ≡ comm_starts row self.old }
        ensures after { self.new ≡ comm_fired row until self.old }
    {
        let end = match (row, *self) {
            (1, Comm::Disabled) => Comm::WaitDelay { until },
            (2, Comm::WaitDelay { .. } | Comm::WaitCra | Comm::Communicating) => Comm::Disabled,
            (3, Comm::WaitDelay { .. }) => Comm::WaitCra,
            (4, Comm::WaitCra) => Comm::Communicating,
            (5, Comm::WaitCra) => Comm::WaitDelay { until },
            (6, Comm::WaitDelay { .. } | Comm::WaitCra) => Comm::Communicating,
            (7, Comm::WaitCra | Comm::Communicating) => Comm::WaitDelay { until },
            _ => return false,
        };
        *self = end;
        true
    }

    /// The direct row that a trigger fires at this state; `None` exactly where none of the trigger's rows starts here.
    pub fn row_for(&self, t: CommTrigger) -> Option<u8>
        ensures { result ≡ first_starting comm_number (communication_table 0) self.now (comm_rows t) }
    {
        match (t, self) {
            (CommTrigger::Enable, Comm::Disabled) => Some(1),
            (CommTrigger::Disable, Comm::WaitDelay { .. } | Comm::WaitCra | Comm::Communicating) =>
                { Some(2) }
            (CommTrigger::Accepted, Comm::WaitCra) => Some(4),
            (CommTrigger::Refused, Comm::WaitCra) => Some(5),
            (CommTrigger::HostS1F13, Comm::WaitDelay { .. } | Comm::WaitCra) => Some(6),
            (CommTrigger::SessionEnd, Comm::WaitCra | Comm::Communicating) => Some(7),
            _ => None,
        }
    }
}

impl CommTrigger {
    /// The number of the direct row that the trigger fires where it starts (this tool's profile, direct rows).
    pub fn row(self) -> u8
        ensures { comm_rows self ≡ result ∷ [] }
    {
        match self {
            CommTrigger::Enable => 1,
            CommTrigger::Disable => 2,
            CommTrigger::Accepted => 4,
            CommTrigger::Refused => 5,
            CommTrigger::HostS1F13 => 6,
            CommTrigger::SessionEnd => 7,
        }
    }
}
