//! The states of a control job (after SEMI E94, control job states; table 15).

ghost use Rattle.std.specs.Prelude.{◌≡◌, false};
ghost use Rattle.control_job.specs.Tables.{state_number, not_ending, ending_by};
ghost use Rattle.control_job.specs.Record.{first_record, control_starts, control_fired, is_queued, is_active, is_completed};

/// The states of a control job: QUEUED, SELECTED, WAITING FOR START, EXECUTING, PAUSED and COMPLETED.
#[derive(Clone, Copy)]
pub enum ControlState {
    Queued,
    Selected,
    WaitingForStart,
    Executing,
    Paused,
    Completed,
}

/// Whether a control job is ending, and by what.
#[derive(Clone, Copy)]
pub enum Ending {
    No,
    ByStop,
    ByAbort,
}

/// The states of a control job. Only one that is EXECUTING is ever ending.
#[derive(Clone, Copy)]
pub struct ControlJobRecord {
    pub state: ControlState,
    pub ending: Ending,
}

impl ControlState {
    /// The state's number: 0 QUEUED, 1 SELECTED, 2 WAITING FOR START, 3 EXECUTING, 4 PAUSED, 5 COMPLETED.
    pub fn number(&self) -> u8
        ensures { result ≡ state_number self.now }
    {
        match self {
            ControlState::Queued => 0,
            ControlState::Selected => 1,
            ControlState::WaitingForStart => 2,
            ControlState::Executing => 3,
            ControlState::Paused => 4,
            ControlState::Completed => 5,
        }
    }

    /// Whether it is QUEUED.
    pub fn is_queued(&self) -> bool
        ensures { result ≡ is_queued self.now }
    {
        matches!(self, ControlState::Queued)
    }

    /// Whether it is active: SELECTED, WAITING FOR START, EXECUTING or PAUSED.
    pub fn is_active(&self) -> bool
        ensures { result ≡ is_active self.now }
    {
        !matches!(self, ControlState::Queued | ControlState::Completed)
    }

    /// Whether it is COMPLETED.
    pub fn is_completed(&self) -> bool
        ensures { result ≡ is_completed self.now }
    {
        matches!(self, ControlState::Completed)
    }
}

impl ControlJobRecord {
    /// The states of a control job as it is created: QUEUED, and not ending (this tool's profile, table 15).
    pub fn new() -> ControlJobRecord
        ensures { result ≡ first_record }
    {
        not_ending(ControlState::Queued)
    }

    /// Fires a row of table 15: true exactly where the row starts at these states, which are then the row's end. False changes
    /// nothing, and so does row 1, which creates a control job: it never starts. What a row wants besides the states is for the
    /// caller.
    pub fn fire(&mut self, row: u8) -> bool
        ensures fires { result ≡ control_starts row self.old }
        ensures after { self.new ≡ control_fired row self.old }
        ensures stays { control_starts row self.old ≡ false → self.new ≡ self.old }
    {
        let end = match (row, self.state, self.ending) {
            (2, ControlState::Queued, Ending::No) => not_ending(ControlState::Selected),
            (3, ControlState::Selected, Ending::No) => not_ending(ControlState::WaitingForStart),
            (4, ControlState::Selected, Ending::No) => not_ending(ControlState::Executing),
            (5, ControlState::WaitingForStart, Ending::No) => not_ending(ControlState::Executing),
            (6, ControlState::Executing, Ending::No) => not_ending(ControlState::Paused),
            (7, ControlState::Paused, Ending::No) => not_ending(ControlState::Executing),
            (8, ControlState::Executing, _) => not_ending(ControlState::Completed),
            (9, ControlState::Queued, Ending::No) => not_ending(ControlState::Completed),
            (10, ControlState::Selected, Ending::No) => not_ending(ControlState::Queued),
            (
                11,
                ControlState::Selected
                | ControlState::WaitingForStart
                | ControlState::Executing
                | ControlState::Paused,
                Ending::No,
            ) => ending_by(Ending::ByStop),
            (
                12,
                ControlState::Selected
                | ControlState::WaitingForStart
                | ControlState::Executing
                | ControlState::Paused,
                Ending::No,
            )
            | (12, ControlState::Executing, Ending::ByStop) => ending_by(Ending::ByAbort),
            _ => return false,
        };
        *self = end;
        true
    }

    /// Whether a row of table 15 starts at these states. Changes nothing.
    pub fn starts(&self, row: u8) -> bool
        ensures { result ≡ control_starts row self.now }
    {
        let mut record = *self;
        record.fire(row)
    }
}

// The states of a control job in this state that isn't ending.
fn not_ending(state: ControlState) -> ControlJobRecord
    ensures { result ≡ not_ending state }
{
    ControlJobRecord {
        state,
        ending: Ending::No,
    }
}

// The states of a control job that is EXECUTING, and ending by this.
fn ending_by(ending: Ending) -> ControlJobRecord
    ensures { result ≡ ending_by ending }
{
    ControlJobRecord {
        state: ControlState::Executing,
        ending,
    }
}
