//! Tables 14 and 15: process jobs and control jobs.

ghost use Rattle.std.specs.Prelude.{◌≡◌, ◌+◌, ◌*◌, true, IfOk};
ghost use Rattle.gem_tables.specs.Table.{starts, after};
ghost use Rattle.process_job.specs.Tables.{job_number, job_table};
ghost use Rattle.control_job.specs.Record.{control_starts, control_fired};
ghost use Rattle.control_job.specs.Tables.{states_number};
ghost use Rattle.state_arrows.specs.Arrows.{answered, are_same, are_apart};
ghost use Rattle.state_arrows.specs.Tables.{process_job_arrows, control_job_arrows, is_ending_row, ended};

use crate::arrow::{Arrow, arrow_where, creation};
use crate::asked::Asked;
use crate::gathered::gather;
use control_job::{ControlJobRecord, ControlState, Ending};
use process_job::{JobState, ProcessJobRecord};
use std::alloc::{AllocError, Global};

// Whether a process job ends with a row of table 14, and is forgotten (this tool's profile, table 14).
fn is_ending(row: u8) -> bool
    ensures { result ≡ is_ending_row row }
{
    matches!(row, 7 | 13 | 14 | 15 | 16)
}

// An arrow of table 14: where the job ends with its row it leads to no state.
fn cut(arrow: Option<Arrow>) -> Option<Arrow>
    ensures { result ≡ ended arrow }
{
    match arrow {
        Some(arrow) if is_ending(arrow.row) => Some(Arrow { to: None, ..arrow }),
        other => other,
    }
}

impl Asked for JobState {
    ghost answer = { λ row s. ended (answered job_number (starts job_number job_table) (after job_number job_table) row s) };

    fn ask(&self, row: u8) -> Option<Arrow> {
        let mut end = ProcessJobRecord { state: *self };
        let starts = end.fire(row);
        cut(arrow_where(starts, row, self.number(), end.state.number()))
    }
}

// The number of the states of a control job: that of its state, and 6 more where it is ending by stop, 12 more by abort.
fn number_of(states: ControlJobRecord) -> u8
    ensures { result ≡ states_number states }
{
    let ending = match states.ending {
        Ending::No => 0,
        Ending::ByStop => 6,
        Ending::ByAbort => 12,
    };
    states.state.number() + ending
}

impl Asked for ControlJobRecord {
    ghost answer = { λ row s. answered states_number control_starts control_fired row s };

    fn ask(&self, row: u8) -> Option<Arrow> {
        let mut end = *self;
        let starts = end.fire(row);
        arrow_where(starts, row, number_of(*self), number_of(end))
    }
}

/// The arrows of table 14, with that of the row that creates a process job. Those with which it ends lead nowhere.
pub(crate) fn process_jobs(alloc: Global) -> Result<Vec<Arrow>, AllocError>
    ensures same { IfOk result (λ arrows. are_same arrows.items process_job_arrows ≡ true) }
    ensures once { IfOk result (λ arrows. are_apart arrows.items ≡ true) }
{
    let states = [
        JobState::Queued,
        JobState::SettingUp,
        JobState::WaitingForStart,
        JobState::Processing,
        JobState::Complete,
        JobState::Pausing,
        JobState::Paused,
        JobState::Stopping,
        JobState::Aborting,
    ];
    gather(
        alloc,
        creation(ProcessJobRecord::new().state.number()),
        18,
        &states,
    )
}

/// The arrows of table 15, with that of the row that creates a control job. The states are numbered as `number_of` says.
pub(crate) fn control_jobs(alloc: Global) -> Result<Vec<Arrow>, AllocError>
    ensures same { IfOk result (λ arrows. are_same arrows.items control_job_arrows ≡ true) }
    ensures once { IfOk result (λ arrows. are_apart arrows.items ≡ true) }
{
    let states = [
        ControlJobRecord {
            state: ControlState::Queued,
            ending: Ending::No,
        },
        ControlJobRecord {
            state: ControlState::Selected,
            ending: Ending::No,
        },
        ControlJobRecord {
            state: ControlState::WaitingForStart,
            ending: Ending::No,
        },
        ControlJobRecord {
            state: ControlState::Executing,
            ending: Ending::No,
        },
        ControlJobRecord {
            state: ControlState::Paused,
            ending: Ending::No,
        },
        ControlJobRecord {
            state: ControlState::Completed,
            ending: Ending::No,
        },
        ControlJobRecord {
            state: ControlState::Executing,
            ending: Ending::ByStop,
        },
        ControlJobRecord {
            state: ControlState::Executing,
            ending: Ending::ByAbort,
        },
    ];
    gather(
        alloc,
        creation(number_of(ControlJobRecord::new())),
        12,
        &states,
    )
}
