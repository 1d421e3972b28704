//! The states of a process job (after SEMI E40, process job states; table 14).

ghost use Rattle.std.specs.Prelude.{◌≡◌, false};
ghost use Rattle.gem_tables.specs.Table.{starts, after};
ghost use Rattle.process_job.specs.Tables.{job_table, job_number};
ghost use Rattle.process_job.specs.Record.{first_record, job_starts, job_fired};

/// The states of a process job: QUEUED, SETTING UP, WAITING FOR START, PROCESSING, PROCESS COMPLETE, PAUSING, PAUSED, STOPPING and
/// ABORTING.
#[derive(Clone, Copy)]
pub enum JobState {
    Queued,
    SettingUp,
    WaitingForStart,
    Processing,
    Complete,
    Pausing,
    Paused,
    Stopping,
    Aborting,
}

/// The state of a process job.
#[derive(Clone, Copy)]
pub struct ProcessJobRecord {
    pub state: JobState,
}

impl JobState {
    /// The state's number: 0 QUEUED, 1 SETTING UP, 2 WAITING FOR START, 3 PROCESSING, 4 PROCESS COMPLETE, 6 PAUSING, 7 PAUSED, 8
    /// STOPPING, 9 ABORTING.
    pub fn number(&self) -> u8
        ensures { result ≡ job_number self.now }
    {
        match self {
            JobState::Queued => 0,
            JobState::SettingUp => 1,
            JobState::WaitingForStart => 2,
            JobState::Processing => 3,
            JobState::Complete => 4,
            JobState::Pausing => 6,
            JobState::Paused => 7,
            JobState::Stopping => 8,
            JobState::Aborting => 9,
        }
    }

    // Fires a row of table 14.
    fn fire(&mut self, row: u8) -> bool
        ensures fires { result ≡ starts job_number job_table row self.old }
        ensures after { self.new ≡ after job_number job_table row self.old }
    {
        let end = match (*self, row) {
            (JobState::Queued, 2) => JobState::SettingUp,
            (JobState::Queued, 15 | 16) => JobState::Queued,
            (JobState::SettingUp, 3) => JobState::WaitingForStart,
            (JobState::SettingUp, 4) => JobState::Processing,
            (JobState::SettingUp, 11 | 17) => JobState::Stopping,
            (JobState::SettingUp, 12 | 18) => JobState::Aborting,
            (JobState::WaitingForStart, 5) => JobState::Processing,
            (JobState::WaitingForStart, 11 | 17) => JobState::Stopping,
            (JobState::WaitingForStart, 12 | 18) => JobState::Aborting,
            (JobState::Processing, 6) => JobState::Complete,
            (JobState::Processing, 8) => JobState::Pausing,
            (JobState::Processing, 11 | 17) => JobState::Stopping,
            (JobState::Processing, 12 | 18) => JobState::Aborting,
            (JobState::Complete, 7) => JobState::Complete,
            (JobState::Pausing, 9) => JobState::Paused,
            (JobState::Pausing, 10) => JobState::Processing,
            (JobState::Pausing, 11 | 17) => JobState::Stopping,
            (JobState::Pausing, 12 | 18) => JobState::Aborting,
            (JobState::Paused, 10) => JobState::Processing,
            (JobState::Paused, 11 | 17) => JobState::Stopping,
            (JobState::Paused, 12 | 18) => JobState::Aborting,
            (JobState::Stopping, 12 | 18) => JobState::Aborting,
            (JobState::Stopping, 13) => JobState::Stopping,
            (JobState::Aborting, 14) => JobState::Aborting,
            _ => return false,
        };
        *self = end;
        true
    }
}

impl ProcessJobRecord {
    /// The state of a job as it is created: QUEUED (this tool's profile, table 14).
    pub fn new() -> ProcessJobRecord
        ensures { result ≡ first_record }
    {
        ProcessJobRecord {
            state: JobState::Queued,
        }
    }

    /// Fires a row of table 14: true exactly where the row starts at this state, which is then the row's end; a row by which the
    /// job ends leaves the state as it is. False changes nothing, and so does row 1, which creates a job: it never starts. What
    /// a row wants besides the state, and what it does besides, is for the caller.
    pub fn fire(&mut self, row: u8) -> bool
        ensures fires { result ≡ job_starts row self.old }
        ensures after { self.new ≡ job_fired row self.old }
        ensures stays { job_starts row self.old ≡ false → self.new ≡ self.old }
    {
        self.state.fire(row)
    }

    /// Whether a row of table 14 starts at this state. Changes nothing.
    pub fn starts(&self, row: u8) -> bool
        ensures { result ≡ job_starts row self.now }
    {
        let mut record = *self;
        record.fire(row)
    }
}
