//! What rows do to the jobs (this tool's profile, tables 14 and 15).

ghost use Rattle.std.specs.Prelude.{◌≡◌, false, is_some};
ghost use Rattle.gem_tables.specs.Table.{row_of};
ghost use Rattle.process_job.specs.Tables.{job_table};
ghost use Rattle.control_job.specs.Jobs.{headed, waiting_named, is_any_active};
ghost use Rattle.tool_jobs.specs.Rows.{ended, found_ends, process_fired, control_fired};

use crate::jobs::Jobs;
use gem_ids::JobId;

impl Jobs {
    /// A row of table 14 fires at the process job of a number: its state, and by rows 7 and 13 to 16 it has ended, which is that it has
    /// left its control job and is forgotten. Where the row doesn't start in its state the state stays. What rows do to carriers and
    /// substrates is for the caller. Takes no memory.
    pub fn fire_process(&mut self, number: u64, row: u8)
        ensures { self.new ≡ process_fired row number self.old }
    {
        if is_end(row) {
            self.end(number);
        } else {
            self.process.fire(number, row);
        }
    }

    // The process job of a number has left its control job, and is forgotten.
    fn end(&mut self, number: u64)
        ensures { self.new ≡ ended number self.old }
    {
        match self.process.numbered(number) {
            Some(job) => {
                let name = job.id;
                self.control.leaves(name);
                self.process.forget(number);
            }
            None => {}
        }
    }

    /// A row of table 15 that starts fires at the control job of a number: its states; row 10 makes it the last in the queue's order, and
    /// row 9 leaves no process job in it. Takes no memory.
    pub fn fire_control(&mut self, number: u64, row: u8)
        requires { row ≡ 2 → is_any_active self.old.control.jobs ≡ false }
        ensures { self.new ≡ control_fired row number self.old }
    {
        self.control.fire(number, row);
    }

    /// Makes the QUEUED control job of a name the first in the queue's order; the others keep theirs. False exactly where no QUEUED
    /// control job has the name, and then nothing changes.
    pub fn head_of_queue(&mut self, id: JobId) -> bool
        ensures queued { result ≡ is_some (waiting_named id self.old.control.jobs) }
        ensures process { self.new.process ≡ self.old.process }
        ensures control { self.new.control ≡ headed id self.old.control }
    {
        self.control.head_of_queue(id)
    }
}

// Whether a row of table 14 ends the process job.
fn is_end(row: u8) -> bool
    ensures { result ≡ found_ends (row_of job_table row) }
{
    matches!(row, 7 | 13 | 14 | 15 | 16)
}
