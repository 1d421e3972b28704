//! Why something that the host asks of jobs isn't done.

ghost use Rattle.std.specs.Prelude.{◌≡◌, ℕ, Result};
ghost use Rattle.request_model.specs.Errors.{error_code, error_text, of_code, of_answer, of_process_fault, of_control_fault};

use gem_ids::Text80;

/// Why something that the host asks of jobs isn't done (SEMI E40 and SEMI E94, errors of stream 14 and stream 16; this tool's
/// profile, messages): a job isn't there, or a name is none; it can't be done at the job's state, or in ON-LINE LOCAL; a job of
/// the name is there; the tool has no recipe of the name; the material is none; there are as many jobs as there can be; the command
/// is none; or the tool doesn't offer it.
#[derive(Clone, Copy)]
pub enum JobError {
    UnknownObject,
    NotNow,
    NameTaken,
    NoRecipe,
    NoMaterial,
    NoSpace,
    UnknownCommand,
    NotOffered,
}

impl JobError {
    /// Its code, ERRCODE: 1 to 8.
    pub fn code(self) -> u8
        ensures { result ≡ error_code self }
    {
        match self {
            JobError::UnknownObject => 1,
            JobError::NotNow => 2,
            JobError::NameTaken => 3,
            JobError::NoRecipe => 4,
            JobError::NoMaterial => 5,
            JobError::NoSpace => 6,
            JobError::UnknownCommand => 7,
            JobError::NotOffered => 8,
        }
    }

    /// Its text, ERRTEXT.
    pub fn text(self) -> Text80
        ensures { result ≡ error_text self }
    {
        match self {
            JobError::UnknownObject => Text80::read(b"unknown object").unwrap(),
            JobError::NotNow => Text80::read(b"not now").unwrap(),
            JobError::NameTaken => Text80::read(b"name taken").unwrap(),
            JobError::NoRecipe => Text80::read(b"no recipe").unwrap(),
            JobError::NoMaterial => Text80::read(b"no material").unwrap(),
            JobError::NoSpace => Text80::read(b"no space").unwrap(),
            JobError::UnknownCommand => Text80::read(b"unknown command").unwrap(),
            JobError::NotOffered => Text80::read(b"not offered").unwrap(),
        }
    }

    /// The error that a command is answered by its code: 1, 7, and for any other not now.
    pub fn of_code(code: u8) -> JobError
        ensures { result ≡ of_code code }
    {
        match code {
            1 => JobError::UnknownObject,
            7 => JobError::UnknownCommand,
            _ => JobError::NotNow,
        }
    }
}
