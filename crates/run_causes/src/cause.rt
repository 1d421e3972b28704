use gem_ids::Text80;
use std::alloc::{AllocError, Global};

/// Why a run ended. Each cause has a status, with which the program ends.
#[derive(Clone, Copy, Debug)]
pub enum Cause {
    /// Status 0: the input was read to its end, and all was written.
    Done,
    /// Status 1: the words are no command of this call; the first that fits none, counted from 0.
    Words(u64),
    /// Status 2: the configuration breaks this rule, at this key.
    Config(u8, Text80),
    /// Status 3: a read failed.
    ReadFault,
    /// Status 4: a write failed, or took nothing of a piece.
    WriteFault,
    /// Status 5: the next entry would not fit the limits of the history, or 4,294,967,296 input bytes were read; the
    /// entries of the history, the bytes of text in it, and the bytes that were read of the input.
    Full(u64, u64, u64),
    /// Status 6: this line, counted from 1, is outside the grammar from this byte on.
    Line(u64, u64),
    /// Status 7: there was no memory.
    NoMemory,
    /// Status 8: the door failed, or closed before the run ended.
    Door,
    /// Status 10: the disk of a durable spool failed.
    Disk,
    /// Status 11: the bytes of that disk from this place on are no durable spool.
    Unread(u64),
}

impl Cause {
    ghost use Rattle.std.specs.Prelude.{◌≡◌, ◌↔◌, IfOk, IsNone};
    ghost use Rattle.run_causes.specs.declared.cause.Cause.TheVariants as cause;
    ghost use Rattle.run_causes.specs.Status.{status_of};

    /// The number with which the program ends.
    pub fn status(&self) -> u8
        ensures { result ≡ status_of self.now }
    {
        match self {
            Cause::Done => 0,
            Cause::Words(_) => 1,
            Cause::Config(_, _) => 2,
            Cause::ReadFault => 3,
            Cause::WriteFault => 4,
            Cause::Full(_, _, _) => 5,
            Cause::Line(_, _) => 6,
            Cause::NoMemory => 7,
            Cause::Door => 8,
            Cause::Disk => 10,
            Cause::Unread(_) => 11,
        }
    }

    /// What the program says of it on standard error. None: nothing is said of a run that is done.
    pub fn text(&self, alloc: Global) -> Result<Option<String>, AllocError>
        ensures { IfOk result (λ text. IsNone text ↔ (self.now ≡ cause.Done)) }
    {
        match self {
            Cause::Done => Ok(None),
            _ => Ok(Some(self.words(alloc)?)),
        }
    }

    // The words of a cause.
    fn words(&self, alloc: Global) -> Result<String, AllocError> {
        match self {
            Cause::Words(place) => format!(in alloc; "words at {place}"),
            Cause::Config(rule, key) => config_text(alloc, *rule, key.as_bytes()),
            Cause::Full(entries, bytes, input) => full_text(alloc, *entries, *bytes, *input),
            Cause::Line(number, place) => line_text(alloc, *number, *place),
            Cause::Unread(place) => format!(in alloc; "unread at {place}"),
            _ => String::from_str(alloc, self.word()),
        }
    }

    // The word of a cause without a number.
    fn word(&self) -> &'static str {
        match self {
            Cause::ReadFault => "read fault",
            Cause::WriteFault => "write fault",
            Cause::NoMemory => "no memory",
            Cause::Door => "door fault",
            Cause::Disk => "disk fault",
            _ => "",
        }
    }
}

// The words of a broken rule, at this key.
fn config_text(alloc: Global, rule: u8, key: &[u8]) -> Result<String, AllocError> {
    let mut text = format!(in alloc; "config rule {rule} key ")?;
    push_bytes(&mut text, key)?;
    Ok(text)
}

// Puts bytes behind a text, each as a character.
fn push_bytes(text: &mut String, bytes: &[u8]) -> Result<(), AllocError> {
    for byte in bytes {
        text.push(char::from(*byte))?;
    }
    Ok(())
}

// The words of a full history, by its entries, their bytes and the bytes of the input.
fn full_text(alloc: Global, entries: u64, bytes: u64, input: u64) -> Result<String, AllocError> {
    format!(in alloc; "full {entries} {bytes} {input}")
}

// The words of a line that is none, from this place on.
fn line_text(alloc: Global, number: u64, place: u64) -> Result<String, AllocError> {
    format!(in alloc; "line {number} at {place}")
}
