//! What lies around the line of notes.

ghost use Rattle.std.specs.Prelude.{◌≡◌};
ghost use Rattle.note_line.specs.Line.{is_spooled_kind};

use spool::Kind;

/// What the line is told of the rest of the tool: whether host and tool communicate, whether a full spool is overwritten
/// (OverWriteSpool), and how many spooled notes are sent at the host's request (MaxSpoolTransmit, where 0 is no limit).
#[derive(Clone, Copy)]
pub struct Around {
    pub communicates: bool,
    pub overwrites: bool,
    pub most_sent: u32,
}

/// The kinds of note that are spooled: events, in an S6F11, and alarms, in an S5F1.
#[derive(Clone, Copy)]
pub struct SpooledKinds {
    pub events: bool,
    pub alarms: bool,
}

impl SpooledKinds {
    /// Whether notes of this kind are spooled.
    pub fn has(self, kind: Kind) -> bool
        ensures { result ≡ is_spooled_kind self kind }
    {
        match kind {
            Kind::Event => self.events,
            Kind::Alarm => self.alarms,
        }
    }
}
