//! What the host is answered of actions on ports and carriers.

ghost use Rattle.std.specs.Prelude.{◌≡◌};
ghost use Rattle.load_port.specs.Caack.{caack_number, is_done_code};

/// CAACK (SEMI E87, S3F18, S3F26 and S3F28; this tool's profile, S3F17, S3F25 and S3F27): the action is done; it is unknown; it
/// can't be done now; a parameter is faulty; the states forbid it.
#[derive(Clone, Copy)]
pub enum Caack {
    Done,
    Unknown,
    NotNow,
    Faulty,
    Impossible,
}

impl Caack {
    /// The code of the message: 0, 1, 2, 3 or 5.
    pub fn number(&self) -> u8
        ensures { result ≡ caack_number self.now }
    {
        match self {
            Caack::Done => 0,
            Caack::Unknown => 1,
            Caack::NotNow => 2,
            Caack::Faulty => 3,
            Caack::Impossible => 5,
        }
    }

    /// Whether the action is done.
    pub fn is_done(&self) -> bool
        ensures { result ≡ is_done_code self.now }
    {
        matches!(self, Caack::Done)
    }
}
