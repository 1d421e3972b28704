/// A message of the tool that the host of a batch answers, with its system bytes (this tool's profile, batch).
#[derive(Clone, Copy)]
pub enum Primary {
    /// S1F13, which asks to establish communication.
    EstablishRequest(u32),
    /// S6F11, which reports an event.
    EventReport(u32),
}
