use gem_ids::{CmdNo, ModuleId};

/// A module, and the number of its open command, which it fetched (this tool's profile, moves).
#[derive(Clone, Copy)]
pub struct Fetched {
    pub number: ModuleId,
    pub command: CmdNo,
}
