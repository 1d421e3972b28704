use gem_ids::{CmdNo, LocId, SubstrateId, Text80};

/// What a module is to do.
#[derive(Clone, Copy)]
pub enum Task {
    Pick { sub: SubstrateId, from: LocId },
    Place { sub: SubstrateId, to: LocId },
    Align { sub: SubstrateId },
    Process { sub: SubstrateId, recipe: Text80 },
}

/// A command to a module. Commands are numbered from 1.
#[derive(Clone, Copy)]
pub struct Command {
    pub number: CmdNo,
    pub task: Task,
}
