//! The modules of the tool, and what they were told to do.

use message_words::Remarks;
use std::alloc::{AllocError, Global};

// A command that a module was given last.
#[derive(Drop)]
struct Told {
    module: u8,
    number: u64,
    task: Vec<u8>,
}

/// The last command of each module.
#[derive(Drop)]
pub(crate) struct Commands {
    told: Vec<Told>,
}

/// How a module is called: 1 is the robot, 2 the aligner, and each other a chamber (this tool's profile, alarms).
pub(crate) fn module_name(alloc: Global, module: u8) -> Result<String, AllocError> {
    match module {
        0 => String::from_str(alloc, "no module"),
        1 => String::from_str(alloc, "the robot"),
        2 => String::from_str(alloc, "the aligner"),
        _ => {
            let chamber = module.saturating_sub(2);
            format!(in alloc; "chamber {chamber}")
        }
    }
}

impl Commands {
    pub(crate) fn new(alloc: Global) -> Commands {
        Commands {
            told: Vec::new(alloc),
        }
    }

    /// A module is told to do this.
    pub(crate) fn tell(
        &mut self,
        alloc: Global,
        module: u8,
        number: u64,
        task: &[u8],
    ) -> Result<(), AllocError> {
        self.told.retain(|other| other.module != module);
        let task = Vec::from_slice(alloc, task)?;
        self.told.push(Told {
            module,
            number,
            task,
        })?;
        Ok(())
    }

    // What a module was told by this command.
    fn task_of(&self, module: u8, number: u64) -> Option<&[u8]> {
        match self
            .told
            .iter()
            .find(|told| told.module == module && told.number == number)
        {
            Some(told) => Some(told.task.as_slice()),
            None => None,
        }
    }

    /// The words of a command that a module was told, or its number where that is not above.
    pub(crate) fn task_words(
        &self,
        alloc: Global,
        module: u8,
        number: u64,
    ) -> Result<Vec<u8>, AllocError> {
        match self.task_of(module, number) {
            Some(task) => Vec::from_slice(alloc, task),
            None => Ok(format!(in alloc; "command {number}, which is not above")?.into_bytes()),
        }
    }
}

/// Says what a module did, or is to do.
pub(crate) fn say_module(
    alloc: Global,
    module: u8,
    verb: &str,
    task: &[u8],
    out: &mut Remarks,
) -> Result<(), AllocError> {
    let name = module_name(alloc, module)?;
    out.say_three(name.as_str(), verb, task)
}
