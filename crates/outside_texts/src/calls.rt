//! Calls of the libraries that the program itself does not make, with ample memory: on little that they are given, and on much.
//!
//! `module 3 fails 2 4` makes a module whose acts 2 and 4 fail, and `module 3 fails to 5000` one of which the first 5,000 do; `act 7` tells it
//! command 7, and `acts 5000` so many commands 7, of which the last is answered. `line TEXT` asks what a line says, and `hex 300` what `H`
//! and a blank say with so many digits 0 behind them. `jobs 64` creates so many process jobs, PJ1 and the next, and `list` asks for the list
//! of them behind a list without items: how many items there are then, and what the second and the last of them say. `identity GEM 1.0` asks
//! for the texts of the item of an S1F2 of these, and `values 1000` how many values that of an S1F4 of so many has; each is asked twice of a
//! reply that is lent.

use crate::replies::{identity_words, values_words};
use anyhow::{Result, bail};
use gem_ids::{CmdNo, JobId, ModuleId, SubstrateId};
use item_model::{Item, Items};
use process_job::{JobSpec, Material, Materials, ProcessJobs, Slots};
use sim_modules::SimModule;
use std::alloc::{AllocError, Global};
use test_lines::{Subject, first_word, nothing, number, text_of, words};
use tool_events::Signal;
use tool_tasks::{Command, Recipe, RecipeChambers, Route, Task};
use tool_texts::{Line, LineFault, read_line};

/// A module, and process jobs.
#[derive(Drop)]
pub struct Calls {
    module: SimModule,
    jobs: ProcessJobs,
}

impl Calls {
    /// Module 1, which fails at no act, and no process job.
    pub fn new(alloc: Global) -> Result<Calls, AllocError> {
        let recipe = Recipe {
            name: text_of("R1"),
            route: Route::of(RecipeChambers::to(1)),
        };
        Ok(Calls {
            module: SimModule::without_failures(alloc, ModuleId(1)),
            jobs: ProcessJobs::new(alloc, &[recipe])?,
        })
    }
}

impl Subject for Calls {
    fn answer(&mut self, alloc: Global, said: &str) -> Result<String> {
        let (first, rest) = first_word(said);
        match first {
            "module" => {
                self.module = module_of(alloc, rest)?;
                nothing(alloc)
            }
            "act" => acted(alloc, &mut self.module, 1, rest),
            "acts" => acted(
                alloc,
                &mut self.module,
                rest.parse::<u64>().unwrap_or(0),
                "7",
            ),
            "line" => line_words(alloc, &read_line(alloc, rest.as_bytes())),
            "hex" => hex_words(alloc, rest),
            "jobs" => created(alloc, &mut self.jobs, rest),
            "list" => listed(alloc, &self.jobs),
            "identity" => identity_words(alloc, rest),
            "values" => values_words(alloc, rest),
            _ => bail!("there is no such call"),
        }
    }
}

// ---- modules

// A module with its plan.
fn module_of(alloc: Global, said: &str) -> Result<SimModule> {
    let Some((module, plan)) = said.split_once(" fails ") else {
        bail!("a module has a plan");
    };
    let module = ModuleId(module.parse::<u8>().unwrap_or(0));
    let fails = plan_of(alloc, plan)?;
    Ok(SimModule::new(alloc, module, fails.as_slice())?)
}

// The counts of a plan.
fn plan_of(alloc: Global, plan: &str) -> Result<Vec<u64>> {
    if let Some(last) = plan.strip_prefix("to ") {
        return counts_to(alloc, last.parse::<u64>().unwrap_or(0));
    }
    let counts = words(alloc, plan)?;
    let mut fails = Vec::new(alloc);
    for place in 0..counts.len() {
        fails.push(number(counts.as_slice(), place)?)?;
    }
    Ok(fails)
}

// The counts from 1 to the last.
fn counts_to(alloc: Global, last: u64) -> Result<Vec<u64>> {
    let mut fails = Vec::new(alloc);
    for before in 0..last {
        fails.push(before.saturating_add(1))?;
    }
    Ok(fails)
}

// Tells the module a command so often; what it answers at last.
fn acted(alloc: Global, module: &mut SimModule, times: u64, command: &str) -> Result<String> {
    let Some(sub) = SubstrateId::read(text_of("CAR01.01")) else {
        bail!("that is no name of a substrate");
    };
    let command = Command {
        number: CmdNo(command.parse::<u64>().unwrap_or(0)),
        task: Task::Align { sub },
    };
    let mut answer = nothing(alloc)?;
    for _ in 0..times {
        answer = signal_words(alloc, module.act(&command))?;
    }
    Ok(answer)
}

// What a module answers.
fn signal_words(alloc: Global, signal: Signal) -> Result<String> {
    let words = match signal {
        Signal::Done(m, n) => format!(in alloc; "done {} {}", m.0, n.0)?,
        Signal::Failed(m, n) => format!(in alloc; "failed {} {}", m.0, n.0)?,
        _ => String::from_str(alloc, "another signal")?,
    };
    Ok(words)
}

// ---- lines

// What a line is read as.
fn line_words(alloc: Global, read: &Result<Line, LineFault>) -> Result<String> {
    let words = match read {
        Ok(Line::Bytes(bytes)) => format!(in alloc; "bytes {}", bytes.as_slice().len())?,
        Ok(Line::Moment(at)) => format!(in alloc; "moment {}", at.0)?,
        Ok(Line::Watch(port)) => format!(in alloc; "watch {}", port.0)?,
        Err(LineFault::Place(place)) => format!(in alloc; "place {place}")?,
        other => String::from_str(alloc, line_word(other))?,
    };
    Ok(words)
}

// What a line is read as that one word tells.
fn line_word(read: &Result<Line, LineFault>) -> &'static str {
    match read {
        Ok(Line::Skip) => "skip",
        Ok(Line::Up) => "up",
        Ok(Line::Down) => "down",
        Ok(Line::Oper(_)) => "oper",
        Ok(Line::Signal(_)) => "signal",
        Err(LineFault::NoMemory) => "no memory",
        _ => "another line",
    }
}

// What a line of bytes with so many digits is read as.
fn hex_words(alloc: Global, digits: &str) -> Result<String> {
    let mut line = Vec::from_slice(alloc, b"H ")?;
    for _ in 0..digits.parse::<u64>().unwrap_or(0) {
        line.push(b'0')?;
    }
    line_words(alloc, &read_line(alloc, line.as_slice()))
}

// ---- process jobs

// Creates so many process jobs behind those that there are.
fn created(alloc: Global, jobs: &mut ProcessJobs, count: &str) -> Result<String> {
    for more in 0..count.parse::<u64>().unwrap_or(0) {
        let spec = spec_of(alloc, more.saturating_add(1))?;
        if let Err(fault) = jobs.create(spec) {
            return Ok(format!(in alloc; "{fault}")?);
        }
    }
    nothing(alloc)
}

// A process job over carrier CAR01.
fn spec_of(alloc: Global, number: u64) -> Result<JobSpec> {
    let name = format!(in alloc; "PJ{number}")?;
    let Some(id) = JobId::read(text_of(name.as_str())) else {
        bail!("that is no name of a job");
    };
    let mut material = Materials::new(alloc);
    material.push(Material {
        carrier: text_of("CAR01"),
        slots: Slots::new(alloc),
    })?;
    Ok(JobSpec {
        id,
        material,
        recipe: text_of("R1"),
        auto: true,
    })
}

// The list of the process jobs, behind a list without items.
fn listed(alloc: Global, jobs: &ProcessJobs) -> Result<String> {
    let mut items = Items::new(alloc);
    items.push(Item::List(Items::new(alloc)))?;
    jobs.list(alloc, &mut items)?;
    let second = job_words(alloc, items.as_slice().get(1))?;
    let last = job_words(alloc, items.as_slice().last())?;
    Ok(format!(in alloc; "{} {second} {last}", items.len())?)
}

// A job of a list: its name and the number of its state; and `none` where it is no such item.
fn job_words(alloc: Global, item: Option<&Item>) -> Result<String> {
    if let Some(Item::List(parts)) = item {
        if let [Item::Ascii(name), Item::U1(state)] = parts.as_slice() {
            let name = String::from_utf8_lossy(alloc, name.as_slice())?;
            return Ok(format!(in alloc; "{} {:?}", name.as_str(), state.as_slice())?);
        }
    }
    Ok(String::from_str(alloc, "none")?)
}
