//! The planner, which is asked for the next move again and again.
//!
//! `planner SUBSTRATES ROUNDS CHAMBERS` does it so many times for a tool of so many chambers, 1 to 8, that are Idle and empty and each in the
//! next step of each substrate, with an Idle aligner and robot, and so many substrates, 1 to 100, that stand unfinished in their slots,
//! four ports of 25. None may leave its slot but the last of them, so that it is looked for among all. It tells how many times the last
//! one was to be picked.

use anyhow::{Result, bail};
use gem_ids::{LocId, PortNo, SlotNo, SubstrateId, Text80};
use robot_moves::{Modules, PlaceView, Planner};
use std::alloc::Global;
use tool_tasks::{RecipeChambers, Task};

// The slot of a substrate by its number, from 0: port by port.
fn slot(number: u8) -> LocId {
    LocId::Slot(PortNo(number / 25 % 4 + 1), SlotNo(number % 25 + 1))
}

// A substrate's name by its number: W000, W001, ..
fn named(number: u8) -> Result<SubstrateId> {
    let digits = [number / 100 % 10, number / 10 % 10, number % 10];
    let name = [b'W', b'0' + digits[0], b'0' + digits[1], b'0' + digits[2]];
    match SubstrateId::read(Text80::read(&name)?) {
        Some(sub) => Ok(sub),
        None => bail!("it names no substrate"),
    }
}

// A substrate that stands unfinished in its slot, by its number.
fn waiting(number: u8, may_start: bool, chambers: RecipeChambers) -> Result<PlaceView> {
    Ok(PlaceView {
        sub: named(number)?,
        number: u64::from(number) + 1,
        at: slot(number),
        slot: slot(number),
        aligned: false,
        finished: false,
        in_process: false,
        may_start,
        chambers: chambers.bits(),
        recipe: Text80::read(b"R1")?,
    })
}

// So many substrates, of which the last may leave its slot.
fn all_waiting(alloc: Global, count: u8, chambers: RecipeChambers) -> Result<Vec<PlaceView>> {
    let mut places = Vec::with_capacity(alloc, count as usize)?;
    for number in 0..count {
        places.push(waiting(number, number == count.wrapping_sub(1), chambers)?)?;
    }
    Ok(places)
}

// Whether the planner has this substrate picked from its slot.
fn is_picked(planner: &Planner, places: &[PlaceView], modules: &Modules, number: u8) -> bool {
    match planner.next(places, modules) {
        Some(found) => matches!(found.task, Task::Pick { from, .. } if from == slot(number)),
        None => false,
    }
}

/// Asks so many times; how many times the last substrate was to be picked. The error: there are no such substrates or chambers, or no
/// memory.
pub(crate) fn measure(alloc: Global, count: u8, rounds: u64, chambers: u8) -> Result<u64> {
    if count < 1 || count > 100 || chambers < 1 || chambers > 8 {
        bail!("there are 1 to 100 substrates, and 1 to 8 chambers");
    }
    let places = all_waiting(alloc, count, RecipeChambers::to(chambers))?;
    let modules = Modules::new(alloc, chambers)?;
    let planner = Planner::new()?;
    let mut picked: u64 = 0;
    for _ in 0..rounds {
        if is_picked(&planner, places.as_slice(), &modules, count.wrapping_sub(1)) {
            picked = picked.saturating_add(1);
        }
    }
    Ok(picked)
}
