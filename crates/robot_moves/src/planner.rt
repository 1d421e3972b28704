//! The next move of the tool.

ghost use Rattle.std.specs.Prelude.{◌≡◌, ◌<◌, ℕ, None, IsOk};
ghost use Rattle.robot_moves.specs.Moves.{place_move, arm_move, robot_move, align_move, aligner_move, process_move, chamber_move, module_move, next_move};

use crate::listed::Listed;
use crate::modules::Modules;
use crate::targets::{ALIGNER, ROBOT, free_target, is_next};
use crate::view::{Move, PlaceView};
use crate::whereabouts::{Picks, Whereabouts};
use gem_ids::{LocId, ModuleId};
use std::alloc::AllocError;
use tool_tasks::Task;

/// Finds the next move of the tool.
#[derive(Clone, Copy)]
pub struct Planner {}

impl Planner {
    /// A planner. It takes no memory, and there is always one.
    pub fn new() -> Result<Planner, AllocError>
        ensures { IsOk result }
    {
        Ok(Planner {})
    }

    /// The next move, of what is told of the substrates that have a place and of the modules: the least ready row of rows 1 to 4
    /// of table 16, by the number of the module. `None` exactly where none is ready.
    ///
    /// The robot, when Idle, places what its arm holds, if its target is free; with an empty arm it does the useful pick of the
    /// greatest stage, then the least number of registration. Stages rise from the slots over the aligner to the chambers, and
    /// of these by their numbers. The aligner, when Idle, aligns what it holds, if that is unfinished and isn't aligned. A
    /// chamber, when Idle, processes what it holds, if that is unfinished and the chamber is in its next step. Takes no memory.
    pub fn next(&self, places: &[PlaceView], modules: &Modules) -> Option<Move>
        ensures least { result ≡ next_move places.now modules.now }
        ensures finds { result ≡ None → (number : ℕ) → module_move number places.now modules.now ≡ None }
    {
        let listed = Listed { views: places };
        self.next_of(&listed, modules)
    }

    /// The same, where what is told of the substrates is asked for: of a module that is not Idle nothing is asked, and where the
    /// robot is to pick, the best pick is.
    pub fn next_of<P: Picks>(&self, places: &P, modules: &Modules) -> Option<Move>
        ensures { result ≡ next_move (P.told places.now) modules.now }
    {
        for index in 0..modules.len() {
            let found = module_move(index as u8 + 1, places, modules);
            if found.is_some() {
                return found;
            }
        }
        None
    }

    /// What the module of a number is to do, in the same way: its ready row of rows 1 to 4 with the task. `None` exactly where none is
    /// ready, and where there is no such module. Takes no memory.
    pub fn of_module(&self, m: ModuleId, places: &[PlaceView], modules: &Modules) -> Option<Move>
        ensures { result ≡ module_move m.0 places.now modules.now }
    {
        let listed = Listed { views: places };
        self.of_module_of(m, &listed, modules)
    }

    /// The same, where what is told of the substrates is asked for.
    pub fn of_module_of<P: Picks>(&self, m: ModuleId, places: &P, modules: &Modules) -> Option<Move>
        ensures { result ≡ module_move m.0 (P.told places.now) modules.now }
    {
        module_move(m.0, places, modules)
    }
}

// What the module of a number is to do.
fn module_move<P: Picks>(number: u8, places: &P, modules: &Modules) -> Option<Move>
    ensures { result ≡ module_move number (P.told places.now) modules.now }
{
    match number {
        0 => None,
        1 => robot_move(places, modules),
        2 => aligner_move(places, modules),
        _ => chamber_move(number, places, modules),
    }
}

// ---- the robot

fn robot_move<P: Picks>(places: &P, modules: &Modules) -> Option<Move>
    ensures { result ≡ robot_move (P.told places.now) modules.now }
{
    if modules.is_idle(ROBOT) {
        arm_move(places, modules, places.holder(LocId::Arm))
    } else {
        None
    }
}

// What the robot does with what its arm holds, or with an empty arm.
fn arm_move<P: Picks>(places: &P, modules: &Modules, held: Option<PlaceView>) -> Option<Move>
    ensures { result ≡ arm_move (P.told places.now) modules.now held }
{
    match held {
        Some(v) => place_move(places, modules, &v),
        None => match places.best_pick(modules) {
            Some(v) => Some(Move {
                module: ROBOT,
                row: 2,
                task: Task::Pick {
                    sub: v.sub,
                    from: v.at,
                },
            }),
            None => None,
        },
    }
}

fn place_move<P: Whereabouts>(places: &P, modules: &Modules, v: &PlaceView) -> Option<Move>
    ensures { result ≡ place_move (P.told places.now) modules.now v.now }
{
    match free_target(places, modules, v) {
        Some(to) => Some(Move {
            module: ROBOT,
            row: 1,
            task: Task::Place { sub: v.sub, to },
        }),
        None => None,
    }
}

// ---- the aligner and the chambers

fn aligner_move<P: Whereabouts>(places: &P, modules: &Modules) -> Option<Move>
    ensures { result ≡ aligner_move (P.told places.now) modules.now }
{
    if modules.is_idle(ALIGNER) {
        align_move(places.holder(LocId::Aligner))
    } else {
        None
    }
}

fn align_move(held: Option<PlaceView>) -> Option<Move>
    ensures { result ≡ align_move held }
{
    match held {
        Some(v) => {
            if !v.finished && !v.aligned {
                Some(Move {
                    module: ALIGNER,
                    row: 3,
                    task: Task::Align { sub: v.sub },
                })
            } else {
                None
            }
        }
        None => None,
    }
}

fn chamber_move<P: Whereabouts>(number: u8, places: &P, modules: &Modules) -> Option<Move>
    requires { 2 < number }
    ensures { result ≡ chamber_move number (P.told places.now) modules.now }
{
    if modules.is_idle(ModuleId(number)) {
        process_move(number, places.holder(LocId::Chamber(number - 2)))
    } else {
        None
    }
}

fn process_move(number: u8, held: Option<PlaceView>) -> Option<Move>
    requires { 2 < number }
    ensures { result ≡ process_move number held }
{
    match held {
        Some(v) => {
            if !v.finished && is_next(&v, number - 2) {
                Some(Move {
                    module: ModuleId(number),
                    row: 4,
                    task: Task::Process {
                        sub: v.sub,
                        recipe: v.recipe,
                    },
                })
            } else {
                None
            }
        }
        None => None,
    }
}
