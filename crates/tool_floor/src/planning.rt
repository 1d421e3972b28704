//! What the modules are to do next (this tool's profile, moves).

ghost use Rattle.std.specs.Prelude.{◌≡◌, ◌≤◌, ◌+◌, nat_lt, [], true, false, length, Some, option_copied};
ghost use Rattle.gem_tables.specs.Machine.{first_ready};
ghost use Rattle.robot_moves.specs.Modules.{module_at};
ghost use Rattle.robot_moves.specs.Moves.{next_move};
ghost use Rattle.floor_model.specs.Floor.{module_numbers};
ghost use Rattle.floor_model.specs.Jobs.{job_of, is_job_so, is_processing};
ghost use Rattle.floor_model.specs.Views.{route_of, recipe_of, route_for, goes_on, view_of, views, planned};
ghost use Rattle.tool_tasks.specs.Routes.{step_at};
ghost use Rattle.floor_model.specs.Modules.{is_by, move_ready, move_starts};

use crate::floor::ToolFloor;
use crate::rows;
use floor_model::Substrate;
use gem_ids::{ModuleId, Text80};
use gem_tables::{Firing, Table};
use process_job::{JobState, ProcessJob};
use robot_moves::{Module, Move, PlaceView, Planner};
use substrate::Registered;
use tool_jobs::Jobs;
use tool_tasks::{Recipe, Route};

// The route of a recipe, with no step where there is none.
fn route_of(recipe: Option<Recipe>) -> Route
    ensures { result ≡ route_of recipe }
{
    match recipe {
        Some(recipe) => recipe.route,
        None => Route::none(),
    }
}

// The set of the chambers of a step of a recipe's route, none where there is none.
fn chambers_of(recipe: Option<Recipe>, step: u8) -> u8
    ensures { result ≡ step_at step (route_of recipe) }
{
    route_of(recipe).step(step).bits()
}

// The route of a substrate: that of the recipe of its process job, in a tool with these jobs.
fn route_for(s: &Substrate, jobs: &Jobs) -> Route
    ensures { result ≡ route_for s.now jobs.now }
{
    let known = jobs.process();
    route_of(known.recipe(recipe_of(known.numbered(s.job))))
}

// Whether a step that is done isn't the last of a substrate's route.
pub(crate) fn has_further_step(s: &Substrate, jobs: &Jobs) -> bool
    ensures { result ≡ nat_lt (s.now.steps + 1) (length (route_for s.now jobs.now)) }
{
    usize::from(s.steps) + 1 < route_for(s, jobs).len()
}

// The name of the recipe of a process job, empty where there is none.
fn recipe_of(job: Option<&ProcessJob>) -> Text80
    ensures { result ≡ recipe_of (option_copied job.entry) }
{
    match job {
        Some(job) => job.recipe,
        None => Text80::empty(),
    }
}

// Whether a process job is there, and PROCESSING.
pub(crate) fn is_processing(job: Option<&ProcessJob>) -> bool
    ensures { result ≡ is_job_so is_processing (option_copied job.entry) }
{
    match job {
        Some(job) => matches!(job.states.state, JobState::Processing),
        None => false,
    }
}

// What the planner is told of a substrate and its place, with its process job where it is in one, in a tool with these jobs.
pub(crate) fn view_of(r: &Registered, s: &Substrate, jobs: &Jobs) -> PlaceView
    ensures { result ≡ view_of r.now s.now (job_of s.now jobs.now) jobs.now.process.recipes }
{
    let job = jobs.process().numbered(s.job);
    let recipe = recipe_of(job);
    PlaceView {
        sub: r.sub,
        number: r.number,
        at: r.at,
        slot: s.slot,
        aligned: s.aligned,
        finished: s.states.processing.is_finished(),
        in_process: s.states.processing.is_in_process(),
        may_start: is_processing(job),
        chambers: chambers_of(jobs.process().recipe(recipe), s.steps),
        recipe,
    }
}

impl ToolFloor {
    // What the module of a number is to do.
    pub(crate) fn planned(&self, m: ModuleId) -> Option<Move>
        ensures { result ≡ planned m.0 self.now }
    {
        if !self.is_any_at_work() && !self.is_any_processing() {
            return None;
        }
        self.plan_of(m)
    }

    // The same, by what the planner asks for.
    #[inline(never)]
    fn plan_of(&self, m: ModuleId) -> Option<Move>
        ensures { result ≡ planned m.0 self.now }
    {
        let planner = Planner::new().unwrap();
        planner.of_module_of(m, self, &self.modules)
    }

    // The next move of all modules.
    #[inline(never)]
    fn next_move(&self) -> Option<Move>
        ensures { result ≡ next_move (views self.now) self.now.modules }
    {
        let planner = Planner::new().unwrap();
        planner.next_of(self, &self.modules)
    }

    // The row of table 16 that is ready at the first module at which one is.
    pub(crate) fn ready_move(&self) -> Option<Firing>
        ensures { result ≡ first_ready 16 (λ number. move_ready (planned number self.now) (module_at number self.now.modules)) (module_numbers 1 self.now.modules) }
    {
        if !self.is_any_at_work() && !self.is_any_processing() {
            return None;
        }
        match self.next_move() {
            Some(next) => Some(Firing::of(Table::Moves, u64::from(next.module.0), next.row)),
            None => None,
        }
    }

    // Whether a row starts at a module that is there.
    pub(crate) fn starts_at_module(&self, row: u8, m: ModuleId, module: &Module) -> bool
        ensures { result ≡ move_starts row (planned m.0 self.now) (Some module.now) }
    {
        if 1 <= row && row <= 4 {
            matches!(module, Module::Idle) && self.is_planned(row, m)
        } else {
            rows::starts(row, module)
        }
    }

    // Whether what a module is to do is by the row of this number.
    fn is_planned(&self, row: u8, m: ModuleId) -> bool
        ensures { result ≡ is_by row (planned m.0 self.now) }
    {
        match self.planned(m) {
            Some(next) => next.row == row,
            None => false,
        }
    }
}
