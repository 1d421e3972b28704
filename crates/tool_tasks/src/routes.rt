//! The route of a recipe (this tool's profile, configuration).
ghost use Rattle.std.specs.Prelude.{◌≡◌, ◌<◌, ◌≤◌, [], ◌∷◌, ◌++◌, length};
ghost use Rattle.tool_tasks.specs.Routes.{most_steps, step_at};

use crate::chambers::RecipeChambers;
use std::marker::Model;

/// The steps of a recipe in their order, at most 6, each the chambers that can do it. Contracts see it as a list of sets of chambers.
#[derive(Clone, Copy)]
pub struct Route {
    // No chambers stand behind the steps, so that equal routes have equal fields.
    steps: [RecipeChambers; 6],
    count: u8,
}

impl Model for Route {
    ghost use Rattle.std.specs.Prelude.{ℕ, ◌-◌, ◌++◌, List, length, take, replicate};
    ghost use Rattle.tool_tasks.specs.Places.{Holds, held_count, held_places};
    ghost use Rattle.tool_tasks.specs.Routes.{most_steps};

    ghost Value = { List ℕ };

    ghost view = { λ r. take r.count r.steps };

    ghost invariant = { λ r. Holds most_steps 0 r.steps r.count };

    ghost inverse = { λ steps. record { steps = steps ++ replicate (most_steps - length steps) 0; count = length steps } };

    ghost inverse_ok = { λ r h i. record { steps = held_places most_steps 0 r.steps r.count h i; count = held_count most_steps 0 r.steps r.count h i } };
}

impl Route {
    /// No steps.
    pub fn none() -> Route
        ensures { result ≡ [] }
    {
        Route {
            steps: [RecipeChambers::none(); 6],
            count: 0,
        }
    }

    /// A route of one step.
    pub fn of(step: RecipeChambers) -> Route
        ensures { result ≡ step ∷ [] }
    {
        let mut route = Route::none();
        route.push(step);
        route
    }

    /// Puts a step behind the others.
    pub fn push(&mut self, step: RecipeChambers)
        requires room { length self.old < most_steps }
        ensures { self.new ≡ self.old ++ step ∷ [] }
    {
        self.steps[self.count as usize] = step;
        self.count += 1;
    }

    /// The step of a number, from 0 on; no chamber where there is none.
    pub fn step(&self, number: u8) -> RecipeChambers
        ensures { result ≡ step_at number self.now }
    {
        if number < self.count {
            self.steps[number as usize]
        } else {
            RecipeChambers::none()
        }
    }

    /// How many steps there are, at most 6.
    pub fn len(&self) -> usize
        ensures count { result ≡ length self.now }
        ensures fits { result ≤ most_steps }
    {
        self.count as usize
    }
}
