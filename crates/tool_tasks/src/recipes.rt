ghost use Rattle.std.specs.Prelude.{◌≡◌, ◌↔◌, ◌<◌, ◌≤◌, [], ◌∷◌, ◌++◌, length, IsTrue};
ghost use Rattle.tool_tasks.specs.Recipes.{most_recipes};

use crate::routes::Route;
use gem_ids::Text80;
use std::marker::Model;

/// A recipe (this tool's profile, configuration).
#[derive(Clone, Copy)]
pub struct Recipe {
    /// Its name, 1 to 64 bytes.
    pub name: Text80,
    /// The steps of it, in their order.
    pub route: Route,
}

/// The recipes of a tool, at most 32, in the order of the configuration. Contracts see them as a list.
#[derive(Clone, Copy)]
pub struct Recipes {
    // Blank places stand behind the recipes, so that equal lists have equal fields.
    recipes: [Recipe; 32],
    count: u8,
}

impl Model for Recipes {
    ghost use Rattle.std.specs.Prelude.{◌-◌, ◌++◌, List, length, take, replicate};
    ghost use Rattle.tool_tasks.specs.declared.recipes.Recipe.{Recipe};
    ghost use Rattle.tool_tasks.specs.Places.{Holds, held_count, held_places};
    ghost use Rattle.tool_tasks.specs.Recipes.{most_recipes, blank};

    ghost Value = { List Recipe };

    ghost view = { λ r. take r.count r.recipes };

    ghost invariant = { λ r. Holds most_recipes blank r.recipes r.count };

    ghost inverse = { λ recipes. record { recipes = recipes ++ replicate (most_recipes - length recipes) blank; count = length recipes } };

    ghost inverse_ok = { λ r h i. record { recipes = held_places most_recipes blank r.recipes r.count h i; count = held_count most_recipes blank r.recipes r.count h i } };
}

impl Recipes {
    /// No recipes.
    pub fn none() -> Recipes
        ensures { result ≡ [] }
    {
        let blank = Recipe {
            name: Text80::empty(),
            route: Route::none(),
        };
        Recipes {
            recipes: [blank; 32],
            count: 0,
        }
    }

    /// Puts a recipe behind the others.
    pub fn push(&mut self, recipe: Recipe)
        requires room { length self.old < most_recipes }
        ensures { self.new ≡ self.old ++ recipe ∷ [] }
    {
        self.recipes[self.count as usize] = recipe;
        self.count += 1;
    }

    /// The recipes, in the order of the configuration.
    pub fn as_slice(&self) -> &[Recipe]
        ensures { result.now ≡ self.now }
    {
        &self.recipes[..self.count as usize]
    }

    /// How many recipes there are, at most 32.
    pub fn len(&self) -> usize
        ensures count { result ≡ length self.now }
        ensures fits { result ≤ most_recipes }
    {
        self.count as usize
    }

    /// Whether there are none.
    pub fn is_empty(&self) -> bool
        ensures { IsTrue result ↔ (self.now ≡ []) }
    {
        self.count == 0
    }
}
