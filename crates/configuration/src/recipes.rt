//! The reader of recipes.
ghost use Rattle.std.specs.Prelude.{◌≡◌, ◌≤◌, true, [], Some, None, option_map, if◌then◌else◌};
ghost use Rattle.tool_tasks.specs.Chambers.{last_chamber};
ghost use Rattle.tool_events.specs.Configs.{are_usable};
ghost use Rattle.toml.specs.Data.{get_member};
ghost use Rattle.toml.specs.View.{view, table_view, items_view};
ghost use Rattle.configuration.specs.Recipes.{recipe_in, has_name, with_recipe, recipes_of, recipes_behind, recipe_for_all};

use crate::keys::has_other_key;
use crate::routes::{route_key, route_of};
use crate::values::{filled_list, text_of};
use gem_ids::Text80;
use toml::{Table, Value};
use tool_tasks::{Recipe, RecipeChambers, Recipes, Route};

// The greatest number of recipes.
const MOST_RECIPES: usize = 32;

// The value at a key.
pub(crate) fn value_at<'a>(table: &'a Table, key: &str) -> Option<&'a Value>
    ensures { option_map (λ v. view v.now) result ≡ get_member key.now (table_view table.now) }
{
    table.get(key)
}

// A recipe of a table.
fn recipe_in(table: &Table, version: u8, chambers: u8) -> Option<Recipe>
    requires { chambers ≤ last_chamber }
    ensures { result ≡ recipe_in version chambers (table_view table.now) }
{
    if has_other_key(table, ["name", route_key(version)].as_slice()) {
        return None;
    }
    let name = text_of(value_at(table, "name")?, 64)?;
    let route = route_of(value_at(table, route_key(version))?, version, chambers)?;
    Some(Recipe { name, route })
}

// Whether one of these recipes has the name.
fn has_name(recipes: &[Recipe], name: Text80) -> bool
    ensures { result ≡ has_name name recipes.now }
{
    for recipe in recipes {
        if name.as_bytes() == recipe.name.as_bytes() {
            return true;
        }
    }
    false
}

// Puts a recipe behind the others. Whether it could: there are at most 32, and their names are distinct.
fn put(recipes: &mut Recipes, recipe: Recipe) -> bool
    ensures { (if◌then◌else◌ result (Some recipes.new) None) ≡ with_recipe recipes.old recipe }
{
    if recipes.len() >= MOST_RECIPES || has_name(recipes.as_slice(), recipe.name) {
        return false;
    }
    recipes.push(recipe);
    true
}

// The recipes of some values, each a table: at most 32, of distinct names.
fn recipes_in(values: &[Value], version: u8, chambers: u8) -> Option<Recipes>
    requires { chambers ≤ last_chamber }
    ensures { result ≡ recipes_behind version chambers [] (items_view values.now) }
{
    let mut recipes = Recipes::none();
    for value in values {
        let recipe = recipe_in(value.as_table()?, version, chambers)?;
        if !put(&mut recipes, recipe) {
            return None;
        }
    }
    Some(recipes)
}

// A list of 1 to 32 recipes of distinct names.
pub(crate) fn recipes_of(value: &Value, version: u8, chambers: u8) -> Option<Recipes>
    requires { chambers ≤ last_chamber }
    ensures { result ≡ recipes_of version chambers (view value.now) }
{
    recipes_in(filled_list(value)?, version, chambers)
}

// One recipe, `R1`, a route of one step with all chambers.
#[tactic(auto, using(crate::proofs::Usable::default_usable))]
pub(crate) fn recipe_for_all(chambers: u8) -> Recipes
    requires { chambers ≤ last_chamber }
    ensures value { result ≡ recipe_for_all chambers }
    ensures usable { 1 ≤ chambers → are_usable chambers result ≡ true }
{
    let mut recipes = Recipes::none();
    recipes.push(Recipe {
        name: Text80::read(b"R1".as_slice()).unwrap_or(Text80::empty()),
        route: Route::of(RecipeChambers::to(chambers)),
    });
    recipes
}
