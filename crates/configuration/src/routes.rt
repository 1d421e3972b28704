//! The reader of a recipe's route.
ghost use Rattle.std.specs.Prelude.{◌≡◌, ◌≤◌, nat_lt, [], length, option_map, IfSome};
ghost use Rattle.std.specs.List.{list_all};
ghost use Rattle.tool_tasks.specs.Chambers.{last_chamber, chamber_list, chamber_set};
ghost use Rattle.tool_tasks.specs.Routes.{most_steps, is_before, rises};
ghost use Rattle.toml.specs.View.{view, items_view};
ghost use Rattle.configuration.specs.Values.{numbers_behind};
ghost use Rattle.configuration.specs.Routes.{chambers_in, steps_in, route_in, route_key, route_of};

use crate::values::{filled_list, number_in};
use toml::Value;
use tool_tasks::{RecipeChambers, Route, has_chamber};

// The greatest number of steps.
const MOST_STEPS: usize = 6;

// The greatest number of a chamber.
const LAST_CHAMBER: u8 = 8;

// ---- steps

// The chambers of some values, distinct numbers from 1 to so many.
fn chamber_set(values: &[Value], chambers: u8) -> Option<RecipeChambers>
    requires { chambers ≤ last_chamber }
    ensures { result ≡ option_map chamber_set (numbers_behind 1 chambers [] (items_view values.now)) }
{
    let mut found = RecipeChambers::none();
    for value in values {
        let chamber = number_in(value, 1, u64::from(chambers))? as u8;
        if has_chamber(found.bits(), chamber) {
            return None;
        }
        found = found.with(chamber);
    }
    Some(found)
}

// The chambers of a list that isn't empty of distinct numbers from 1 to so many.
fn chambers_in(value: &Value, chambers: u8) -> Option<RecipeChambers>
    requires { chambers ≤ last_chamber }
    ensures { result ≡ chambers_in chambers (view value.now) }
{
    chamber_set(filled_list(value)?, chambers)
}

// The steps of some values, each a list of chambers.
fn steps_in(values: &[Value], chambers: u8) -> Option<Route>
    requires chambers { chambers ≤ last_chamber }
    requires few { length values.now ≤ most_steps }
    ensures steps { result ≡ steps_in chambers (items_view values.now) }
    ensures few { IfSome result (λ steps. length steps ≤ most_steps) }
{
    let mut found = Route::none();
    for value in values {
        let step = chambers_in(value, chambers)?;
        found.push(step);
    }
    Some(found)
}

// ---- steps that rise

// Whether a chamber has a smaller number than each of a set.
fn is_before_each(chamber: u8, set: RecipeChambers) -> bool
    ensures { result ≡ list_all (nat_lt chamber) (chamber_list set) }
{
    for other in 1..LAST_CHAMBER + 1 {
        if has_chamber(set.bits(), other) && other <= chamber {
            return false;
        }
    }
    true
}

// Whether each chamber of one step has a smaller number than each of another.
fn is_before(earlier: RecipeChambers, later: RecipeChambers) -> bool
    ensures { result ≡ is_before earlier later }
{
    for chamber in 1..LAST_CHAMBER + 1 {
        if has_chamber(earlier.bits(), chamber) && !is_before_each(chamber, later) {
            return false;
        }
    }
    true
}

// Whether each step is before the next.
fn rises(route: &Route) -> bool
    ensures { result ≡ rises route.now }
{
    for number in 1..route.len() as u8 {
        if !is_before(route.step(number - 1), route.step(number)) {
            return false;
        }
    }
    true
}

// ---- routes

// The route of a list of one to six steps, each before the next.
fn route_in(value: &Value, chambers: u8) -> Option<Route>
    requires { chambers ≤ last_chamber }
    ensures { result ≡ route_in chambers (view value.now) }
{
    let values = filled_list(value)?;
    if values.len() > MOST_STEPS {
        return None;
    }
    let route = steps_in(values, chambers)?;
    if rises(&route) { Some(route) } else { None }
}

// The key of a recipe's route.
pub(crate) fn route_key(version: u8) -> &'static str
    ensures { result.now ≡ route_key version }
{
    if version == 1 { "chambers" } else { "route" }
}

// The route that its value says: that of one step in version 1.
pub(crate) fn route_of(value: &Value, version: u8, chambers: u8) -> Option<Route>
    requires { chambers ≤ last_chamber }
    ensures { result ≡ route_of version chambers (view value.now) }
{
    if version == 1 {
        Some(Route::of(chambers_in(value, chambers)?))
    } else {
        route_in(value, chambers)
    }
}
