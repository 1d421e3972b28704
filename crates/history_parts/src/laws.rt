//! Laws of what is counted. Each function is empty: what it ensures holds of the definitions.

ghost use Rattle.std.specs.Prelude.{◌≡◌, ◌+◌};
ghost use Rattle.gem_tables.specs.declared.firing.Firing.{Firing};
ghost use Rattle.floor_model.specs.Floor.{ToolFloor};
ghost use Rattle.floor_model.specs.Machines.{floor_fired, creation_rows};
ghost use Rattle.history_parts.specs.Additions.{registrations};

/// The last number that was given to a substrate counts the firings of row 1 of table 12: a row of the floor of the tool that fires
/// raises it by as many of them as it lists for what it creates.
pub fn each_registration_has_the_next_number()
    ensures { (f : Firing) (floor : ToolFloor) → (floor_fired f floor).places.given ≡ floor.places.given + registrations (creation_rows f floor) }
{}
