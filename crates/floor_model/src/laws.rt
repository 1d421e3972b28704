//! Laws of the definitions, for proofs to cite. Each function is empty: what it ensures holds of the definitions.

ghost use Rattle.std.specs.Prelude.{◌≡◌, ◌+◌, ◌<◌, true, [], length, Some};
ghost use Rattle.std.specs.List.{AllByRecursion};
ghost use Rattle.gem_tables.specs.declared.firing.Firing.{Firing};
ghost use Rattle.shop_floor.specs.Valid.{IsFloor};
ghost use Rattle.floor_model.specs.Floor.{ToolFloor};
ghost use Rattle.floor_model.specs.Machines.{floor_starts, floor_fired, floor_least, creation_rows, is_creation};
ghost use Rattle.floor_model.specs.Left.{floor_left};

/// The floor of the tool comes to rest: what is left falls with each row that fires by itself, by more than the number of rows
/// that follow it. Those are rows of what it created, which change nothing and which no row follows.
pub fn the_floor_comes_to_rest()
    ensures falls { (f : ToolFloor) (x : Firing)
        → floor_least f ≡ Some x → floor_left (floor_fired x f) + length (creation_rows x f) < floor_left f }
    ensures follow { (f : ToolFloor) (x : Firing)
        → AllByRecursion (λ (d : Firing). is_creation d ≡ true) (creation_rows x f) }
    ensures creation { (f : ToolFloor) (d : Firing) → is_creation d ≡ true → floor_fired d f ≡ f }
    ensures no_more { (f : ToolFloor) (d : Firing) → is_creation d ≡ true → creation_rows d f ≡ [] }
{}

/// A row that fires by itself starts, and so do the rows that follow any row that starts, behind it.
pub fn a_ready_row_starts()
    ensures least { (f : ToolFloor) (x : Firing) → floor_least f ≡ Some x → floor_starts x f ≡ true }
    ensures follow { (f : ToolFloor) (x : Firing)
        → AllByRecursion (λ (d : Firing). floor_starts d (floor_fired x f) ≡ true) (creation_rows x f) }
{}

/// What holds of the ports and the carriers holds behind each row that starts.
pub fn the_floor_stays_valid()
    ensures { (x : Firing) (f : ToolFloor) → floor_starts x f ≡ true → IsFloor f.shop → IsFloor (floor_fired x f).shop }
{}
