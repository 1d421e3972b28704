//! Laws of the definitions, for proofs to cite. Each function is empty: what it ensures holds of the definitions.

ghost use Rattle.std.specs.Prelude.{◌≡◌, ℕ, suc, ◌+◌, ◌==◌, ◌<◌, ◌≤◌, true, false, List, [], ◌∷◌, length, Contains, Some, IsSomeAnd};
ghost use Rattle.std.specs.List.{AllByRecursion};
ghost use Rattle.gem_tables.specs.Table.{firing, is_one_of};
ghost use Rattle.gem_tables.specs.declared.firing.Firing.{Firing};
ghost use Rattle.load_port.specs.declared.port.Arrival.{Arrival};
ghost use Rattle.load_port.specs.Caack.{is_done_code};
ghost use Rattle.load_port.specs.Ports.{most_ports, port_numbered};
ghost use Rattle.carrier.specs.declared.action.CarrierAction.{CarrierAction};
ghost use Rattle.carrier.specs.declared.action.CarrierWord.TheVariants.{Bind, Notify};
ghost use Rattle.carrier.specs.declared.carrier.Carrier.{Carrier};
ghost use Rattle.carrier.specs.Record.{is_id_not_read, is_map_not_read, is_map_verified};
ghost use Rattle.carrier.specs.Carriers.{is_known, is_present_at, carrier_numbered, most_carriers};
ghost use Rattle.shop_floor.specs.Floor.{Floor, opening, with_marked};
ghost use Rattle.shop_floor.specs.Rows.{forgets, owner};
ghost use Rattle.shop_floor.specs.Machines.{floor_starts, floor_fired, floor_least, creation_rows, creates};
ghost use Rattle.shop_floor.specs.Left.{floor_left, map_falls};
ghost use Rattle.shop_floor.specs.Requests.{carrier_code, carrier_written, came};
ghost use Rattle.shop_floor.specs.Valid.{IsFloor};

/// The ports and the carriers come to rest: what is left falls with each row that fires by itself, by more than the number
/// of rows that follow it. Those are rows of a carrier that it created, which change nothing and which no row follows.
pub fn the_floor_comes_to_rest()
    ensures falls { (f : Floor) (x : Firing)
        → floor_least f ≡ Some x → floor_left (floor_fired x f) + (map_falls x + length (creation_rows x f)) < floor_left f }
    ensures follow { (f : Floor) (x : Firing)
        → AllByRecursion (λ (d : Firing). d ≡ firing 8 d.object 1) (creation_rows x f) }
    ensures creation { (f : Floor) (carrier : ℕ) → floor_fired (firing 8 carrier 1) f ≡ f }
    ensures no_more { (f : Floor) (carrier : ℕ) → creation_rows (firing 8 carrier 1) f ≡ [] }
{}

/// A row that fires by itself starts. It is a row of table 4, 6, 7, 8 or 9.
pub fn a_ready_row_starts()
    ensures least { (f : Floor) (x : Firing) → floor_least f ≡ Some x → floor_starts x f ≡ true }
    ensures table { (f : Floor) (x : Firing)
        → floor_least f ≡ Some x → is_one_of (4 ∷ 6 ∷ 7 ∷ 8 ∷ 9 ∷ []) x.row.table ≡ true }
{}

/// The rows that follow any row that starts do so behind it, too.
pub fn a_creation_starts_behind_its_row()
    ensures { (x : Firing) (f : Floor) → floor_starts x f ≡ true
        → AllByRecursion (λ (d : Firing). floor_starts d (floor_fired x f) ≡ true) (creation_rows x f) }
{}

/// The port of a row that starts is there, so its number is at most four.
pub fn a_row_of_a_port_that_starts_has_its_port()
    ensures { (x : Firing) (f : Floor)
        → floor_starts x f ≡ true → is_one_of (4 ∷ 5 ∷ 6 ∷ 7 ∷ []) x.row.table ≡ true → IsFloor f → x.object ≤ most_ports }
{}

/// What holds of the ports and the carriers holds at every moment: without a carrier at the beginning, behind each row that
/// starts, behind what an action on a carrier writes that is done, and where a carrier comes to a port.
pub fn the_floor_stays_valid()
    ensures opening { (ports : ℕ) → ports ≤ most_ports → IsFloor (opening ports) }
    ensures fired { (x : Firing) (f : Floor) → floor_starts x f ≡ true → IsFloor f → IsFloor (floor_fired x f) }
    ensures written { (a : CarrierAction) (f : Floor)
        → is_done_code (carrier_code f a) ≡ true → IsFloor f → IsFloor (carrier_written a f) }
    ensures came { (port : ℕ) (a : Arrival) (f : Floor) → IsFloor f → IsFloor (came port a f) }
{}

/// A carrier that is marked stopped changes nothing of what holds of the floor, nor of what is left to fire by itself.
pub fn a_mark_leaves_the_floor()
    ensures valid { (name : List ℕ) (f : Floor) → IsFloor f → IsFloor (with_marked name f) }
    ensures left { (name : List ℕ) (f : Floor) → floor_left (with_marked name f) ≡ floor_left f }
{}

/// At most sixteen carriers are known, and there is room for each that is created: by a row that lets one come, by row 4
/// behind the port's carrier that is forgotten, and by Bind and CarrierNotification of one that isn't known.
pub fn there_is_room_for_each_carrier()
    ensures few { (f : Floor) → IsFloor f → length f.carriers ≤ most_carriers }
    ensures comes { (x : Firing) (f : Floor) → floor_starts x f ≡ true → creates x f ≡ true → (x.row.row == 4) ≡ false
        → IsFloor f → suc (length f.carriers) ≤ most_carriers }
    ensures replaces { (x : Firing) (f : Floor) → floor_starts x f ≡ true → creates x f ≡ true → (x.row.row == 4) ≡ true
        → IsFloor f → suc (length (forgets (owner (port_numbered x.object f.ports)) f.carriers)) ≤ most_carriers }
    ensures bind { (a : CarrierAction) (f : Floor) → a.word ≡ Bind → is_done_code (carrier_code f a) ≡ true
        → is_known a.id f.carriers ≡ false → IsFloor f → suc (length f.carriers) ≤ most_carriers }
    ensures notify { (a : CarrierAction) (f : Floor) → a.word ≡ Notify → is_done_code (carrier_code f a) ≡ true
        → IsFloor f → suc (length f.carriers) ≤ most_carriers }
{}

/// A carrier that is found by its number of creation is one of the list.
pub fn a_carrier_that_is_found_is_of_the_list()
    ensures { (n : ℕ) (carriers : List Carrier) (c : Carrier) → carrier_numbered n carriers ≡ Some c → Contains carriers c }
{}

/// At each port one carrier is present at most: two of the list that are present at the same port are one and the same, with
/// one name and one number of creation.
pub fn one_carrier_a_port()
    ensures same { (f : Floor) (port : ℕ) (c d : Carrier)
        → Contains f.carriers c → Contains f.carriers d → is_present_at port c ≡ true → is_present_at port d ≡ true → IsFloor f → c ≡ d }
    ensures number { (f : Floor) (port n m : ℕ) (c d : Carrier)
        → carrier_numbered n f.carriers ≡ Some c → carrier_numbered m f.carriers ≡ Some d
        → is_present_at port c ≡ true → is_present_at port d ≡ true → IsFloor f → n ≡ m }
{}

/// A carrier of the list that is present is at a port that is there, and belongs to it. The number of the port is 1 to that of
/// the ports, of which there are at most four.
pub fn a_present_carrier_has_a_port()
    ensures port { (f : Floor) (c : Carrier) → Contains f.carriers c → c.present ≡ true → IsFloor f
        → IsSomeAnd c.port (λ n. IsSomeAnd (port_numbered n.0 f.ports) (λ p. p.carrier ≡ Some c.name)) }
    ensures number { (f : Floor) (c : Carrier) → Contains f.carriers c → c.present ≡ true → IsFloor f
        → IsSomeAnd c.port (λ n. (1 ≤ n.0) × (n.0 ≤ length f.ports)) }
{}

/// A carrier of the list is present where its slot map was read, so also where it is VERIFIED, and where its id was read.
pub fn a_carrier_whose_map_is_read_is_present()
    ensures map { (f : Floor) (c : Carrier) → Contains f.carriers c → is_map_not_read c.states.map ≡ false → IsFloor f → c.present ≡ true }
    ensures verified { (f : Floor) (c : Carrier) → Contains f.carriers c → is_map_verified c.states.map ≡ true → IsFloor f → c.present ≡ true }
    ensures id { (f : Floor) (c : Carrier) → Contains f.carriers c → is_id_not_read c.states.id ≡ false → IsFloor f → c.present ≡ true }
{}
