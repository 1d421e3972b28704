//! Laws of the floor of the tool by numbers, for proofs to cite. Each function is empty: what it ensures holds of the definitions.

ghost use Rattle.std.specs.Prelude.{◌≡◌, ℕ, ◌+◌, ◌==◌, nat_lt, Bool, true, false, List, [], ◌∷◌, ◌++◌, map, Some, None};
ghost use Rattle.gem_tables.specs.Table.{firing, after, is_one_of};
ghost use Rattle.gem_ids.specs.declared.numbers.LocId.TheVariants.{Slot};
ghost use Rattle.gem_ids.specs.declared.numbers.PortNo.{PortNo};
ghost use Rattle.gem_ids.specs.declared.numbers.SlotNo.{SlotNo};
ghost use Rattle.load_port.specs.declared.port.Port.{Port};
ghost use Rattle.carrier.specs.declared.carrier.Carrier.{Carrier};
ghost use Rattle.carrier.specs.Tables.{access_number};
ghost use Rattle.carrier.specs.Record.{is_map_verified};
ghost use Rattle.carrier.specs.Carriers.{carrier_named, carrier_numbered, change_named, change_numbered as carriers_changed, with_created, came_to, fires_row};
ghost use Rattle.shop_floor.specs.Floor.{floor_of};
ghost use Rattle.shop_floor.specs.Valid.{IsFloor};
ghost use Rattle.process_job.specs.Jobs.{job_numbered};
ghost use Rattle.robot_moves.specs.Modules.{module_at};
ghost use Rattle.robot_moves.specs.declared.module.Module.{Module};
ghost use Rattle.robot_moves.specs.declared.module.Module.TheVariants.{Idle};
ghost use Rattle.robot_moves.specs.declared.view.Move.{Move};
ghost use Rattle.tool_tasks.specs.declared.recipes.Recipe.{Recipe};
ghost use Rattle.tool_tasks.specs.Routes.{most_steps};
ghost use Rattle.substrate.specs.Places.{registered as registered_there, ArePlaces, substrate_named, moved, removed};
ghost use Rattle.gem_ids.specs.declared.numbers.LocId.{LocId};
ghost use Rattle.substrate.specs.declared.registered.Registered.{Registered};
ghost use Rattle.substrate.specs.Tables.{processing_number, processing_table};
ghost use Rattle.substrate.specs.declared.record.Processing.TheVariants.{InProcess};
ghost use Rattle.substrate.specs.declared.record.LocationRecord.{LocationRecord};
ghost use Rattle.floor_model.specs.declared.tracked.Substrate.{Substrate};
ghost use Rattle.floor_model.specs.Floor.{ToolFloor, with_shop, opening, with_module, substrate_numbered, change_numbered, number_of};
ghost use Rattle.floor_model.specs.Machines.{with_moved, floor_fired};
ghost use Rattle.floor_model.specs.Modules.{aligned, stepped, issued as given_to};
ghost use Rattle.floor_model.specs.Substrates.{first_substrate};
ghost use Rattle.floor_moves.specs.Carriers.{created, arrived, verified, registered};
ghost use Rattle.floor_moves.specs.Floor.{Module as ByNumber, idle, set};
ghost use Rattle.floor_moves.specs.Effects.{accessed, worked, processed, lost, issued, turned, moved as moved_by_numbers, stepped as stepped_by_numbers};
ghost use Rattle.floor_moves.specs.Agree.{Agree};
ghost use Rattle.floor_moves.specs.Valid.{Valid};
ghost use Rattle.place_laws.specs.Picture.{picture, loc_of, module_of, task_of};

/// What holds at every moment holds of the floor of the tool as it begins.
pub fn it_holds_as_the_tool_begins()
    ensures { (ports chambers : ℕ) (recipes : List Recipe) → Valid (picture (opening ports chambers recipes)) }
{}

/// Rows of one location or substrate do to the floor by numbers what the laws of the moves have: those of tables 11 and 12 leave all
/// that holds, and one of table 13 gives the substrate the state behind it; by row 3 one that is IN PROCESS is PROCESSED, and the last
/// step of its route is done.
pub fn rows_of_one_substrate_do_what_the_laws_have()
    ensures location { (f : ToolFloor) (locations : List LocationRecord) → Valid (picture f)
        → Valid (picture (record f { locations = locations })) }
    ensures transport { (f : ToolFloor) (n row : ℕ) → Valid (picture f) → Valid (picture (with_moved 12 row n f)) }
    ensures processing { (f : ToolFloor) (n row : ℕ) (s : Substrate) → substrate_numbered n f.substrates ≡ Some s → (row == 3) ≡ false
        → Agree (worked n (processing_number (after processing_number processing_table row s.states.processing)) (picture f))
        (picture (with_moved 13 row n f)) }
    ensures last { (f : ToolFloor) (n : ℕ) (s : Substrate) → substrate_numbered n f.substrates ≡ Some s
        → s.states.processing ≡ InProcess → Agree (processed n (picture f)) (picture (with_moved 13 3 n f)) }
{}

/// A registration does to the floor by numbers what the laws of the moves have: where no substrate has its number yet, no process job
/// has number 0, and what the modules have open names the same substrates as before.
pub fn a_registration_does_what_the_laws_have()
    ensures { (sub : List ℕ) (carrier : ℕ) (port : PortNo) (slot : SlotNo) (f : ToolFloor)
        → is_one_of (map number_of f.substrates) (f.places.given + 1) ≡ false
        → is_one_of (map (λ (r : Registered). r.number) f.places.held) (f.places.given + 1) ≡ false
        → job_numbered 0 f.jobs.process.kept ≡ None
        → ((m : ℕ) → module_of (module_at m f.modules) (registered_there sub (Slot port slot) f.places)
        ≡ module_of (module_at m f.modules) f.places)
        → Agree (registered carrier port.0 slot.0 (picture f))
        (picture (record f {
          places = registered_there sub (Slot port slot) f.places;
          substrates = f.substrates ++ first_substrate (f.places.given + 1) sub carrier (Slot port slot) ∷ [];
        })) }
{}

/// A command that is issued to an Idle module does to the floor by numbers what the laws of the moves have.
pub fn a_command_that_is_issued_does_what_the_laws_have()
    ensures { (m : ℕ) (move : Move) (f : ToolFloor) → module_at m f.modules ≡ Some Idle
        → Agree (issued m (task_of move.task f.places) (picture f)) (picture (given_to m (Some move) f)) }
{}

/// A module that changes is changed in the floor by numbers, and nothing else is: so where its command is closed, where it goes down,
/// and where it comes up.
pub fn a_module_that_changes_is_changed_alone()
    ensures { (m : ℕ) (change : Module → Module) (x : Module) (state : ByNumber) (f : ToolFloor)
        → module_at m f.modules ≡ Some x → module_of (Some (change x)) f.places ≡ state
        → Agree (turned m state (picture f)) (picture (with_module m change f)) }
{}

/// What is done by an Align is aligned in the floor by numbers, and its module changes.
pub fn what_is_aligned_is_aligned_by_numbers()
    ensures { (m n : ℕ) (change : Module → Module) (x : Module) (state : ByNumber) (s : Substrate) (f : ToolFloor)
        → substrate_numbered n f.substrates ≡ Some s
        → module_at m f.modules ≡ Some x → module_of (Some (change x)) f.places ≡ state
        → Agree (record (picture f) { is_aligned = set n true (picture f).is_aligned; equipment = set m state (picture f).equipment })
        (picture (with_module m change (record f { substrates = change_numbered n aligned f.substrates }))) }
{}

/// What is done by a Process, and goes on to a further step, has one step more done in the floor by numbers, and its module is Idle.
pub fn a_step_that_is_done_is_counted_by_numbers()
    ensures { (m n : ℕ) (change : Module → Module) (x : Module) (s : Substrate) (f : ToolFloor)
        → substrate_numbered n f.substrates ≡ Some s → nat_lt s.steps most_steps ≡ true
        → module_at m f.modules ≡ Some x → module_of (Some (change x)) f.places ≡ idle
        → Agree (stepped_by_numbers n m (picture f))
        (picture (with_module m change (record f { substrates = change_numbered n stepped f.substrates }))) }
{}

/// What is done by a Pick or a Place moves in the floor by numbers, where it has a place, and its module is Idle.
pub fn what_moves_moves_by_numbers()
    ensures { (m : ℕ) (change : Module → Module) (x : Module) (sub : List ℕ) (to : LocId) (found : Registered) (f : ToolFloor)
        → ArePlaces f.places → substrate_named sub f.places.held ≡ Some found
        → module_at m f.modules ≡ Some x → change x ≡ Idle
        → Agree (moved_by_numbers found.number (loc_of to) m (picture f))
        (picture (with_module m change (record f { places = record f.places { held = moved sub to f.places.held } }))) }
{}

/// What is lost has no place in the floor by numbers, and is LOST, where what the modules have open names the same substrates as
/// before.
pub fn what_is_lost_has_no_place_by_numbers()
    ensures { (n : ℕ) (s : Substrate) (found : Registered) (f : ToolFloor) → ArePlaces f.places
        → substrate_numbered n f.substrates ≡ Some s → substrate_named s.sub f.places.held ≡ Some found → found.number ≡ n
        → ((m : ℕ) → module_of (module_at m f.modules) (removed s.sub f.places) ≡ module_of (module_at m f.modules) f.places)
        → Agree (lost n (picture f)) (picture (floor_fired (firing 13 n 8) f)) }
{}

/// A carrier that is created does to the floor by numbers what the laws of the moves have: it is not present, its map is not
/// VERIFIED, and it is NOT ACCESSED.
pub fn a_carrier_that_is_created_does_what_the_laws_have()
    ensures { (f : ToolFloor) (name : List ℕ) (ports : List Port) (next : ℕ) → IsFloor f.shop
        → Agree (created f.shop.next_carrier (picture f))
        (picture (with_shop (floor_of ports (with_created f.shop.next_carrier name f.shop.carriers) next) f)) }
{}

/// A carrier that comes to a port is present there in the floor by numbers.
pub fn a_carrier_that_comes_does_what_the_laws_have()
    ensures { (f : ToolFloor) (name : List ℕ) (port : ℕ) (is_read : Bool) (slots : List ℕ) (ports : List Port) (next : ℕ) (d : Carrier)
        → IsFloor f.shop → carrier_named name f.shop.carriers ≡ Some d → carrier_numbered d.number f.shop.carriers ≡ Some d
        → Agree (arrived d.number port (picture f))
        (picture (with_shop (floor_of ports (change_named name (came_to port is_read slots) f.shop.carriers) next) f)) }
{}

/// A row of the slot map behind which it is VERIFIED, and a row of accessing, do to the floor by numbers what the laws of the moves
/// have.
pub fn rows_of_one_carrier_do_what_the_laws_have()
    ensures map { (f : ToolFloor) (n row : ℕ) (c : Carrier) → carrier_numbered n f.shop.carriers ≡ Some c
        → is_map_verified (fires_row 9 row c).states.map ≡ true
        → Agree (verified n (picture f))
        (picture (with_shop (record f.shop { carriers = carriers_changed n (fires_row 9 row) f.shop.carriers }) f)) }
    ensures access { (f : ToolFloor) (n row state : ℕ) (c : Carrier) → carrier_numbered n f.shop.carriers ≡ Some c
        → access_number (fires_row 10 row c).states.access ≡ state
        → Agree (accessed n state (picture f))
        (picture (with_shop (record f.shop { carriers = carriers_changed n (fires_row 10 row) f.shop.carriers }) f)) }
{}
