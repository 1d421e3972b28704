//! Laws of the floor of the tool, for proofs to cite. Each function is empty: what it ensures holds of the definitions.

ghost use Rattle.std.specs.Prelude.{◌≡◌, ◌≤◌, ℕ, ◌*◌, ◌==◌, Bool, true, false, List, [], ◌∷◌, length, Option, Some, None};
ghost use Rattle.std.specs.List.{AllByRecursion};
ghost use Rattle.gem_tables.specs.Table.{firing, is_one_of};
ghost use Rattle.gem_tables.specs.declared.firing.Firing.{Firing};
ghost use Rattle.tool_tasks.specs.declared.task.Command.{Command};
ghost use Rattle.tool_tasks.specs.declared.recipes.Recipe.{Recipe};
ghost use Rattle.load_port.specs.Caack.{is_done_code};
ghost use Rattle.load_port.specs.Ports.{most_ports, port_numbered};
ghost use Rattle.carrier.specs.declared.action.CarrierAction.{CarrierAction};
ghost use Rattle.carrier.specs.declared.carrier.Carrier.{Carrier};
ghost use Rattle.carrier.specs.Carriers.{has_name, carrier_numbered};
ghost use Rattle.shop_floor.specs.Floor.{arrival_of};
ghost use Rattle.shop_floor.specs.Machines as shop;
ghost use Rattle.shop_floor.specs.Requests.{came, carrier_code, carrier_written};
ghost use Rattle.shop_floor.specs.Rows.{owner};
ghost use Rattle.robot_moves.specs.declared.module.Module.TheVariants.{Busy};
ghost use Rattle.robot_moves.specs.Modules.{module_at, is_up, is_open};
ghost use Rattle.process_job.specs.declared.job.JobSpec.{JobSpec};
ghost use Rattle.process_job.specs.Jobs.{with_created};
ghost use Rattle.control_job.specs.Jobs.{JobStore};
ghost use Rattle.floor_model.specs.Floor.{ToolFloor, opening, with_shop, with_jobs, fetched};
ghost use Rattle.floor_model.specs.Jobs.{is_any_of_carrier};
ghost use Rattle.floor_model.specs.Machines.{floor_starts, floor_fired, floor_least};
ghost use Rattle.floor_model.specs.Signals.{done_rows, closing_rows, lost_rows};
ghost use Rattle.floor_moves.specs.OnePlace.{OnePlace};
ghost use Rattle.place_laws.specs.Picture.{picture};
ghost use Rattle.place_laws.specs.Sound.{Sound};
ghost use Rattle.floor_laws.specs.Moves.{DoneAt, LostAt};
ghost use Rattle.floor_laws.specs.Rows.{is_common, listed};

/// What holds of the floor of the tool at every moment holds as the tool begins.
pub fn it_holds_as_the_tool_begins()
    ensures { (ports chambers : ℕ) (recipes : List Recipe) → ports ≤ most_ports → Sound (opening ports chambers recipes) }
{}

/// It is kept by the least row that is ready by itself, and by each row that keeps it wherever it starts, so by most that an input
/// fires alone.
pub fn it_is_kept_by_each_row()
    ensures ready { (x : Firing) (f : ToolFloor) → floor_least f ≡ Some x → Sound f → Sound (floor_fired x f) }
    ensures alone { (x : Firing) (f : ToolFloor) → floor_starts x f ≡ true → is_common x ≡ true → Sound f → Sound (floor_fired x f) }
{}

/// It is kept where the equipment fetches a command, where it says that an open command is done, no row being ready before that, or failed,
/// where it says of a module that isn't Down that it went down, and where the operator says that a substrate is lost: by all rows that this
/// fires, one behind the other.
pub fn it_is_kept_by_what_the_equipment_and_the_operator_say()
    ensures fetched { (number : ℕ) (f : ToolFloor) → Sound f → Sound (fetched number f) }
    ensures done { (number command : ℕ) (f : ToolFloor) → is_open command (module_at number f.modules) ≡ true → floor_least f ≡ None
        → Sound f → Sound (listed (done_rows number f) f) }
    ensures failed { (number command : ℕ) (f : ToolFloor) → is_open command (module_at number f.modules) ≡ true → Sound f
        → Sound (listed (closing_rows 8 number f) f) }
    ensures down { (number : ℕ) (f : ToolFloor) → is_up (module_at number f.modules) ≡ true → Sound f
        → Sound (listed (closing_rows 9 number f) f) }
    ensures lost { (sub : List ℕ) (f : ToolFloor) → Sound f → Sound (listed (lost_rows sub f) f) }
{}

/// It is kept where no row is ready at the load ports and the carriers, and a carrier is placed at a port, or is removed from one with
/// its substrates, by two rows. Where the second row of a removal doesn't start, it is kept by the first.
pub fn it_is_kept_as_carriers_come_and_go()
    ensures placed { (port : ℕ) (name : Option (List ℕ)) (slots : List ℕ) (f : ToolFloor) → floor_starts (firing 4 port 3) f ≡ true
        → shop.floor_least f.shop ≡ None → Sound f
        → Sound (floor_fired (firing 4 port 3) (with_shop (came port (arrival_of port name slots f.shop.carriers) f.shop) f)) }
    ensures removed { (port : ℕ) (f : ToolFloor) → floor_starts (firing 4 port 5) f ≡ true
        → floor_starts (firing 7 port 6) (floor_fired (firing 4 port 5) f) ≡ true → shop.floor_least f.shop ≡ None → Sound f
        → Sound (floor_fired (firing 7 port 6) (floor_fired (firing 4 port 5) f)) }
    ensures left { (port : ℕ) (f : ToolFloor) → floor_starts (firing 4 port 5) f ≡ true
        → floor_starts (firing 7 port 6) (floor_fired (firing 4 port 5) f) ≡ false → Sound f
        → Sound (floor_fired (firing 4 port 5) f) }
{}

/// It is kept by what the host asks of carriers and is done: by what is written then, where it cancels the binding of a carrier that
/// is not present, and where it cancels a carrier that no process job names.
pub fn it_is_kept_by_what_the_host_asks_of_carriers()
    ensures written { (a : CarrierAction) (f : ToolFloor) → is_done_code (carrier_code f.shop a) ≡ true → Sound f
        → Sound (with_shop (carrier_written a f.shop) f) }
    ensures unbound { (port : ℕ) (f : ToolFloor) → floor_starts (firing 7 port 2) f ≡ true
        → ((name : List ℕ) → owner (port_numbered port f.shop.ports) ≡ Some name
        → AllByRecursion (λ (c : Carrier). has_name name c ≡ true → c.present ≡ true → ⊥) f.shop.carriers) → Sound f
        → Sound (floor_fired (firing 7 port 2) f) }
    ensures cancelled { (f : ToolFloor) (n : ℕ) (c : Carrier) → carrier_numbered n f.shop.carriers ≡ Some c
        → floor_starts (firing 10 n 4) f ≡ true → is_any_of_carrier c.name f.jobs ≡ false → Sound f
        → Sound (floor_fired (firing 10 n 4) f) }
{}

/// It is kept where a process job is created, and however control jobs change.
pub fn it_is_kept_as_jobs_change()
    ensures created { (f : ToolFloor) (j : JobSpec) → Sound f
        → Sound (with_jobs (record f.jobs { process = with_created j f.jobs.process }) f) }
    ensures control { (f : ToolFloor) (s : JobStore) → Sound f → Sound (with_jobs (record f.jobs { control = s }) f) }
{}

/// Where it holds, each substrate has one place, so behind the row of a module, before another follows, and between the two rows by which
/// a carrier is removed; and at most 25 substrates of each load port are kept.
pub fn each_substrate_has_one_place()
    ensures at_every_moment { (f : ToolFloor) → Sound f → OnePlace (picture f) }
    ensures behind { (f : ToolFloor) (m row : ℕ) → floor_starts (firing 16 m row) f ≡ true
        → is_one_of (5 ∷ 6 ∷ 7 ∷ 8 ∷ 9 ∷ 10 ∷ []) row ≡ true → Sound f → OnePlace (picture (floor_fired (firing 16 m row) f)) }
    ensures vacated { (port : ℕ) (f : ToolFloor) → floor_starts (firing 4 port 5) f ≡ true → Sound f
        → OnePlace (picture (floor_fired (firing 4 port 5) f)) }
    ensures few { (f : ToolFloor) → Sound f → length f.substrates ≤ 25 * length f.shop.ports }
{}

/// Where a command is done, each substrate stays where it is, but for that of a Pick, which goes from the start of the Pick onto the
/// arm, and that of a Place, which goes from the arm to the end of the Place. Where a command fails or a module goes down, nothing
/// moves. Where a substrate is lost, it has no place any more, and each other stays.
pub fn substrates_move_by_commands_alone()
    ensures done { (m : ℕ) (f : ToolFloor) → Sound f → (c : Command) (fetched : Bool) → module_at m f.modules ≡ Some (Busy c fetched)
        → DoneAt c f (listed (done_rows m f) f) }
    ensures closed { (row number : ℕ) (f : ToolFloor) → (row == 5) ≡ false → (listed (closing_rows row number f) f).places ≡ f.places }
    ensures lost { (sub : List ℕ) (f : ToolFloor) → Sound f → LostAt sub f (listed (lost_rows sub f) f) }
{}

/// Where a command is done or fails, or its module goes down, no command of its number is open any more.
pub fn a_command_that_ends_is_open_nowhere()
    ensures done { (m : ℕ) (f : ToolFloor) → Sound f → (c : Command) (fetched : Bool) → module_at m f.modules ≡ Some (Busy c fetched)
        → (k : ℕ) (d : Command) (b : Bool) → module_at k (listed (done_rows m f) f).modules ≡ Some (Busy d b)
        → d.number.0 ≡ c.number.0 → ⊥ }
    ensures failed { (m : ℕ) (f : ToolFloor) → Sound f → (c : Command) (fetched : Bool) → module_at m f.modules ≡ Some (Busy c fetched)
        → (k : ℕ) (d : Command) (b : Bool) → module_at k (listed (closing_rows 8 m f) f).modules ≡ Some (Busy d b)
        → d.number.0 ≡ c.number.0 → ⊥ }
    ensures down { (m : ℕ) (f : ToolFloor) → Sound f → (c : Command) (fetched : Bool) → module_at m f.modules ≡ Some (Busy c fetched)
        → (k : ℕ) (d : Command) (b : Bool) → module_at k (listed (closing_rows 9 m f) f).modules ≡ Some (Busy d b)
        → d.number.0 ≡ c.number.0 → ⊥ }
{}
