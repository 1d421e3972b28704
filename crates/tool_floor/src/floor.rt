//! The floor of the tool.

ghost use Rattle.std.specs.Prelude.{◌≡◌, ◌≤◌, ◌<◌, ◌==◌, slice_get, ◌∷◌, [], true, false, not, is_some, None, length, Option, option_map, option_copied, IfOk, IfErr};
ghost use Rattle.std.specs.Option.{option_to_list};
ghost use Rattle.gem_tables.specs.Table.{is_one_of};
ghost use Rattle.load_port.specs.Caack.{is_done_code};
ghost use Rattle.load_port.specs.Ports.{most_ports, is_no_port};
ghost use Rattle.robot_moves.specs.Modules.{module_at, unfetched, fetched_number, is_open, is_idle, is_up, is_down};
ghost use Rattle.shop_floor.specs.Machines.{floor_least as shop_least};
ghost use Rattle.shop_floor.specs.Valid.{IsFloor};
ghost use Rattle.shop_floor.specs.Requests.{carrier_written, came};
ghost use Rattle.substrate.specs.Places.{found_location, is_any_at_work, substrate_at};
ghost use Rattle.floor_model.specs.Floor.{opening, with_shop, fetched, change_location, substrate_numbered, name_of_place, substrate_name, RiseTo};
ghost use Rattle.floor_model.specs.Substrates.{without_carrier, removed_where};
ghost use Rattle.floor_model.specs.Machines.{registered_by, floor_starts, floor_fired, floor_least, creation_rows, object_name};
ghost use Rattle.floor_model.specs.Jobs.{carrier_code};
ghost use Rattle.tool_floor.specs.Located.{first_location, NoSubstrates, NoShop};
ghost use Rattle.floor_model.specs.Signals.{is_no_module};

use crate::naming::place_name;
use crate::opening::{first_equipment, first_places, first_work};
use crate::tracking::Substrates;
use carrier::{Carrier, CarrierAction};
use floor_model::{FloorParts, Substrate};
use gem_ids::{CmdNo, LocId, ModuleId, PortNo, SubstrateId, Text80};
use gem_tables::{Firing, Table};
use load_port::{Arrival, Caack};
use robot_moves::{Module, Modules};
use shop_floor::ShopFloor;
use std::alloc::{AllocError, Global};
use std::marker::Model;
use substrate::{LocationRecord, Places};
use tool_jobs::Jobs;
use tool_tasks::{Command, Recipe, Task};

// What is known to be at rest: no row of it is ready by itself, so that it need not be asked.
#[derive(Clone, Copy)]
pub(crate) struct AtRest {
    // The locations: no row of table 11.
    pub(crate) locations: bool,
    // The substrates: no row of tables 12 and 13.
    pub(crate) substrates: bool,
    // The load ports and the carriers: no row of tables 4 to 10.
    pub(crate) shop: bool,
}

/// The floor of the tool, which contracts see as the load ports with the carriers; the list of the modules by their numbers: 1 is the
/// robot, 2 the aligner, and 2 + c chamber c; which substrate has which place; the states of the locations by their numbers; the
/// substrates of the carriers that are here, in the order of their registration; and the process jobs and control jobs. Only `new`,
/// `fire`, `write`, `create_process` and `create_control` take memory.
pub struct ToolFloor {
    pub(crate) shop: ShopFloor,
    pub(crate) modules: Modules,
    pub(crate) places: Places,
    pub(crate) locations: Vec<LocationRecord>,
    pub(crate) substrates: Substrates,
    pub(crate) commands: u64,
    pub(crate) jobs: Jobs,
}

// Written out, so that it is one call wherever a floor is dropped.
impl Drop for ToolFloor {
    fn drop(self) {
        let ToolFloor {
            shop: _shop,
            modules: _modules,
            places: _places,
            locations: _locations,
            substrates: _substrates,
            commands: _commands,
            jobs: _jobs,
        } = self;
    }
}

impl Model for ToolFloor {
    ghost use Rattle.floor_model.specs.Floor.{ToolFloor};
    ghost use Rattle.tool_floor.specs.Kept.{kept_floor, IsKept};

    ghost Value = { ToolFloor };

    ghost view = { kept_floor };

    ghost invariant = { IsKept };
}

impl ToolFloor {
    /// So many ports as they begin, 0 to 4, no carrier, the modules of a tool with so many chambers, each Idle, and no job, of a tool
    /// with these recipes. `AllocError`: there is no room.
    pub fn new(
        alloc: Global,
        ports: u8,
        chambers: u8,
        recipes: &[Recipe],
    ) -> Result<ToolFloor, AllocError>
        requires { ports ≤ most_ports }
        ensures { IfOk result (λ floor. floor ≡ opening ports chambers recipes.now) }
    {
        let equipment = first_equipment(alloc, ports, chambers)?;
        let places = first_places(alloc, ports, chambers)?;
        let work = first_work(alloc, recipes)?;
        Ok(ToolFloor::of(equipment, places, work))
    }

    // The floor of its parts, on which no command was given yet.
    fn of(
        equipment: (ShopFloor, Modules),
        places: (Places, Vec<LocationRecord>),
        work: (Substrates, Jobs),
    ) -> ToolFloor
        requires { work.0 ≡ [] }
        ensures { result ≡ record {
          shop = equipment.0;
          modules = equipment.1;
          places = places.0;
          locations = places.1.items;
          substrates = work.0;
          commands = 0;
          jobs = work.1;
        } }
    {
        let (shop, modules) = equipment;
        let (places, locations) = places;
        let (substrates, jobs) = work;
        ToolFloor {
            shop,
            modules,
            places,
            locations,
            substrates,
            commands: 0,
            jobs,
        }
    }

    // ---- what it says

    /// The floor by its parts, for those who read it and need not know who keeps it.
    pub fn parts(&self) -> FloorParts<'_>
        ensures { result ≡ self.now }
    {
        FloorParts::of(
            &self.shop,
            &self.modules,
            &self.places,
            self.locations.as_slice(),
            self.substrates.as_slice(),
            self.commands,
            &self.jobs,
        )
    }

    /// The load ports and the carriers.
    pub fn shop(&self) -> &ShopFloor
        ensures { result.now ≡ self.now.shop }
    {
        &self.shop
    }

    /// The process jobs and the control jobs.
    pub fn jobs(&self) -> &Jobs
        ensures { result.now ≡ self.now.jobs }
    {
        &self.jobs
    }

    /// The name of the substrate at a location. `None` exactly where none is there.
    pub fn at(&self, loc: LocId) -> Option<SubstrateId>
        ensures { result ≡ substrate_at loc self.now.places.held }
    {
        self.places.at(loc)
    }

    /// Whether there is a module of this number.
    pub fn has_module(&self, m: ModuleId) -> bool
        ensures { result ≡ not (is_no_module m.0 self.now) }
    {
        self.modules.get(m).is_some()
    }

    /// Whether the command of this number is the open one of the module.
    pub fn is_open(&self, m: ModuleId, n: CmdNo) -> bool
        ensures { result ≡ is_open n.0 (module_at m.0 self.now.modules) }
    {
        match self.modules.get(m) {
            Some(Module::Busy { command, .. }) => command.number.0 == n.0,
            _ => false,
        }
    }

    /// Whether there is a module of this number, and it is not Down.
    pub fn is_up(&self, m: ModuleId) -> bool
        ensures { result ≡ is_up (module_at m.0 self.now.modules) }
    {
        matches!(
            self.modules.get(m),
            Some(Module::Idle) | Some(Module::Busy { .. })
        )
    }

    /// Whether there is a module of this number, and it is Down.
    pub fn is_down(&self, m: ModuleId) -> bool
        ensures { result ≡ is_down (module_at m.0 self.now.modules) }
    {
        matches!(self.modules.get(m), Some(Module::Down))
    }

    /// Whether a module has an open command that was not fetched.
    pub fn has_command(&self, m: ModuleId) -> bool
        ensures { result ≡ is_some (unfetched (module_at m.0 self.now.modules)) }
    {
        matches!(
            self.modules.get(m),
            Some(Module::Busy { fetched: false, .. })
        )
    }

    /// How many modules there are, 2 to 255.
    pub fn module_count(&self) -> usize
        ensures count { result ≡ length self.now.modules }
        ensures few { result ≤ 255 }
    {
        self.modules.len()
    }

    /// The number of the open command of a module that was fetched.
    pub fn fetched_number(&self, m: ModuleId) -> Option<CmdNo>
        ensures { result ≡ fetched_number (module_at m.0 self.now.modules) }
    {
        self.modules.fetched_number(m)
    }

    /// How many substrates were registered since the first state.
    pub fn registrations(&self) -> u64
        ensures { result ≡ self.now.places.given }
    {
        self.places.given()
    }

    // Whether a substrate is at the aligner, on the arm or in a chamber.
    pub(crate) fn is_any_at_work(&self) -> bool
        ensures { result ≡ is_any_at_work self.now.places }
    {
        self.places.is_any_at_work()
    }

    // How many carriers are known.
    pub(crate) fn carrier_count(&self) -> usize
        ensures count { result ≡ length self.now.shop.carriers }
        ensures valid { IsFloor self.now.shop }
    {
        self.shop.carrier_count()
    }

    // The carrier of a place, counted from 0.
    pub(crate) fn carrier_at(&self, place: usize) -> Option<&Carrier>
        ensures { option_copied result ≡ slice_get self.now.shop.carriers place }
    {
        self.shop.carrier(place)
    }

    // The least row that is ready by itself of the load ports and the carriers alone.
    #[inline(never)]
    fn least_of_shop(&self) -> Option<Firing>
        ensures { result ≡ shop_least self.now.shop }
    {
        self.shop.least()
    }

    // The same, where it may be known that there is none.
    fn least_of_shop_where(&self, shop_rests: bool) -> Option<Firing>
        requires { shop_rests ≡ true → NoShop self.now }
        ensures { result ≡ shop_least self.now.shop }
    {
        if shop_rests {
            None
        } else {
            self.least_of_shop()
        }
    }

    // How many substrates are of carriers that are here.
    pub(crate) fn substrate_count(&self) -> usize
        ensures count { result ≡ length self.now.substrates }
        ensures rise { RiseTo 0 self.now.places.given self.now.substrates }
    {
        self.substrates.len()
    }

    // The substrate of a place in their list, counted from 0.
    pub(crate) fn substrate_at(&self, place: usize) -> Option<&Substrate>
        ensures { option_map (λ s. s.now) result ≡ slice_get self.now.substrates place }
    {
        self.substrates.get(place)
    }

    // The module of a place, counted from 0.
    pub(crate) fn module_at(&self, place: usize) -> Option<Module>
        requires { place < 255 }
        ensures { result ≡ slice_get self.now.modules place }
    {
        self.modules.get(ModuleId((place + 1) as u8))
    }

    // Whether the module of a place, counted from 0, is Idle.
    pub(crate) fn is_idle_at(&self, place: usize) -> bool
        requires { place < 255 }
        ensures { result ≡ is_idle (slice_get self.now.modules place) }
    {
        self.modules.is_idle(ModuleId((place + 1) as u8))
    }

    // How many locations the tool has.
    pub(crate) fn location_count(&self) -> usize
        ensures { result ≡ length self.now.locations }
    {
        self.locations.len()
    }

    /// The substrate of a number of registration, of a carrier that is here. `None` exactly where there is none.
    pub fn substrate(&self, number: u64) -> Option<Substrate>
        ensures { result ≡ substrate_numbered number self.now.substrates }
    {
        self.substrates.numbered(number)
    }

    /// The name of the object of a row: P and the digit of a port's number; a carrier's, a substrate's or a job's name; a location's, as P1.01,
    /// AL, ARM or C1; the empty text where there is no such object, and for a row of another table (this tool's profile, object names).
    pub fn object_name(&self, x: Firing) -> Text80
        ensures { result ≡ object_name x self.now }
    {
        match Table::of(x.row.table) {
            Some(Table::Location) => self.location_name(x.object),
            Some(Table::Transport | Table::Processing) => self.substrate_name(x.object),
            Some(Table::ProcessJob) => self.jobs.process_name(x.object),
            Some(Table::ControlJob) => self.jobs.control_name(x.object),
            Some(Table::Moves) => Text80::empty(),
            _ => self.shop.object_name(x),
        }
    }

    // The name of the location of a number.
    fn location_name(&self, number: u64) -> Text80
        ensures { result ≡ name_of_place (found_location number self.now.places) }
    {
        if number > self.places.location_count() as u64 {
            return Text80::empty();
        }
        match self.places.location(number as usize) {
            Some(loc) => place_name(loc),
            None => Text80::empty(),
        }
    }

    // The name of the substrate of a number.
    fn substrate_name(&self, number: u64) -> Text80
        ensures { result ≡ substrate_name (substrate_numbered number self.now.substrates) }
    {
        match self.substrates.known(number) {
            Some(substrate) => substrate.sub.text(),
            None => Text80::empty(),
        }
    }

    /// The least row that is ready by itself: that of the least table, in it that of the first object, and of that object the row of the
    /// least number; ports, locations and modules by number, carriers and jobs by creation, substrates by registration (this
    /// tool's profile, settling). `None` exactly where no row is ready.
    pub fn least(&self) -> Option<Firing>
        ensures { result ≡ floor_least self.now }
    {
        self.least_where(AtRest {
            locations: false,
            substrates: false,
            shop: false,
        })
    }

    // The least row that is ready by itself, where what is known to be at rest need not be asked.
    pub(crate) fn least_where(&self, at_rest: AtRest) -> Option<Firing>
        requires locations { at_rest.locations ≡ true → first_location self.now ≡ None }
        requires substrates { at_rest.substrates ≡ true → NoSubstrates self.now }
        requires shop { at_rest.shop ≡ true → NoShop self.now }
        ensures { result ≡ floor_least self.now }
    {
        if let Some(x) = self.least_of_shop_where(at_rest.shop) {
            return Some(x);
        }
        if let Some(x) = self.ready_accessing_where(at_rest.shop) {
            return Some(x);
        }
        if let Some(x) = self.ready_location_where(at_rest.locations) {
            return Some(x);
        }
        if let Some(x) = self.ready_transport_where(at_rest.substrates) {
            return Some(x);
        }
        if let Some(x) = self.ready_processing_where(at_rest.substrates) {
            return Some(x);
        }
        if let Some(x) = self.ready_process() {
            return Some(x);
        }
        if let Some(x) = self.ready_control() {
            return Some(x);
        }
        self.ready_move()
    }

    /// Whether a row starts: its object is there, in a state in which the row starts, and what the row wants besides is so (this tool's
    /// profile, tables 4 to 16). A row that a registration fires starts for any substrate that is there. A row of another table
    /// never starts.
    pub fn starts(&self, x: Firing) -> bool
        ensures { result ≡ floor_starts x self.now }
    {
        match Table::of(x.row.table) {
            Some(Table::Accessing) => self.starts_at_carrier(x),
            Some(Table::Location) => self.starts_at_location(x),
            Some(Table::Transport | Table::Processing) => self.starts_at_substrate(x),
            Some(Table::ProcessJob) => self.starts_at_process(x),
            Some(Table::ControlJob) => self.starts_at_control(x),
            Some(Table::Moves) => self.module_starts(x),
            _ => self.shop.starts(x),
        }
    }

    // Whether a row of the table of moves starts.
    #[inline(never)]
    fn module_starts(&self, x: Firing) -> bool
        requires { x.row.table ≡ 16 }
        ensures { result ≡ floor_starts x self.now }
    {
        if x.object > self.modules.len() as u64 {
            return false;
        }
        let m = ModuleId(x.object as u8);
        match self.modules.get(m) {
            Some(module) => self.starts_at_module(x.row.row, m, &module),
            None => false,
        }
    }

    // ---- what rows do

    /// A row fires that starts: its effect, and the state of its object (this tool's profile, tables 4 to 16). It gives the rows of
    /// the objects that it creates, which are to be fired straight behind it (this tool's profile, settling): of a carrier, or of
    /// the substrates that it registers. `AllocError`: there is no memory for what it creates, or the last number was given, of
    /// a carrier, a substrate or a command; but for a row of the slot map, nothing has changed.
    pub fn fire(&mut self, alloc: Global, x: Firing) -> Result<Vec<Firing>, AllocError>
        requires { floor_starts x self.old ≡ true }
        ensures ok { IfOk result (λ _. self.new ≡ floor_fired x self.old) }
        ensures follow { IfOk result (λ rows. rows.items ≡ creation_rows x self.old) }
        ensures err { (x.row.table == 9) ≡ false → IfErr result (λ _. self.new ≡ self.old) }
    {
        match Table::of(x.row.table) {
            Some(Table::Association) => return self.fire_association(alloc, x),
            Some(Table::SlotMap) => return self.fire_map(alloc, x),
            Some(Table::Accessing) => self.shop.fire_accessing(x.object, x.row.row),
            Some(Table::Location) => self.fire_location(x),
            Some(Table::Transport | Table::Processing) => self.fire_substrate(x),
            Some(Table::ProcessJob) => self.fire_process(x.object, x.row.row),
            Some(Table::ControlJob) => self.fire_control(x),
            Some(Table::Moves) => self.fire_move(x)?,
            _ => return self.fire_shop(alloc, x),
        }
        Ok(Vec::new(alloc))
    }

    // A row of tables 4 to 6 or 8 fires that starts.
    #[inline(never)]
    fn fire_shop(&mut self, alloc: Global, x: Firing) -> Result<Vec<Firing>, AllocError>
        requires other { is_one_of (7 ∷ 9 ∷ 10 ∷ 11 ∷ 12 ∷ 13 ∷ 14 ∷ 15 ∷ 16 ∷ []) x.row.table ≡ false }
        requires starts { floor_starts x self.old ≡ true }
        ensures ok { IfOk result (λ _. self.new ≡ floor_fired x self.old) }
        ensures follow { IfOk result (λ rows. rows.items ≡ creation_rows x self.old) }
        ensures err { IfErr result (λ _. self.new ≡ self.old) }
    {
        let created = Vec::from_slice(alloc, self.shop.creations(x).as_slice())?;
        self.shop.fire(x)?;
        Ok(created)
    }

    // A row of table 7 fires that starts.
    #[inline(never)]
    fn fire_association(&mut self, alloc: Global, x: Firing) -> Result<Vec<Firing>, AllocError>
        requires table { x.row.table ≡ 7 }
        requires starts { floor_starts x self.old ≡ true }
        ensures ok { IfOk result (λ _. self.new ≡ floor_fired x self.old) }
        ensures follow { IfOk result (λ rows. rows.items ≡ creation_rows x self.old) }
        ensures err { IfErr result (λ _. self.new ≡ self.old) }
    {
        let created = Vec::from_slice(alloc, self.shop.creations(x).as_slice())?;
        let owner = self.shop.owner_number(x.object);
        self.shop.fire(x)?;
        if x.row.row == 6 {
            self.take_owned(owner);
        }
        Ok(created)
    }

    // The substrates of a carrier are removed and forgotten, where one is given.
    fn take_owned(&mut self, owner: Option<u64>)
        ensures { self.new ≡ without_carrier owner self.old }
    {
        if let Some(carrier) = owner {
            self.take_along(carrier);
        }
    }

    // A row of table 9 fires that starts.
    #[inline(never)]
    fn fire_map(&mut self, alloc: Global, x: Firing) -> Result<Vec<Firing>, AllocError>
        requires table { x.row.table ≡ 9 }
        requires starts { floor_starts x self.old ≡ true }
        ensures ok { IfOk result (λ _. self.new ≡ floor_fired x self.old) }
        ensures follow { IfOk result (λ rows. rows.items ≡ creation_rows x self.old) }
    {
        let known = self.substrates.len();
        self.register_by(x)?;
        self.shop.fire(x)?;
        let rows = self.registration_rows(alloc, known)?;
        Ok(rows)
    }

    // What a row of table 9 registers.
    fn register_by(&mut self, x: Firing) -> Result<(), AllocError>
        ensures { IfOk result (λ _. self.new ≡ registered_by x.row.row x.object self.old) }
    {
        if x.row.row == 1 || x.row.row == 3 {
            if let Some(carrier) = self.shop.carrier_numbered(x.object).copied() {
                self.register(&carrier)?;
            }
        }
        Ok(())
    }

    // A row of table 11 fires.
    fn fire_location(&mut self, x: Firing)
        requires { x.row.table ≡ 11 }
        ensures { self.new ≡ floor_fired x self.old }
    {
        if let Some(location) = self.location(x.object) {
            let mut states = location;
            states.fire(x.row.row);
            self.put_location(x.object, states);
        }
    }

    // The location of a number has these states, where there is one.
    fn put_location(&mut self, number: u64, states: LocationRecord)
        ensures { self.new ≡ record self.old { locations = change_location number (λ _. states) self.old.locations } }
    {
        if number == 0 {
            return;
        }
        if number <= self.locations.len() as u64 {
            self.locations[number as usize - 1] = states;
        }
    }

    // A row of table 12 or 13 fires.
    fn fire_substrate(&mut self, x: Firing)
        requires { is_one_of (12 ∷ 13 ∷ []) x.row.table ≡ true }
        ensures { self.new ≡ floor_fired x self.old }
    {
        if x.row.is_of(Table::Processing) && x.row.row == 8 {
            self.lose(x.object);
        }
        self.substrates.fire(x.object, x.row.table, x.row.row);
    }

    // The substrate of a number has no place any more.
    #[inline(never)]
    fn lose(&mut self, number: u64)
        ensures { self.new ≡ record self.old { places = removed_where (substrate_numbered number self.old.substrates) self.old.places } }
    {
        if let Some(substrate) = self.substrates.known(number) {
            self.places.remove(substrate.sub);
        }
    }

    // ---- what the host asks

    /// What the host is answered of an action on a carrier by the states before it, CAACK (SEMI E87, S3F17; this tool's
    /// profile, S3F17): that it is done where it can be. A carrier that a kept process job names isn't cancelled where its slot map is
    /// VERIFIED. Changes nothing.
    pub fn carrier_code(&self, a: &CarrierAction) -> Caack
        ensures { result ≡ carrier_code a.now self.now }
    {
        self.shop.code_by_jobs(a, self.is_any_of_carrier(a.id))
    }

    /// What an action on a carrier writes that can be done (SEMI E87, S3F17), as `ShopFloor::write` says. `AllocError`: there is
    /// no memory for a carrier, or the last number was given; nothing has changed.
    #[tactic(auto, using(floor_model::proofs::Asked::done_by_jobs))]
    pub fn write(&mut self, a: &CarrierAction) -> Result<(), AllocError>
        requires { is_done_code (carrier_code a.now self.old) ≡ true }
        ensures ok { IfOk result (λ _. self.new ≡ with_shop (carrier_written a.now self.old.shop) self.old) }
        ensures err { IfErr result (λ _. self.new ≡ self.old) }
    {
        self.shop.write(a)
    }

    // ---- what the equipment tells

    /// This came to a port, and isn't told of yet.
    pub fn come(&mut self, port: PortNo, arrival: Arrival)
        requires { is_no_port port.0 self.old.shop.ports ≡ false }
        ensures { self.new ≡ with_shop (came port.0 arrival self.old.shop) self.old }
    {
        self.shop.come(port, arrival);
    }

    /// The open command of a module that was not fetched yet; it is fetched then, and stays open. `None` exactly where there is
    /// none, and nothing changes.
    pub fn fetch(&mut self, m: ModuleId) -> Option<Command>
        ensures command { result ≡ unfetched (module_at m.0 self.old.modules) }
        ensures after { self.new ≡ fetched m.0 self.old }
    {
        self.modules.fetch(m)
    }
}
