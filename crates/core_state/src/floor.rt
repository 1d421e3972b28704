//! The floor of the tool: the rows of load ports, carriers, locations, substrates, jobs and modules (SEMI E87, E90, E40, E94; tables
//! 4 to 16), and what the host and the equipment write of carriers.
ghost use Rattle.std.specs.Prelude.{◌≡◌, true, false, not, OnOk, IfOk};
ghost use Rattle.load_port.specs.Caack.{is_done_code};
ghost use Rattle.floor_model.specs.Jobs.{carrier_code};
ghost use Rattle.shop_floor.specs.Requests.{carrier_written};
ghost use Rattle.floor_model.specs.Floor.{with_shop};
ghost use Rattle.floor_model.specs.Machines.{floor_starts, creation_rows, object_name};
ghost use Rattle.gem_model.specs.Ready.{ready_floor};
ghost use Rattle.gem_model.specs.Fire.{fire};
ghost use Rattle.gem_model.specs.Machines.{fire_floor};
ghost use Rattle.gem_model.specs.Signals.{lacks_port, with_arrival, is_ready_to_unload};

use crate::noting::RowFiring;
use crate::plant::Plant;
use carrier::CarrierAction;
use gem_ids::{CarrierId, PortNo, Text80};
use gem_tables::Firing;
use std::alloc::{AllocError, Global};
use tool_floor::ToolFloor;

impl Plant {
    /// The floor of the tool.
    pub fn floor(&self) -> &ToolFloor
        ensures { result.now ≡ self.now.floor }
    {
        self.floor.floor()
    }

    /// How many substrates were registered since the first state.
    pub fn registrations(&self) -> u64
        ensures { result ≡ self.now.floor.places.given }
    {
        self.floor.floor().registrations()
    }

    /// Whether the tool has a port of this number.
    pub fn has_port(&self, port: PortNo) -> bool
        ensures has { result ≡ not (lacks_port port.0 self.now) }
    {
        self.floor.floor().shop().has_port(port)
    }

    /// Whether the port of this number is READY TO UNLOAD.
    pub fn is_ready_to_unload(&self, port: PortNo) -> bool
        ensures { result ≡ is_ready_to_unload port.0 self.now }
    {
        self.floor.floor().shop().is_ready_to_unload(port)
    }

    /// What a row of the floor of the tool does, which starts, but for its note; with the rows of what it creates.
    fn fire_floor(&mut self, alloc: Global, f: Firing) -> Result<Vec<Firing>, AllocError>
        requires { floor_starts f self.old.floor ≡ true }
        ensures fired { OnOk result (self.new ≡ fire_floor f self.old) }
        ensures created { IfOk result (λ rows. rows.items ≡ creation_rows f self.old.floor) }
    {
        self.floor.fire(alloc, f)
    }

    /// The name of the object of a row of the floor: of a port, a carrier, a location, a substrate or a job; a module has none.
    fn floor_object(&self, f: Firing) -> Text80
        ensures { result ≡ object_name f self.now.floor }
    {
        self.floor.floor().object_name(f)
    }

    /// The least row of tables 4 to 16 that is ready by itself.
    pub(crate) fn least_of_floor(&mut self) -> Option<Firing>
        ensures least { result ≡ ready_floor self.old }
        ensures unchanged { self.new ≡ self.old }
    {
        self.floor.least()
    }

    /// A row of the floor of the tool fires, which starts, and makes its note, where it is reported; with the rows of what it creates.
    pub(crate) fn floor_row(&mut self, alloc: Global, f: Firing) -> Result<Vec<Firing>, AllocError>
        requires { floor_starts f self.old.floor ≡ true }
        ensures fired { OnOk result (self.new ≡ fire self.old f) }
        ensures created { IfOk result (λ rows. rows.items ≡ creation_rows f self.old.floor) }
    {
        if self.is_row_reported(f.row) {
            return self.told_row(alloc, f);
        }
        let rows = self.fire_floor(alloc, f)?;
        Ok(rows)
    }

    /// A row of the floor of the tool fires, which starts, and makes its note, with the name that its object has before it; with the rows
    /// of what it creates.
    #[inline(never)]
    #[tactic(auto, using(crate::proofs::Floors::row_fires))]
    fn told_row(&mut self, alloc: Global, f: Firing) -> Result<Vec<Firing>, AllocError>
        requires { floor_starts f self.old.floor ≡ true }
        ensures fired { OnOk result (self.new ≡ fire self.old f) }
        ensures created { IfOk result (λ rows. rows.items ≡ creation_rows f self.old.floor) }
    {
        let online_before = self.is_online();
        let object = self.floor_object(f);
        let created = self.fire_floor(alloc, f)?;
        let noted = RowFiring {
            row: f.row,
            object,
            online_before,
        };
        self.note(alloc, noted)?;
        Ok(created)
    }

    /// What came to a port that the tool has is written there: its name by what was read, and its map.
    pub fn write_arrival(&mut self, port: PortNo, id: Option<CarrierId>, map: [u8; 25])
        requires { lacks_port port.0 self.old ≡ false }
        ensures { self.new ≡ with_arrival port.0 id map self.old }
    {
        let arrival = self.floor.floor().shop().arrival(port, id, map);
        self.floor.come(port, arrival);
    }

    /// An action on a carrier that is accepted writes.
    pub fn write_action(&mut self, action: &CarrierAction) -> Result<(), AllocError>
        requires { is_done_code (carrier_code action.now self.old.floor) ≡ true }
        ensures { OnOk result (self.new ≡ record self.old { floor = with_shop (carrier_written action.now self.old.floor.shop) self.old.floor }) }
    {
        self.floor.write(action)?;
        Ok(())
    }
}
