//! The load ports and the carriers together.

ghost use Rattle.std.specs.Prelude.{◌≡◌, ◌≤◌, true, false, not, length, map, slice_get, option_copied, Some, IfOk, IfErr};
ghost use Rattle.gem_tables.specs.Table.{firing};
ghost use Rattle.load_port.specs.Caack.{is_done_code};
ghost use Rattle.load_port.specs.Ports.{most_ports, is_no_port, view_of};
ghost use Rattle.carrier.specs.Carriers.{carrier_named, carrier_numbered, is_known};
ghost use Rattle.carrier.specs.Verdict.{carrier_caack};
ghost use Rattle.shop_floor.specs.Floor.{opening, with_marked, arrival_of, is_unloadable_port};
ghost use Rattle.shop_floor.specs.Machines.{floor_starts, floor_fired, floor_least, creates, creation_rows, object_name};
ghost use Rattle.shop_floor.specs.Requests.{carrier_code, carrier_written, carrier_rows, port_code, came};
ghost use Rattle.shop_floor.specs.Owning.{number_named, owner_number};
ghost use Rattle.shop_floor.specs.Valid.{IsFloor};

use crate::asking::owner_at;
use crate::rows::MOST_CREATED;
use crate::{naming, requests, rows};
use arrayvec::ArrayVec;
use carrier::{Carrier, CarrierAction, Carriers};
use gem_ids::{CarrierId, PortNo, Text80};
use gem_tables::{Firing, Table};
use load_port::{Arrival, Caack, Port, PortAction, Ports, Transfer};
use std::alloc::{AllocError, Global};
use std::marker::Model;

/// The load ports and the carriers of the tool, which contracts see as the list of the ports in the order of their numbers, that
/// of the carriers in the order in which they were created, and the number that the next carrier gets. There are at most four
/// ports and sixteen carriers. Ports are numbered from 1 on. So are the carriers, by creation: a number is never given again.
/// Only `new`, `fire` and `write` take memory.
pub struct ShopFloor {
    pub(crate) ports: Ports,
    pub(crate) carriers: Carriers,
    next_carrier: u64,
}

// Written out, so that it is one call wherever a floor is dropped.
impl Drop for ShopFloor {
    fn drop(self) {
        let ShopFloor {
            ports: _ports,
            carriers: _carriers,
            next_carrier: _next_carrier,
        } = self;
    }
}

impl Model for ShopFloor {
    ghost use Rattle.shop_floor.specs.Floor.{Floor};

    ghost Value = { Floor };

    ghost use Rattle.shop_floor.specs.Kept.{kept_floor, IsKept};

    ghost view = { kept_floor };

    ghost invariant = { IsKept };
}

impl ShopFloor {
    /// So many ports as they begin, 0 to 4, and no carrier. `AllocError`: there is no room for the carriers.
    pub fn new(alloc: Global, ports: u8) -> Result<ShopFloor, AllocError>
        requires { ports ≤ most_ports }
        ensures { IfOk result (λ floor. floor ≡ opening ports) }
    {
        Ok(ShopFloor {
            carriers: Carriers::new(alloc)?,
            ports: Ports::new(ports),
            next_carrier: 1,
        })
    }

    // ---- what they say

    /// How many ports there are, 0 to 4.
    pub fn port_count(&self) -> usize
        ensures count { result ≡ length self.now.ports }
        ensures few { length self.now.ports ≤ most_ports }
        ensures valid { IsFloor self.now }
    {
        self.ports.len()
    }

    /// The port of a place, counted from 0. `None` exactly where there is none.
    pub fn port(&self, place: usize) -> Option<Port>
        ensures { result ≡ slice_get self.now.ports place }
    {
        self.ports.get(place).copied()
    }

    /// Whether there is a port of this number.
    pub fn has_port(&self, port: PortNo) -> bool
        ensures { result ≡ not (is_no_port port.0 self.now.ports) }
    {
        1 <= port.0 && port.0 as usize <= self.ports.len()
    }

    /// Whether there is a port of this number that is READY TO UNLOAD.
    pub fn is_ready_to_unload(&self, port: PortNo) -> bool
        ensures { result ≡ is_unloadable_port port.0 self.now.ports }
    {
        match self.ports.numbered(port.0 as u64) {
            Some(found) => matches!(found.states.transfer, Transfer::ReadyToUnload),
            None => false,
        }
    }

    /// The number of creation of the carrier that belongs to the port of a number. `None` exactly where there is no such port, or none
    /// belongs to it.
    pub fn owner_number(&self, port: u64) -> Option<u64>
        ensures { result ≡ owner_number port self.now }
    {
        match owner_at(port, &self.ports) {
            Some(name) => self.number_named(name.text()),
            None => None,
        }
    }

    // The number of creation of the carrier of a name.
    fn number_named(&self, name: Text80) -> Option<u64>
        ensures { result ≡ number_named (Some name) self.now }
    {
        match self.carriers.named(name) {
            Some(carrier) => Some(carrier.number),
            None => None,
        }
    }

    /// The carrier of a name. `None` exactly where none of that name is known.
    pub fn carrier_named(&self, name: Text80) -> Option<&Carrier>
        ensures { option_copied result ≡ carrier_named name self.now.carriers }
    {
        self.carriers.named(name)
    }

    /// How many carriers are known.
    pub fn carrier_count(&self) -> usize
        ensures count { result ≡ length self.now.carriers }
        ensures valid { IsFloor self.now }
    {
        self.carriers.len()
    }

    /// The carrier of a number of creation. `None` exactly where none of that number is known.
    pub fn carrier_numbered(&self, number: u64) -> Option<&Carrier>
        ensures { option_copied result ≡ carrier_numbered number self.now.carriers }
    {
        self.carriers.numbered(number)
    }

    /// The carrier of a place, counted from 0, in the order of creation. `None` exactly where there is none.
    pub fn carrier(&self, place: usize) -> Option<&Carrier>
        ensures { option_copied result ≡ slice_get self.now.carriers place }
    {
        self.carriers.get(place)
    }

    /// The name of the object of a row: P and the digit of the port's number, or the carrier's name; the empty text where there
    /// is no such port or carrier, and for a row of another table (this tool's profile, object names).
    pub fn object_name(&self, x: Firing) -> Text80
        ensures { result ≡ object_name x self.now }
    {
        match Table::of(x.row.table) {
            Some(Table::Transfer | Table::Access | Table::Reservation | Table::Association) => {
                naming::port_name(x.object, &self.ports)
            }
            Some(Table::CarrierId | Table::SlotMap | Table::Accessing) => {
                naming::carrier_name(x.object, &self.carriers)
            }
            _ => Text80::empty(),
        }
    }

    // ---- the rows

    /// The least row that is ready by itself: that of the least table, in it that of the first object, and of that object the
    /// row of the least number; ports by number, carriers by creation (this tool's profile, settling). `None` exactly where no
    /// row is ready.
    pub fn least(&self) -> Option<Firing>
        ensures { result ≡ floor_least self.now }
    {
        if let Some(x) = self.ready_port(Table::Transfer) {
            return Some(x);
        }
        if let Some(x) = self.ready_port(Table::Reservation) {
            return Some(x);
        }
        if let Some(x) = self.ready_port(Table::Association) {
            return Some(x);
        }
        if let Some(x) = self.ready_carrier(Table::CarrierId) {
            return Some(x);
        }
        self.ready_carrier(Table::SlotMap)
    }

    /// Whether a row starts: its object is there, in a state in which the row starts, and what the row wants besides is so (this
    /// tool's profile, tables 4 to 10). The row that creates a carrier starts for any that is there. A row of another table
    /// never starts.
    pub fn starts(&self, x: Firing) -> bool
        ensures { result ≡ floor_starts x self.now }
    {
        match Table::of(x.row.table) {
            Some(Table::Transfer | Table::Access | Table::Reservation | Table::Association) => {
                self.starts_at_port(x)
            }
            Some(Table::CarrierId | Table::SlotMap | Table::Accessing) => self.starts_at_carrier(x),
            _ => false,
        }
    }

    /// The rows of the carrier that a row creates, which are to be fired straight behind it (this tool's profile, settling). They
    /// are asked before the row fires. There are none exactly where the row creates none.
    pub fn creations(&self, x: Firing) -> ArrayVec<Firing, MOST_CREATED>
        ensures { result.items ≡ creation_rows x self.now }
    {
        rows::creations(x, &self.ports, &self.carriers, self.next_carrier)
    }

    /// A row fires that starts: the state of its object in the row's table is the row's end, and a row of table 7 says besides
    /// which carrier belongs to the port, and lets come, binds or forgets it. `AllocError`: no number is left for the carrier
    /// that it creates; then nothing has changed.
    pub fn fire(&mut self, x: Firing) -> Result<(), AllocError>
        requires { floor_starts x self.old ≡ true }
        ensures ok { IfOk result (λ _. self.new ≡ floor_fired x self.old) }
        ensures err { IfErr result (λ _. self.new ≡ self.old) }
        ensures needed { IfErr result (λ _. creates x self.old ≡ true) }
    {
        rows::fire(
            x,
            &mut self.ports,
            &mut self.carriers,
            &mut self.next_carrier,
        )
    }

    /// A row of table 10 fires at the carrier of a number, whatever it wants besides, where it starts at the carrier's state. What it wants
    /// of the carrier's substrates is for the caller.
    pub fn fire_accessing(&mut self, carrier: u64, row: u8)
        ensures { self.new ≡ floor_fired (firing 10 carrier row) self.old }
    {
        self.carriers.fire(carrier, Table::Accessing.number(), row);
    }

    // ---- what the host asks

    /// What the host is answered of an action on a carrier by the states before it, CAACK (SEMI E87, S3F17; this tool's
    /// profile, S3F17): that it is done where it can be. Changes nothing.
    pub fn carrier_code(&self, a: &CarrierAction) -> Caack
        ensures { result ≡ carrier_code self.now a.now }
    {
        self.code_by_jobs(a, false)
    }

    /// The same, where a process job names the carrier or none does: one that a job names isn't cancelled where its slot map is
    /// VERIFIED (this tool's profile, S3F17). Changes nothing.
    pub fn code_by_jobs(&self, a: &CarrierAction, is_named: bool) -> Caack
        ensures { result ≡ carrier_caack self.now.carriers (map view_of self.now.ports) a.now is_named }
    {
        self.carriers
            .code(self.ports.views().as_slice(), a, is_named)
    }

    /// What the host is answered of an action on ports by the states before it, CAACK (SEMI E87, S3F26 and S3F28; this tool's
    /// profile, S3F25 and S3F27): that it is done where it can be. Changes nothing.
    pub fn port_code(&self, a: &PortAction) -> Caack
        ensures { result ≡ port_code self.now a.now }
    {
        self.ports.code(a)
    }

    /// What an action on a carrier writes that can be done: Bind and CarrierNotification make a carrier known, and Bind directs
    /// it to its port; ProceedWithCarrier tells its map; CancelCarrierNotification forgets it (SEMI E87, S3F17). Its rows are
    /// for the caller: `carrier_rows`, asked before. `AllocError`: there is no memory for a carrier, or the last
    /// number was given; nothing has changed.
    pub fn write(&mut self, a: &CarrierAction) -> Result<(), AllocError>
        requires { is_done_code (carrier_code self.old a.now) ≡ true }
        ensures ok { IfOk result (λ _. self.new ≡ carrier_written a.now self.old) }
        ensures err { IfErr result (λ _. self.new ≡ self.old) }
        ensures needed { IfErr result (λ _. is_known a.now.id self.old.carriers ≡ false) }
    {
        match CarrierId::read(a.id) {
            Some(id) => requests::write(a, id, &mut self.carriers, &mut self.next_carrier),
            None => unreachable!(),
        }
    }

    /// The rows that an action on a carrier fires that can be done, in their order (this tool's profile, direct rows). They are
    /// asked before `write`; each is fired where it starts. Takes no memory.
    pub fn carrier_rows(&self, a: &CarrierAction) -> ArrayVec<Firing, 3>
        ensures { result.items ≡ carrier_rows a.now self.now }
    {
        requests::carrier_rows(a, &self.carriers, self.next_carrier)
    }

    // ---- what process jobs do

    /// The carrier of a name is marked stopped from now on, until it is forgotten: a process job of it ended after a STOP or an
    /// ABORT (this tool's profile, tables 10 and 14). Where none of the name is known, nothing changes. Takes no memory.
    pub fn mark_stopped(&mut self, name: Text80)
        ensures { self.new ≡ with_marked name self.old }
    {
        self.carriers.mark_stopped(name);
    }

    // ---- what the equipment tells

    /// What comes to a port, with the name that was read, if one was, and its map: the name is the carrier's, but for one that
    /// begins as those that the tool gives, UNREAD-, and for that of a carrier that is present; then the carrier has the name
    /// UNREAD- and the port's digit (this tool's profile, carriers).
    pub fn arrival(&self, port: PortNo, id: Option<CarrierId>, map: [u8; 25]) -> Arrival
        requires { is_no_port port.0 self.now.ports ≡ false }
        ensures { result ≡ arrival_of port.0 id map self.now.carriers }
    {
        let count = self.ports.len();
        prove!(port.0 as usize <= count);
        naming::arrival(port, id, map, &self.carriers)
    }

    /// This came to a port, and isn't told of yet.
    pub fn come(&mut self, port: PortNo, arrival: Arrival)
        requires { is_no_port port.0 self.old.ports ≡ false }
        ensures { self.new ≡ came port.0 arrival self.old }
    {
        self.ports.come(port.0 as u64, arrival);
    }
}
