//! A carrier.

ghost use Rattle.std.specs.Prelude.{◌≡◌};
ghost use Rattle.carrier.specs.Carriers.{name_of, number_of, created, view_of, is_usable, is_usable_slot, is_host_map, is_port, came_to};

use crate::record::CarrierRecord;
use gem_ids::{CarrierId, PortNo, Text80};
use records::{Named, Numbered};

/// A carrier: its number of creation, which is its own for good; its name and states; whether its id was read, and the map of its slots, where it came; the map that the host
/// gave; the port that it is at or bound to; whether it is present there, and whether it is bound there; and whether it is marked
/// stopped, as it is once a process job of it ended after a STOP or an ABORT (this tool's profile, tables 10 and 14).
#[derive(Clone, Copy)]
pub struct Carrier {
    pub number: u64,
    pub name: CarrierId,
    pub states: CarrierRecord,
    pub is_read: bool,
    pub map: [u8; 25],
    pub host_map: Option<[u8; 25]>,
    pub port: Option<PortNo>,
    pub present: bool,
    pub bound: bool,
    pub stopped: bool,
}

/// What is told of a carrier: the numbers of its states as the tables print them, its map (25 codes 0 before it came), the
/// port that it is at or bound to, and whether it is present or bound there.
#[derive(Clone, Copy)]
pub struct CarrierView {
    pub id_state: u8,
    pub map_state: u8,
    pub access_state: u8,
    pub map: [u8; 25],
    pub port: Option<PortNo>,
    pub present: bool,
    pub bound: bool,
}

impl Carrier {
    /// A carrier as it is created, with its number: nothing came of it yet, its map is 25 codes 0, undefined, and no port is its (this tool's
    /// profile, tables 8 to 10).
    pub fn new(number: u64, name: CarrierId) -> Carrier
        ensures { result ≡ created number name }
    {
        Carrier {
            number,
            name,
            states: CarrierRecord::new(),
            is_read: false,
            map: [0; 25],
            host_map: None,
            port: None,
            present: false,
            bound: false,
            stopped: false,
        }
    }

    /// What is told of the carrier.
    pub fn view(&self) -> CarrierView
        ensures { result ≡ view_of self.now }
    {
        CarrierView {
            id_state: self.states.id.number(),
            map_state: self.states.map.number(),
            access_state: self.states.access.number(),
            map: self.map,
            port: self.port,
            present: self.present,
            bound: self.bound,
        }
    }

    /// Whether the map of the carrier is usable: each slot is empty, 1, or correctly occupied, 3 (SEMI E87, slot map; this
    /// tool's profile, carriers).
    pub fn is_usable(&self) -> bool
        ensures { result ≡ is_usable self.now.map }
    {
        is_usable(&self.map)
    }

    /// Whether the host gave a map, and it is that of the carrier.
    pub fn is_host_map(&self) -> bool
        ensures { result ≡ is_host_map self.now.map self.now.host_map }
    {
        match self.host_map {
            Some(given) => given == self.map,
            None => false,
        }
    }

    /// Whether the carrier's port is this one.
    pub fn is_at(&self, port: PortNo) -> bool
        ensures { result ≡ is_port port.0 self.now.port }
    {
        match self.port {
            Some(own) => own.0 == port.0,
            None => false,
        }
    }

    // The carrier came to this port.
    pub(crate) fn come(&mut self, port: PortNo, is_read: bool, map: [u8; 25])
        ensures { self.new ≡ came_to port.0 is_read map self.old }
    {
        self.bound = self.bound && self.is_at(port);
        self.is_read = is_read;
        self.map = map;
        self.port = Some(port);
        self.present = true;
    }
}

impl Named for Carrier {
    ghost name = { name_of };

    fn text(&self) -> Text80 {
        self.name.text()
    }

    fn name_bytes(&self) -> &[u8] {
        self.name.as_bytes()
    }
}

impl Numbered for Carrier {
    ghost number = { number_of };

    fn number(&self) -> u64 {
        self.number
    }
}

// Whether each slot of a map is usable.
fn is_usable(slots: &[u8]) -> bool
    ensures { result ≡ is_usable slots.now }
{
    for code in slots {
        if *code != 1 && *code != 3 {
            return false;
        }
    }
    true
}
