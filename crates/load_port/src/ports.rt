//! The load ports of a tool.

ghost use Rattle.std.specs.Prelude.{◌≡◌, ◌+◌, ◌≤◌, ◌<◌, length, map, slice_get, option_map, option_copied, Some, None, IfSome};
ghost use Rattle.std.specs.List.{list_any};
ghost use Rattle.load_port.specs.Caack.{caack_number};
ghost use Rattle.load_port.specs.Ports.{first_ports, most_ports, change_port, fires_row, starts_row, view_of, is_no_port, port_numbered, reserve_code, cancel_code, access_code, port_caack};

use crate::action::{PortAction, PortView};
use crate::caack::Caack;
use crate::port::{Arrival, Port};
use arrayvec::ArrayVec;
use gem_ids::CarrierId;
use std::marker::Model;

/// The most ports of a tool (this tool's profile, variables).
pub const MOST_PORTS: usize = 4;

/// The load ports of a tool in the order of their numbers, which contracts see as the list of them. A port is told by
/// its number, counted from 1. No call takes memory.
#[derive(Drop)]
pub struct Ports {
    ports: ArrayVec<Port, MOST_PORTS>,
}

impl Model for Ports {
    ghost use Rattle.std.specs.Prelude.{List, length, ◌≤◌};
    ghost use Rattle.load_port.specs.declared.port.Port.{Port};
    ghost use Rattle.load_port.specs.Ports.{most_ports};

    ghost Value = { List Port };

    ghost view = { λ p. p.ports.items };

    ghost invariant = { λ p. length p.ports.items ≤ most_ports };
}

impl Ports {
    /// So many ports, 0 to 4, as they begin.
    pub fn new(count: u8) -> Ports
        requires { count ≤ most_ports }
        ensures { result ≡ first_ports count }
    {
        let mut ports = ArrayVec::from([Port::new(); MOST_PORTS]);
        ports.truncate(count as usize);
        Ports { ports }
    }

    // ---- what they say

    /// How many ports there are, 0 to 4.
    pub fn len(&self) -> usize
        ensures len { result ≡ length self.now }
        ensures few { length self.now ≤ most_ports }
    {
        self.ports.len()
    }

    /// The port at a place, counted from 0. `None` exactly where there is none.
    pub fn get(&self, place: usize) -> Option<&Port>
        ensures { option_copied result ≡ slice_get self.now place }
    {
        self.ports.as_slice().get(place)
    }

    /// The port of a number, counted from 1. `None` exactly where there is none.
    pub fn numbered(&self, number: u64) -> Option<&Port>
        ensures value { option_copied result ≡ port_numbered number self.now }
        ensures few { IfSome result (λ _. number ≤ most_ports) }
    {
        let _ = self.len();
        if number == 0 {
            None
        } else {
            self.get(number as usize - 1)
        }
    }

    /// What carriers are told of the port at a place, counted from 0. `None` exactly where there is none.
    pub fn view(&self, place: usize) -> Option<PortView>
        ensures { result ≡ option_map view_of (slice_get self.now place) }
    {
        match self.get(place) {
            Some(port) => Some(port.view()),
            None => None,
        }
    }

    /// What carriers are told of all ports, in their order.
    pub fn views(&self) -> ArrayVec<PortView, MOST_PORTS>
        ensures { result.items ≡ map view_of self.now }
    {
        let mut views = ArrayVec::new();
        for port in self.ports.as_slice() {
            views.push(port.view());
        }
        views
    }

    // ---- what is asked of them

    /// What the host is answered of an action on ports by the states before it, CAACK, by its number (SEMI E87, S3F26 and S3F28;
    /// this tool's profile): that of `code`. Changes nothing.
    pub fn verdict(&self, a: &PortAction) -> u8
        ensures { result ≡ caack_number (port_caack self.now a.now) }
    {
        self.code(a).number()
    }

    /// What the host is answered of an action on ports by the states before it (SEMI E87, S3F26 and S3F28; this tool's
    /// profile): that it is done where it can be, unknown for an unknown action, faulty for a port that isn't there and for a
    /// mode other than 0 and 1, impossible where the port's states forbid it. Changes nothing.
    pub fn code(&self, a: &PortAction) -> Caack
        ensures { result ≡ port_caack self.now a.now }
    {
        match a {
            PortAction::Reserve(port) => reserve_code(self.numbered(*port as u64)),
            PortAction::CancelReserve(port) => cancel_code(self.numbered(*port as u64)),
            PortAction::Access(mode, numbers) => self.access_code(*mode, numbers.as_slice()),
            PortAction::Unknown => Caack::Unknown,
        }
    }

    // What the host is answered that sets the access mode of these ports.
    fn access_code(&self, mode: u8, numbers: &[u8]) -> Caack
        ensures { result ≡ access_code mode numbers.now self.now }
    {
        if mode > 1 || self.any_no_port(numbers) {
            Caack::Faulty
        } else {
            Caack::Done
        }
    }

    // Whether one of the numbers is that of no port.
    fn any_no_port(&self, numbers: &[u8]) -> bool
        ensures { result ≡ list_any (λ n. is_no_port n self.now) numbers.now }
    {
        for number in numbers {
            if self.is_no_port(*number) {
                return true;
            }
        }
        false
    }

    // Whether the number is that of no port.
    fn is_no_port(&self, number: u8) -> bool
        ensures { result ≡ is_no_port number self.now }
    {
        number == 0 || self.len() < number as usize
    }

    // ---- what happens to them

    // The place of the port of a number, counted from 0. `None` exactly where there is none.
    fn place_of(&self, number: u64) -> Option<usize>
        ensures within { IfSome result (λ place. place < length self.now) }
        ensures counted { IfSome result (λ place. number ≡ place + 1) }
        ensures missing { result ≡ None → port_numbered number self.now ≡ None }
    {
        if number == 0 || number > self.ports.len() as u64 {
            None
        } else {
            Some(number as usize - 1)
        }
    }

    /// Fires a row of table 4, 5, 6 or 7 at the port of a number, counted from 1: true exactly where there is a port of that
    /// number at whose states the row starts. The port's state in the row's table is then the row's end, and all else stays;
    /// false changes nothing. What a row wants besides the states, and what it does besides, is for the caller.
    pub fn fire(&mut self, number: u64, table: u8, row: u8) -> bool
        ensures fires { result ≡ starts_row table row (port_numbered number self.old) }
        ensures after { self.new ≡ change_port number (fires_row table row) self.old }
    {
        match self.place_of(number) {
            None => false,
            Some(place) => self.ports[place].states.fire(table, row),
        }
    }

    /// This carrier, or none, belongs to the port of a number, counted from 1. Where there is no such port, nothing changes.
    pub fn own(&mut self, number: u64, carrier: Option<CarrierId>)
        ensures { self.new ≡ change_port number (λ p. record p { carrier = carrier }) self.old }
    {
        if let Some(place) = self.place_of(number) {
            self.ports[place].carrier = carrier;
        }
    }

    /// A carrier came to the port of a number, counted from 1, and isn't told of yet. Where there is no such port, nothing
    /// changes.
    pub fn come(&mut self, number: u64, arrival: Arrival)
        ensures { self.new ≡ change_port number (λ p. record p { arrival = Some arrival }) self.old }
    {
        if let Some(place) = self.place_of(number) {
            self.ports[place].arrival = Some(arrival);
        }
    }

    /// This carrier belongs to the port of a number, counted from 1, and what came there is told of. Where there is no such
    /// port, nothing changes.
    pub fn settle(&mut self, number: u64, name: CarrierId)
        ensures { self.new ≡ change_port number (λ p. record p { carrier = Some name; arrival = None }) self.old }
    {
        if let Some(place) = self.place_of(number) {
            self.ports[place].settle(name);
        }
    }
}

// What the host is answered that reserves a port.
fn reserve_code(port: Option<&Port>) -> Caack
    ensures { result ≡ reserve_code (option_copied port.entry) }
{
    match port {
        None => Caack::Faulty,
        Some(p) => {
            let transfer = p.states.transfer;
            if p.states.reservation.is_reserved()
                || !transfer.is_in_service()
                || transfer.is_occupied()
            {
                Caack::Impossible
            } else {
                Caack::Done
            }
        }
    }
}

// What the host is answered that cancels the reservation of a port.
fn cancel_code(port: Option<&Port>) -> Caack
    ensures { result ≡ cancel_code (option_copied port.entry) }
{
    match port {
        None => Caack::Faulty,
        Some(p) => {
            if p.states.reservation.is_reserved() {
                Caack::Done
            } else {
                Caack::Impossible
            }
        }
    }
}
