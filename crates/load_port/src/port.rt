//! A load port.

ghost use Rattle.std.specs.Prelude.{◌≡◌, Some, None};
ghost use Rattle.load_port.specs.Ports.{first_port, view_of};

use crate::action::PortView;
use crate::record::PortRecord;
use gem_ids::CarrierId;

/// A carrier that came to a port: its name, whether its id was read, and the codes of its 25 slots (SEMI E87, carrier id and
/// slot map).
#[derive(Clone, Copy)]
pub struct Arrival {
    pub name: CarrierId,
    pub is_read: bool,
    pub map: [u8; 25],
}

/// A port: its states, the carrier that belongs to it, and the carrier that came and isn't associated yet.
#[derive(Clone, Copy)]
pub struct Port {
    pub states: PortRecord,
    pub carrier: Option<CarrierId>,
    pub arrival: Option<Arrival>,
}

impl Default for Port {
    ghost is_default = { λ p. p ≡ first_port };

    fn default() -> Port {
        Port::new()
    }
}

impl Port {
    /// A port as it begins: READY TO LOAD, MANUAL, NOT RESERVED and NOT ASSOCIATED, with no carrier.
    pub fn new() -> Port
        ensures { result ≡ first_port }
    {
        Port {
            states: PortRecord::new(),
            carrier: None,
            arrival: None,
        }
    }

    /// What carriers are told of the port.
    pub fn view(&self) -> PortView
        ensures { result ≡ view_of self.now }
    {
        PortView {
            present: self.states.transfer.is_occupied(),
            in_service: self.states.transfer.is_in_service(),
            carrier: self.carrier,
        }
    }

    // This carrier belongs to the port, and what came there is told of.
    pub(crate) fn settle(&mut self, name: CarrierId)
        ensures { self.new ≡ record self.old { carrier = Some name; arrival = None } }
    {
        self.carrier = Some(name);
        self.arrival = None;
    }
}
