//! What is done to a carrier.

ghost use Rattle.carrier.specs.Changes.{changed_by};

use crate::carrier::Carrier;
use gem_ids::PortNo;
use records::Change;

// What is done to a carrier: a row of table 8, 9 or 10 fires; its map was read; it came to a port, with its id read or not and
// its map; a port is to be its own; it is bound to it; the host gave its map; or it is marked stopped.
#[derive(Drop)]
pub(crate) enum CarrierChange {
    Row(u8, u8),
    ReadMap([u8; 25]),
    Came(PortNo, bool, [u8; 25]),
    Directed(PortNo),
    Bound,
    ToldMap([u8; 25]),
    Stopped,
}

impl Change<Carrier> for CarrierChange {
    ghost does = { changed_by };

    fn apply(&self, carrier: &mut Carrier) {
        match self {
            CarrierChange::Row(table, row) => {
                carrier.states.fire(*table, *row);
            }
            CarrierChange::ReadMap(map) => carrier.map = *map,
            CarrierChange::Came(port, is_read, map) => carrier.come(*port, *is_read, *map),
            CarrierChange::Directed(port) => carrier.port = Some(*port),
            CarrierChange::Bound => carrier.bound = true,
            CarrierChange::ToldMap(map) => carrier.host_map = Some(*map),
            CarrierChange::Stopped => carrier.stopped = true,
        }
    }
}
