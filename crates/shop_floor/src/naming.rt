//! Names of ports and of carriers (this tool's profile, object names and carriers).

ghost use Rattle.std.specs.Prelude.{◌≡◌, ◌<◌};
ghost use Rattle.load_port.specs.Ports.{port_numbered};
ghost use Rattle.carrier.specs.Carriers.{carrier_numbered};
ghost use Rattle.shop_floor.specs.Floor.{port_name, carrier_name, is_taken_as_read, unread_name, arrival_of};

use crate::asking::is_present;
use carrier::Carriers;
use gem_ids::{CarrierId, PortNo, Text80};
use load_port::{Arrival, Ports};

// The name of the port of a number, or the empty text where there is none.
pub(crate) fn port_name(number: u64, ports: &Ports) -> Text80
    ensures { result ≡ port_name number (port_numbered number ports.now) }
{
    match ports.numbered(number) {
        Some(_) => {
            let digit = b'0' + number as u8;
            Text80::read(&[b'P', digit]).unwrap()
        }
        None => Text80::empty(),
    }
}

// The name of the carrier of a number of creation, or the empty text where there is none.
pub(crate) fn carrier_name(number: u64, carriers: &Carriers) -> Text80
    ensures { result ≡ carrier_name (carrier_numbered number carriers.now) }
{
    match carriers.numbered(number) {
        Some(carrier) => carrier.name.text(),
        None => Text80::empty(),
    }
}

// What comes to the port of this number, which is below 10, with the name that was read, if one was, and its map.
pub(crate) fn arrival(
    number: PortNo,
    id: Option<CarrierId>,
    map: [u8; 25],
    carriers: &Carriers,
) -> Arrival
    requires { number.0 < 10 }
    ensures { result ≡ arrival_of number.0 id map carriers.now }
{
    if let Some(name) = id {
        if is_taken_as_read(name, carriers) {
            return Arrival {
                name,
                is_read: true,
                map,
            };
        }
    }
    Arrival {
        name: unread_name(number),
        is_read: false,
        map,
    }
}

// Whether a name that was read is taken for that of the carrier.
fn is_taken_as_read(name: CarrierId, carriers: &Carriers) -> bool
    ensures { result ≡ is_taken_as_read name carriers.now }
{
    !name.as_bytes().starts_with(b"UNREAD-") && !is_present(name, carriers)
}

// The name that the tool gives a carrier at the port of this number, which is below 10.
fn unread_name(number: PortNo) -> CarrierId
    requires { number.0 < 10 }
    ensures { result ≡ unread_name number.0 }
{
    let digit = b'0' + number.0;
    let text = Text80::read(&[b'U', b'N', b'R', b'E', b'A', b'D', b'-', digit]).unwrap();
    CarrierId::read(text).unwrap()
}
