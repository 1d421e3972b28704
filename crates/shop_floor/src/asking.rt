//! What is asked of the ports and the carriers together.

ghost use Rattle.std.specs.Prelude.{◌≡◌, ◌≤◌, ◌&&◌, not, find, option_copied, Some};
ghost use Rattle.load_port.specs.Ports.{most_ports, port_numbered};
ghost use Rattle.load_port.specs.declared.port.Arrival.{Arrival};
ghost use Rattle.carrier.specs.Carriers.{has_name, is_port, is_present_at, is_finished};
ghost use Rattle.shop_floor.specs.Floor.{is_present};
ghost use Rattle.shop_floor.specs.Rows.{is_directed, is_own, is_elsewhere, owner, arrival_at, is_new, has_finished};

use carrier::{Carrier, Carriers};
use gem_ids::{CarrierId, PortNo};
use load_port::{Arrival, Port, Ports};

// The number of a port.
pub(crate) fn port_no(number: u64) -> PortNo
    requires { number ≤ most_ports }
    ensures { result.0 ≡ number }
{
    PortNo(number as u8)
}

// ---- of a port

// The carrier that belongs to the port of a number.
pub(crate) fn owner_at(number: u64, ports: &Ports) -> Option<CarrierId>
    ensures { result ≡ owner (port_numbered number ports.now) }
{
    match ports.numbered(number) {
        Some(port) => port.carrier,
        None => None,
    }
}

// The carrier that came to the port of a number.
pub(crate) fn arrival_at(number: u64, ports: &Ports) -> Option<Arrival>
    ensures { result ≡ arrival_at (port_numbered number ports.now) }
{
    match ports.numbered(number) {
        Some(port) => port.arrival,
        None => None,
    }
}

// Whether what came to a port is its carrier.
pub(crate) fn is_own(port: &Port) -> bool
    ensures { result ≡ is_own port.now.carrier port.now.arrival }
{
    match &port.arrival {
        Some(came) => is_owner(&came.name, port),
        None => false,
    }
}

// Whether the carrier of this name belongs to a port.
fn is_owner(name: &CarrierId, port: &Port) -> bool
    ensures { (came : Arrival) → came.name ≡ name.now → result ≡ is_own port.now.carrier (Some came) }
{
    match &port.carrier {
        Some(own) => own.as_bytes() == name.as_bytes(),
        None => false,
    }
}

// ---- of the carriers

// Whether a carrier of this name is present.
pub(crate) fn is_present(name: CarrierId, carriers: &Carriers) -> bool
    ensures { result ≡ is_present name carriers.now }
{
    match carriers.named(name.text()) {
        Some(carrier) => carrier.present,
        None => false,
    }
}

// Whether the carrier of the port of this number is present at another port.
pub(crate) fn is_elsewhere(number: PortNo, port: &Port, carriers: &Carriers) -> bool
    ensures { result ≡ is_elsewhere number.0 port.now.carrier carriers.now }
{
    match &port.carrier {
        Some(name) => is_any_away(number, name, carriers.as_slice()),
        None => false,
    }
}

// Whether one of these carriers has this name, and is present at another port than that of this number.
fn is_any_away(number: PortNo, name: &CarrierId, carriers: &[Carrier]) -> bool
    ensures { result ≡ is_elsewhere number.0 (Some name.now) carriers.now }
{
    carriers
        .iter()
        .any(|carrier| is_away(number, name, carrier))
}

// Whether the carrier has this name, and is present at another port than that of this number.
fn is_away(number: PortNo, name: &CarrierId, carrier: &Carrier) -> bool
    ensures { result ≡ (has_name name.now carrier.now && (carrier.now.present && not (is_port number.0 carrier.now.port))) }
{
    // the name comes last, since it is most to compare
    carrier.present && !carrier.is_at(number) && carrier.name.as_bytes() == name.as_bytes()
}

// Whether the carrier at the port of this number may be taken away.
pub(crate) fn has_finished(number: PortNo, carriers: &Carriers) -> bool
    ensures { result ≡ has_finished number.0 carriers.now }
{
    carriers
        .as_slice()
        .iter()
        .any(|carrier| is_finished_at(number, carrier))
}

// Whether the carrier is at the port of this number, and may be taken away.
fn is_finished_at(number: PortNo, carrier: &Carrier) -> bool
    ensures { result ≡ (is_present_at number.0 carrier.now && is_finished carrier.now.states) }
{
    carrier.present && carrier.is_at(number) && carrier.states.is_finished()
}

// The first carrier that waits to be bound to the port of this number.
pub(crate) fn directed(number: PortNo, carriers: &Carriers) -> Option<&Carrier>
    ensures { option_copied result ≡ find (is_directed number.0) carriers.now }
{
    carriers
        .as_slice()
        .iter()
        .find(|carrier| is_directed(number, carrier))
}

// Whether the carrier waits to be bound to the port of this number.
fn is_directed(number: PortNo, carrier: &Carrier) -> bool
    ensures { result ≡ is_directed number.0 carrier.now }
{
    carrier.is_at(number) && !carrier.present && !carrier.bound
}

// ---- what came

// Whether a carrier came to the port of a number whose name isn't known.
pub(crate) fn is_new_at(number: u64, ports: &Ports, carriers: &Carriers) -> bool
    ensures { result ≡ is_new (arrival_at (port_numbered number ports.now)) carriers.now }
{
    match ports.numbered(number) {
        Some(port) => is_new(port, carriers),
        None => false,
    }
}

// Whether a carrier came to the port whose name isn't known.
fn is_new(port: &Port, carriers: &Carriers) -> bool
    ensures { result ≡ is_new port.now.arrival carriers.now }
{
    match &port.arrival {
        Some(arrival) => !carriers.is_known(arrival.name.text()),
        None => false,
    }
}
