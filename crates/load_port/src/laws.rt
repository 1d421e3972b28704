//! Laws of the ports.

ghost use Rattle.std.specs.Prelude.{◌≡◌};
ghost use Rattle.load_port.specs.Ports.{most_ports};

use crate::ports::MOST_PORTS;

/// The most ports of a tool: the constant is that of the definitions.
pub fn the_most_ports_are_those_of_the_profile() -> usize
    ensures { result ≡ most_ports }
{
    MOST_PORTS
}
