//! Tables 1 and 2: communication and control.

ghost use Rattle.std.specs.Prelude.{◌≡◌, true, IfOk};
ghost use Rattle.gem_states.specs.Communication.{comm_number, comm_starts, comm_fired};
ghost use Rattle.gem_states.specs.Control.{control_number, control_starts, control_fired};
ghost use Rattle.state_arrows.specs.Arrows.{answered, are_same, are_apart};
ghost use Rattle.state_arrows.specs.Tables.{communication_arrows, control_arrows};

use crate::arrow::{Arrow, arrow_where};
use crate::asked::Asked;
use crate::gathered::gather;
use gem_states::{Comm, Control};
use std::alloc::{AllocError, Global};

impl Asked for Comm {
    // The moment at which a delay is over is drawn nowhere, and so it is 0.
    ghost answer = { λ row comm. answered comm_number comm_starts (λ r s. comm_fired r 0 s) row comm };

    fn ask(&self, row: u8) -> Option<Arrow> {
        let mut end = *self;
        let starts = end.fire(row, 0);
        arrow_where(starts, row, self.number(), end.number())
    }
}

impl Asked for Control {
    ghost answer = { λ row control. answered control_number control_starts control_fired row control };

    fn ask(&self, row: u8) -> Option<Arrow> {
        let mut end = *self;
        let starts = end.fire(row);
        arrow_where(starts, row, self.number(), end.number())
    }
}

/// The arrows of table 1.
pub(crate) fn communication(alloc: Global) -> Result<Vec<Arrow>, AllocError>
    ensures same { IfOk result (λ arrows. are_same arrows.items communication_arrows ≡ true) }
    ensures once { IfOk result (λ arrows. are_apart arrows.items ≡ true) }
{
    let states = [
        Comm::Disabled,
        Comm::WaitDelay { until: 0 },
        Comm::WaitCra,
        Comm::Communicating,
    ];
    gather(alloc, None, 7, &states)
}

/// The arrows of table 2.
pub(crate) fn control(alloc: Global) -> Result<Vec<Arrow>, AllocError>
    ensures same { IfOk result (λ arrows. are_same arrows.items control_arrows ≡ true) }
    ensures once { IfOk result (λ arrows. are_apart arrows.items ≡ true) }
{
    let states = [
        Control::EquipmentOffline,
        Control::Attempt,
        Control::HostOffline,
        Control::Local,
        Control::Remote,
    ];
    gather(alloc, None, 11, &states)
}
