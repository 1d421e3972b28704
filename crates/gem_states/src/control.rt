//! The states of control (after SEMI E30, control state model; table 2).

ghost use Rattle.std.specs.Prelude.{◌≡◌, ◌∷◌, []};
ghost use Rattle.gem_tables.specs.Table.{first_starting};
ghost use Rattle.gem_states.specs.Control.{control_table, control_number, control_starts, control_fired};
ghost use Rattle.gem_states.specs.Triggers.{control_rows};

/// The states of control: EQUIPMENT OFF-LINE, ATTEMPT ON-LINE, HOST OFF-LINE, ON-LINE LOCAL and ON-LINE REMOTE.
#[derive(Clone, Copy)]
pub enum Control {
    EquipmentOffline,
    Attempt,
    HostOffline,
    Local,
    Remote,
}

/// What fires a direct row of control: the operator's `online`, the failure of the tool's S1F1, an S1F2 of the host, the
/// operator's `offline`, an S1F17 or S1F15 of the host, or the operator's `remote` or `local`, which is the host's
/// GOLOCAL too.
#[derive(Clone, Copy)]
pub enum ControlTrigger {
    Online,
    Failed,
    HostS1F2,
    Offline,
    HostS1F17,
    HostS1F15,
    Remote,
    Local,
}

impl Control {
    /// The state's number, as variables print it: 1 EQUIPMENT OFF-LINE, 2 ATTEMPT ON-LINE, 3 HOST OFF-LINE, 4 ON-LINE
    /// LOCAL, 5 ON-LINE REMOTE.
    pub fn number(&self) -> u8
        ensures { result ≡ control_number self.now }
    {
        match self {
            Control::EquipmentOffline => 1,
            Control::Attempt => 2,
            Control::HostOffline => 3,
            Control::Local => 4,
            Control::Remote => 5,
        }
    }

    /// Fires a row of table 2: true exactly where the row starts at this state, which is then the row's end. False
    /// changes nothing.
    pub fn fire(&mut self, row: u8) -> bool
        ensures fires { result ≡ control_starts row self.old }
        ensures after { self.new ≡ control_fired row self.old }
    {
        let end = match (row, *self) {
            (1, Control::EquipmentOffline) => Control::Attempt,
            (2 | 3, Control::Attempt) => Control::EquipmentOffline,
            (4, Control::Attempt) => Control::Local,
            (5, Control::Attempt) => Control::Remote,
            (6, Control::Attempt | Control::HostOffline | Control::Local | Control::Remote) => {
                Control::EquipmentOffline
            }
            (7, Control::HostOffline) => Control::Local,
            (8, Control::HostOffline) => Control::Remote,
            (9, Control::Local | Control::Remote) => Control::HostOffline,
            (10, Control::Local) => Control::Remote,
            (11, Control::Remote) => Control::Local,
            _ => return false,
        };
        *self = end;
        true
    }

    /// The direct row that a trigger fires at this state, where the switch is local or remote; `None` exactly where none
    /// of the trigger's rows starts here. The switch counts for an S1F2 and an S1F17 alone.
    pub fn row_for(&self, t: ControlTrigger, switch_local: bool) -> Option<u8>
        ensures { result ≡ first_starting control_number control_table self.now (control_rows t switch_local) }
    {
        match (t, self) {
            (ControlTrigger::Online, Control::EquipmentOffline) => Some(1),
            (ControlTrigger::Failed, Control::Attempt) => Some(3),
            (ControlTrigger::HostS1F2, Control::Attempt) => Some(if switch_local { 4 } else { 5 }),
            (
                ControlTrigger::Offline,
                Control::Attempt | Control::HostOffline | Control::Local | Control::Remote,
            ) => Some(6),
            (ControlTrigger::HostS1F17, Control::HostOffline) => {
                Some(if switch_local { 7 } else { 8 })
            }
            (ControlTrigger::HostS1F15, Control::Local | Control::Remote) => Some(9),
            (ControlTrigger::Remote, Control::Local) => Some(10),
            (ControlTrigger::Local, Control::Remote) => Some(11),
            _ => None,
        }
    }
}

impl ControlTrigger {
    /// The number of the direct row that the trigger fires where it starts, where the switch is local or remote (this tool's
    /// profile, direct rows). The switch counts for an S1F2 and an S1F17 alone.
    pub fn row(self, switch_local: bool) -> u8
        ensures { control_rows self switch_local ≡ result ∷ [] }
    {
        match self {
            ControlTrigger::Online => 1,
            ControlTrigger::Failed => 3,
            ControlTrigger::HostS1F2 => if switch_local { 4 } else { 5 },
            ControlTrigger::Offline => 6,
            ControlTrigger::HostS1F17 => if switch_local { 7 } else { 8 },
            ControlTrigger::HostS1F15 => 9,
            ControlTrigger::Remote => 10,
            ControlTrigger::Local => 11,
        }
    }
}
