//! The transition tables by name.

ghost use Rattle.std.specs.Prelude.{◌≡◌};
ghost use Rattle.gem_tables.specs.Names.{table_number, table_of};

/// A transition table of the tool, by what its states are of (this tool's profile, transition tables): `Line` is that of the notes and
/// their spool, `CarrierId`, `SlotMap` and `Accessing` are those of a carrier, and `Moves` is that of the modules.
#[derive(Clone, Copy)]
pub enum Table {
    Communication = 1,
    Control = 2,
    Line = 3,
    Transfer = 4,
    Access = 5,
    Reservation = 6,
    Association = 7,
    CarrierId = 8,
    SlotMap = 9,
    Accessing = 10,
    Location = 11,
    Transport = 12,
    Processing = 13,
    ProcessJob = 14,
    ControlJob = 15,
    Moves = 16,
}

impl Table {
    /// The number of the table, as it is printed: 1 to 16.
    pub fn number(self) -> u8
        ensures { result ≡ table_number self }
    {
        self as u8
    }

    /// The table of a number. `None` exactly where none has it.
    pub fn of(number: u8) -> Option<Table>
        ensures { result ≡ table_of number }
    {
        match number {
            1 => Some(Table::Communication),
            2 => Some(Table::Control),
            3 => Some(Table::Line),
            4 => Some(Table::Transfer),
            5 => Some(Table::Access),
            6 => Some(Table::Reservation),
            7 => Some(Table::Association),
            8 => Some(Table::CarrierId),
            9 => Some(Table::SlotMap),
            10 => Some(Table::Accessing),
            11 => Some(Table::Location),
            12 => Some(Table::Transport),
            13 => Some(Table::Processing),
            14 => Some(Table::ProcessJob),
            15 => Some(Table::ControlJob),
            16 => Some(Table::Moves),
            _ => None,
        }
    }
}
