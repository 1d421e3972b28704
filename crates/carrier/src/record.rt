//! The states of a carrier (after SEMI E87, carrier states; tables 8 to 10).

ghost use Rattle.std.specs.Prelude.{◌≡◌, false};
ghost use Rattle.gem_tables.specs.Table.{starts, after};
ghost use Rattle.carrier.specs.Tables.{id_table, id_number, map_table, map_number, accessing_table, access_number};
ghost use Rattle.carrier.specs.Carriers.{is_finished};
ghost use Rattle.carrier.specs.Record.{first_record, carrier_starts, carrier_fired, is_id_waiting, is_id_failed, is_map_waiting, is_map_verified, is_map_failed, is_not_accessed, is_done};

use gem_tables::Table;

/// The states of a carrier's id: ID NOT READ, WAITING FOR HOST, ID VERIFIED and ID VERIFICATION FAILED.
#[derive(Clone, Copy)]
pub enum IdState {
    NotRead,
    WaitingForHost,
    Verified,
    VerificationFailed,
}

/// The states of its slot map: NOT READ, WAITING FOR HOST, VERIFIED and VERIFICATION FAILED.
#[derive(Clone, Copy)]
pub enum MapState {
    NotRead,
    WaitingForHost,
    Verified,
    VerificationFailed,
}

/// How it is accessed: NOT ACCESSED, IN ACCESS, CARRIER COMPLETE and CARRIER STOPPED.
#[derive(Clone, Copy)]
pub enum Accessing {
    NotAccessed,
    InAccess,
    Complete,
    Stopped,
}

/// The states of a carrier.
#[derive(Clone, Copy)]
pub struct CarrierRecord {
    pub id: IdState,
    pub map: MapState,
    pub access: Accessing,
}

impl IdState {
    /// The state's number: 0 ID NOT READ, 1 WAITING FOR HOST, 2 ID VERIFIED, 3 ID VERIFICATION FAILED.
    pub fn number(&self) -> u8
        ensures { result ≡ id_number self.now }
    {
        match self {
            IdState::NotRead => 0,
            IdState::WaitingForHost => 1,
            IdState::Verified => 2,
            IdState::VerificationFailed => 3,
        }
    }

    /// Whether the id waits for the host.
    pub fn is_waiting(&self) -> bool
        ensures { result ≡ is_id_waiting self.now }
    {
        matches!(self, IdState::WaitingForHost)
    }

    // Whether the verification of the id failed.
    fn is_failed(&self) -> bool
        ensures { result ≡ is_id_failed self.now }
    {
        matches!(self, IdState::VerificationFailed)
    }

    // Fires a row of table 8.
    fn fire(&mut self, row: u8) -> bool
        ensures fires { result ≡ starts id_number id_table row self.old }
        ensures after { self.new ≡ after id_number id_table row self.old }
    {
        let end = match (row, *self) {
            (2, IdState::NotRead) => IdState::Verified,
            (3, IdState::NotRead) => IdState::WaitingForHost,
            (4, IdState::WaitingForHost) => IdState::Verified,
            (5, IdState::WaitingForHost) => IdState::VerificationFailed,
            _ => return false,
        };
        *self = end;
        true
    }
}

impl MapState {
    /// The state's number: 0 NOT READ, 1 WAITING FOR HOST, 2 VERIFIED, 3 VERIFICATION FAILED.
    pub fn number(&self) -> u8
        ensures { result ≡ map_number self.now }
    {
        match self {
            MapState::NotRead => 0,
            MapState::WaitingForHost => 1,
            MapState::Verified => 2,
            MapState::VerificationFailed => 3,
        }
    }

    /// Whether the map waits for the host.
    pub fn is_waiting(&self) -> bool
        ensures { result ≡ is_map_waiting self.now }
    {
        matches!(self, MapState::WaitingForHost)
    }

    /// Whether the map is VERIFIED.
    pub fn is_verified(&self) -> bool
        ensures { result ≡ is_map_verified self.now }
    {
        matches!(self, MapState::Verified)
    }

    // Whether the verification of the map failed.
    fn is_failed(&self) -> bool
        ensures { result ≡ is_map_failed self.now }
    {
        matches!(self, MapState::VerificationFailed)
    }

    // Fires a row of table 9.
    fn fire(&mut self, row: u8) -> bool
        ensures fires { result ≡ starts map_number map_table row self.old }
        ensures after { self.new ≡ after map_number map_table row self.old }
    {
        let end = match (row, *self) {
            (1, MapState::NotRead) => MapState::Verified,
            (2, MapState::NotRead) => MapState::WaitingForHost,
            (3, MapState::WaitingForHost) => MapState::Verified,
            (4, MapState::WaitingForHost) => MapState::VerificationFailed,
            _ => return false,
        };
        *self = end;
        true
    }
}

impl Accessing {
    /// The state's number: 0 NOT ACCESSED, 1 IN ACCESS, 2 CARRIER COMPLETE, 3 CARRIER STOPPED.
    pub fn number(&self) -> u8
        ensures { result ≡ access_number self.now }
    {
        match self {
            Accessing::NotAccessed => 0,
            Accessing::InAccess => 1,
            Accessing::Complete => 2,
            Accessing::Stopped => 3,
        }
    }

    /// Whether it is NOT ACCESSED.
    pub fn is_not_accessed(&self) -> bool
        ensures { result ≡ is_not_accessed self.now }
    {
        matches!(self, Accessing::NotAccessed)
    }

    // Whether it is CARRIER COMPLETE or CARRIER STOPPED.
    fn is_done(&self) -> bool
        ensures { result ≡ is_done self.now }
    {
        matches!(self, Accessing::Complete | Accessing::Stopped)
    }

    // Fires a row of table 10.
    fn fire(&mut self, row: u8) -> bool
        ensures fires { result ≡ starts access_number accessing_table row self.old }
        ensures after { self.new ≡ after access_number accessing_table row self.old }
    {
        let end = match (row, *self) {
            (1, Accessing::NotAccessed) => Accessing::InAccess,
            (2, Accessing::InAccess) => Accessing::Complete,
            (3, Accessing::InAccess) => Accessing::Stopped,
            (4, Accessing::NotAccessed) => Accessing::Stopped,
            _ => return false,
        };
        *self = end;
        true
    }
}

impl CarrierRecord {
    /// The states of a carrier as it is created: ID NOT READ, slot map NOT READ and NOT ACCESSED (this tool's profile,
    /// tables 8 to 10).
    pub fn new() -> CarrierRecord
        ensures { result ≡ first_record }
    {
        CarrierRecord {
            id: IdState::NotRead,
            map: MapState::NotRead,
            access: Accessing::NotAccessed,
        }
    }

    /// Fires a row of table 8, 9 or 10: true exactly where the row starts at these states, of which that of the row's table
    /// is then the row's end. False changes nothing, and so do row 1 of table 8, which creates a carrier, and a row of any
    /// other table: they never start. What a row wants besides the states is for the caller.
    pub fn fire(&mut self, table: u8, row: u8) -> bool
        ensures fires { result ≡ carrier_starts table row self.old }
        ensures after { self.new ≡ carrier_fired table row self.old }
        ensures stays { carrier_starts table row self.old ≡ false → self.new ≡ self.old }
    {
        match Table::of(table) {
            Some(Table::CarrierId) => self.id.fire(row),
            Some(Table::SlotMap) => self.map.fire(row),
            Some(Table::Accessing) => self.access.fire(row),
            _ => false,
        }
    }

    /// Whether the carrier may be taken away: it is CARRIER COMPLETE or CARRIER STOPPED, or a verification of its id or map
    /// failed (this tool's profile, table 4).
    pub fn is_finished(&self) -> bool
        ensures { result ≡ is_finished self.now }
    {
        self.access.is_done() || self.id.is_failed() || self.map.is_failed()
    }
}
