//! The states of a load port (after SEMI E87, load port states; tables 4 to 7).

ghost use Rattle.std.specs.Prelude.{◌≡◌, false};
ghost use Rattle.gem_tables.specs.Table.{starts, after};
ghost use Rattle.load_port.specs.Tables.{transfer_table, transfer_number, access_table, access_number, reservation_table, reservation_number, association_table, association_number};
ghost use Rattle.load_port.specs.Record.{first_record, port_starts, port_fired, is_occupied, is_in_service, is_reserved};

use gem_tables::Table;

/// The transfer states: OUT OF SERVICE, TRANSFER BLOCKED, READY TO LOAD and READY TO UNLOAD.
#[derive(Clone, Copy)]
pub enum Transfer {
    OutOfService,
    TransferBlocked,
    ReadyToLoad,
    ReadyToUnload,
}

/// The access modes: MANUAL and AUTO.
#[derive(Clone, Copy)]
pub enum Access {
    Manual,
    Auto,
}

/// The reservation states: NOT RESERVED and RESERVED.
#[derive(Clone, Copy)]
pub enum Reservation {
    NotReserved,
    Reserved,
}

/// The association states: NOT ASSOCIATED and ASSOCIATED.
#[derive(Clone, Copy)]
pub enum Association {
    NotAssociated,
    Associated,
}

/// The states of a port.
#[derive(Clone, Copy)]
pub struct PortRecord {
    pub transfer: Transfer,
    pub access: Access,
    pub reservation: Reservation,
    pub association: Association,
}

impl Transfer {
    /// The state's number, as variables print it: 0 OUT OF SERVICE, 1 TRANSFER BLOCKED, 2 READY TO LOAD, 3 READY TO UNLOAD.
    pub fn number(&self) -> u8
        ensures { result ≡ transfer_number self.now }
    {
        match self {
            Transfer::OutOfService => 0,
            Transfer::TransferBlocked => 1,
            Transfer::ReadyToLoad => 2,
            Transfer::ReadyToUnload => 3,
        }
    }

    /// Whether a carrier is present at the port: it is TRANSFER BLOCKED or READY TO UNLOAD (SEMI E87, load port transfer
    /// states).
    pub fn is_occupied(&self) -> bool
        ensures { result ≡ is_occupied self.now }
    {
        matches!(self, Transfer::TransferBlocked | Transfer::ReadyToUnload)
    }

    /// Whether the port is in service: in every state but OUT OF SERVICE (SEMI E87, load port transfer states).
    pub fn is_in_service(&self) -> bool
        ensures { result ≡ is_in_service self.now }
    {
        !matches!(self, Transfer::OutOfService)
    }

    // Fires a row of table 4.
    fn fire(&mut self, row: u8) -> bool
        ensures fires { result ≡ starts transfer_number transfer_table row self.old }
        ensures after { self.new ≡ after transfer_number transfer_table row self.old }
    {
        let end = match (row, *self) {
            (1, Transfer::OutOfService) => Transfer::ReadyToLoad,
            (2, Transfer::ReadyToLoad) => Transfer::OutOfService,
            (3, Transfer::ReadyToLoad) => Transfer::TransferBlocked,
            (4, Transfer::TransferBlocked) => Transfer::ReadyToUnload,
            (5, Transfer::ReadyToUnload) => Transfer::ReadyToLoad,
            _ => return false,
        };
        *self = end;
        true
    }
}

impl Access {
    /// The state's number, as variables print it: 0 MANUAL, 1 AUTO.
    pub fn number(&self) -> u8
        ensures { result ≡ access_number self.now }
    {
        match self {
            Access::Manual => 0,
            Access::Auto => 1,
        }
    }

    // Fires a row of table 5.
    fn fire(&mut self, row: u8) -> bool
        ensures fires { result ≡ starts access_number access_table row self.old }
        ensures after { self.new ≡ after access_number access_table row self.old }
    {
        let end = match (row, *self) {
            (1, Access::Manual) => Access::Auto,
            (2, Access::Auto) => Access::Manual,
            _ => return false,
        };
        *self = end;
        true
    }
}

impl Reservation {
    /// The state's number: 0 NOT RESERVED, 1 RESERVED.
    pub fn number(&self) -> u8
        ensures { result ≡ reservation_number self.now }
    {
        match self {
            Reservation::NotReserved => 0,
            Reservation::Reserved => 1,
        }
    }

    /// Whether a carrier is expected at the port: it is RESERVED (SEMI E87, load port reservation states).
    pub fn is_reserved(&self) -> bool
        ensures { result ≡ is_reserved self.now }
    {
        matches!(self, Reservation::Reserved)
    }

    // Fires a row of table 6.
    fn fire(&mut self, row: u8) -> bool
        ensures fires { result ≡ starts reservation_number reservation_table row self.old }
        ensures after { self.new ≡ after reservation_number reservation_table row self.old }
    {
        let end = match (row, *self) {
            (1, Reservation::NotReserved) => Reservation::Reserved,
            (2 | 3, Reservation::Reserved) => Reservation::NotReserved,
            _ => return false,
        };
        *self = end;
        true
    }
}

impl Association {
    /// The state's number: 0 NOT ASSOCIATED, 1 ASSOCIATED.
    pub fn number(&self) -> u8
        ensures { result ≡ association_number self.now }
    {
        match self {
            Association::NotAssociated => 0,
            Association::Associated => 1,
        }
    }

    // Fires a row of table 7.
    fn fire(&mut self, row: u8) -> bool
        ensures fires { result ≡ starts association_number association_table row self.old }
        ensures after { self.new ≡ after association_number association_table row self.old }
    {
        let end = match (row, *self) {
            (1 | 3, Association::NotAssociated) => Association::Associated,
            (4 | 5, Association::Associated) => Association::Associated,
            (2 | 6 | 7, Association::Associated) => Association::NotAssociated,
            _ => return false,
        };
        *self = end;
        true
    }
}

impl PortRecord {
    /// The states of a port as it begins: READY TO LOAD, MANUAL, NOT RESERVED and NOT ASSOCIATED (this tool's profile,
    /// tables 4 to 7).
    pub fn new() -> PortRecord
        ensures { result ≡ first_record }
    {
        PortRecord {
            transfer: Transfer::ReadyToLoad,
            access: Access::Manual,
            reservation: Reservation::NotReserved,
            association: Association::NotAssociated,
        }
    }

    /// Fires a row of table 4, 5, 6 or 7: true exactly where the row starts at these states, of which that of the row's
    /// table is then the row's end. False changes nothing, and so does a row of any other table, which never starts. What
    /// a row wants besides the states, and what it does besides, is for the caller.
    pub fn fire(&mut self, table: u8, row: u8) -> bool
        ensures fires { result ≡ port_starts table row self.old }
        ensures after { self.new ≡ port_fired table row self.old }
        ensures stays { port_starts table row self.old ≡ false → self.new ≡ self.old }
    {
        match Table::of(table) {
            Some(Table::Transfer) => self.transfer.fire(row),
            Some(Table::Access) => self.access.fire(row),
            Some(Table::Reservation) => self.reservation.fire(row),
            Some(Table::Association) => self.association.fire(row),
            _ => false,
        }
    }
}
