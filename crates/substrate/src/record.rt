//! The states of a location and of a substrate (after SEMI E90, substrate location, transport and processing states;
//! tables 11 to 13).

ghost use Rattle.std.specs.Prelude.{◌≡◌, false};
ghost use Rattle.gem_tables.specs.Table.{starts, after};
ghost use Rattle.substrate.specs.Tables.{occupancy_table, occupancy_number, transport_table, transport_number, processing_table, processing_number};
ghost use Rattle.substrate.specs.Record.{first_location, first_record, location_starts, location_fired, substrate_starts, substrate_fired, is_at_source, is_needing, is_in_process, is_finished};

use gem_tables::Table;

/// The states of a location: UNOCCUPIED and OCCUPIED.
#[derive(Clone, Copy)]
pub enum Occupancy {
    Unoccupied,
    Occupied,
}

/// The transport states of a substrate: AT SOURCE, AT WORK and AT DESTINATION.
#[derive(Clone, Copy)]
pub enum Transport {
    AtSource,
    AtWork,
    AtDestination,
}

/// The processing states of a substrate: NEEDS PROCESSING, IN PROCESS, PROCESSED, ABORTED, STOPPED, REJECTED (which this tool
/// doesn't reach), LOST and SKIPPED.
#[derive(Clone, Copy)]
pub enum Processing {
    NeedsProcessing,
    InProcess,
    Processed,
    Aborted,
    Stopped,
    Rejected,
    Lost,
    Skipped,
}

/// The state of a location.
#[derive(Clone, Copy)]
pub struct LocationRecord {
    pub occupancy: Occupancy,
}

/// The states of a substrate.
#[derive(Clone, Copy)]
pub struct SubstrateRecord {
    pub transport: Transport,
    pub processing: Processing,
}

impl Occupancy {
    /// The state's number: 0 UNOCCUPIED, 1 OCCUPIED.
    pub fn number(&self) -> u8
        ensures { result ≡ occupancy_number self.now }
    {
        match self {
            Occupancy::Unoccupied => 0,
            Occupancy::Occupied => 1,
        }
    }
}

impl Transport {
    /// The state's number: 0 AT SOURCE, 1 AT WORK, 2 AT DESTINATION.
    pub fn number(&self) -> u8
        ensures { result ≡ transport_number self.now }
    {
        match self {
            Transport::AtSource => 0,
            Transport::AtWork => 1,
            Transport::AtDestination => 2,
        }
    }

    /// Whether it is AT SOURCE.
    pub fn is_at_source(&self) -> bool
        ensures { result ≡ is_at_source self.now }
    {
        matches!(self, Transport::AtSource)
    }

    // Fires a row of table 12.
    fn fire(&mut self, row: u8) -> bool
        ensures fires { result ≡ starts transport_number transport_table row self.old }
        ensures after { self.new ≡ after transport_number transport_table row self.old }
    {
        let end = match (row, *self) {
            (2, Transport::AtSource) => Transport::AtWork,
            (3, Transport::AtWork) => Transport::AtDestination,
            _ => return false,
        };
        *self = end;
        true
    }
}

impl Processing {
    /// The state's number: 0 NEEDS PROCESSING, 1 IN PROCESS, 2 PROCESSED, 3 ABORTED, 4 STOPPED, 5 REJECTED, 6 LOST, 7
    /// SKIPPED.
    pub fn number(&self) -> u8
        ensures { result ≡ processing_number self.now }
    {
        match self {
            Processing::NeedsProcessing => 0,
            Processing::InProcess => 1,
            Processing::Processed => 2,
            Processing::Aborted => 3,
            Processing::Stopped => 4,
            Processing::Rejected => 5,
            Processing::Lost => 6,
            Processing::Skipped => 7,
        }
    }

    /// Whether it is NEEDS PROCESSING.
    pub fn is_needing(&self) -> bool
        ensures { result ≡ is_needing self.now }
    {
        matches!(self, Processing::NeedsProcessing)
    }

    /// Whether it is IN PROCESS.
    pub fn is_in_process(&self) -> bool
        ensures { result ≡ is_in_process self.now }
    {
        matches!(self, Processing::InProcess)
    }

    /// Whether the substrate is finished: it is neither NEEDS PROCESSING nor IN PROCESS (this tool's profile, moves).
    pub fn is_finished(&self) -> bool
        ensures { result ≡ is_finished self.now }
    {
        !matches!(self, Processing::NeedsProcessing | Processing::InProcess)
    }

    // Fires a row of table 13.
    fn fire(&mut self, row: u8) -> bool
        ensures fires { result ≡ starts processing_number processing_table row self.old }
        ensures after { self.new ≡ after processing_number processing_table row self.old }
    {
        let end = match (row, *self) {
            (2, Processing::NeedsProcessing) => Processing::InProcess,
            (3, Processing::InProcess) => Processing::Processed,
            (4, Processing::InProcess) => Processing::Aborted,
            (5, Processing::NeedsProcessing) => Processing::Skipped,
            (6, Processing::NeedsProcessing | Processing::InProcess) => Processing::Stopped,
            (7, Processing::NeedsProcessing | Processing::InProcess) => Processing::Aborted,
            (8, Processing::Lost) => return false,
            (8, _) => Processing::Lost,
            _ => return false,
        };
        *self = end;
        true
    }
}

impl LocationRecord {
    /// A location as it begins: UNOCCUPIED (this tool's profile, table 11).
    pub fn new() -> LocationRecord
        ensures { result ≡ first_location }
    {
        LocationRecord {
            occupancy: Occupancy::Unoccupied,
        }
    }

    /// Fires a row of table 11: true exactly where the row starts at this state, which is then the row's end. False changes
    /// nothing. What a row wants besides the state is for the caller.
    pub fn fire(&mut self, row: u8) -> bool
        ensures fires { result ≡ location_starts row self.old }
        ensures after { self.new ≡ location_fired row self.old }
        ensures stays { location_starts row self.old ≡ false → self.new ≡ self.old }
    {
        let end = match (row, self.occupancy) {
            (1, Occupancy::Unoccupied) => Occupancy::Occupied,
            (2, Occupancy::Occupied) => Occupancy::Unoccupied,
            _ => return false,
        };
        self.occupancy = end;
        true
    }
}

impl SubstrateRecord {
    /// The states of a substrate as it is registered: AT SOURCE and NEEDS PROCESSING (this tool's profile, tables 12 and 13).
    pub fn new() -> SubstrateRecord
        ensures { result ≡ first_record }
    {
        SubstrateRecord {
            transport: Transport::AtSource,
            processing: Processing::NeedsProcessing,
        }
    }

    /// Fires a row of table 12 or 13: true exactly where the row starts at these states, of which that of the row's table is
    /// then the row's end. False changes nothing, and so do a row of any other table and the rows that a registration fires,
    /// which never start. What a row wants besides the states, and what it does besides, is for the caller.
    pub fn fire(&mut self, table: u8, row: u8) -> bool
        ensures fires { result ≡ substrate_starts table row self.old }
        ensures after { self.new ≡ substrate_fired table row self.old }
        ensures stays { substrate_starts table row self.old ≡ false → self.new ≡ self.old }
    {
        match Table::of(table) {
            Some(Table::Transport) => self.transport.fire(row),
            Some(Table::Processing) => self.processing.fire(row),
            _ => false,
        }
    }
}
