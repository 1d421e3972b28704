//! The rows of the transition tables that have events, and their CEIDs.

ghost use Rattle.std.specs.Prelude.{◌≡◌, IfOk};
ghost use Rattle.gem_rows.specs.Events.{ceid_of, ceids, has_event, is_ceid, row_of};

use gem_ids::Ids;
use gem_tables::{RowId, Table};
use std::alloc::{AllocError, Global};

// The CEIDs, table by table.
const CEIDS: [u32; 86] = [
    201, 202, 203, 204, 205, 206, 207, 208, 209, 210, 211, // control
    301, 309, // spool
    401, 402, 403, 404, 405, // port transfer
    501, 502, // port access
    601, 602, 603, // port reservation
    701, 702, 703, 704, 705, 706, 707, // port association
    801, 802, 803, 804, 805, // carrier id
    901, 902, 903, 904, // slot map
    1001, 1002, 1003, 1004, // carrier accessing
    1101, 1102, // location
    1201, 1202, 1203, // substrate transport
    1301, 1302, 1303, 1304, 1305, 1306, 1307, 1308, // substrate processing
    1401, 1402, 1403, 1404, 1405, 1406, 1407, 1408, 1409, 1410, 1411, 1412, 1413, 1414, 1415, 1416,
    1417, 1418, // process job
    1501, 1502, 1503, 1504, 1505, 1506, 1507, 1508, 1509, 1510, 1511, 1512, // control job
];

/// The CEID of a row's event: 100 times its table plus its row. `None` exactly where the row has no event: all rows of
/// tables 2 to 15 have one, but of table 3 rows 1 and 9 alone (this tool's profile, transition tables).
pub fn ceid_of(r: RowId) -> Option<u32>
    ensures { result ≡ ceid_of r.table r.row }
{
    if has_event(u32::from(r.table), u32::from(r.row)) {
        Some(100 * u32::from(r.table) + u32::from(r.row))
    } else {
        None
    }
}

/// The row whose event has the CEID. `None` exactly where the number is no CEID.
pub fn row_of(ceid: u32) -> Option<RowId>
    ensures { result ≡ row_of ceid }
{
    if is_ceid(ceid) {
        Some(RowId {
            table: (ceid / 100) as u8,
            row: (ceid % 100) as u8,
        })
    } else {
        None
    }
}

/// Whether the number is a CEID.
pub fn is_ceid(ceid: u32) -> bool
    ensures { result ≡ is_ceid ceid }
{
    has_event(ceid / 100, ceid % 100)
}

/// All CEIDs, rising. On want of memory there is no list.
pub fn ceids(alloc: Global) -> Result<Ids, AllocError>
    ensures { IfOk result (λ ids. ids ≡ ceids) }
{
    Ok(Ids::from_vec(Vec::from_slice(alloc, &CEIDS)?))
}

// Whether a row of a table has an event.
fn has_event(table: u32, row: u32) -> bool
    ensures { result ≡ has_event table row }
{
    if table > 16 {
        return false;
    }
    match Table::of(table as u8) {
        Some(Table::Control) => 1 <= row && row <= 11,
        Some(Table::Line) => row == 1 || row == 9,
        Some(Table::Transfer | Table::CarrierId) => 1 <= row && row <= 5,
        Some(Table::Access | Table::Location) => 1 <= row && row <= 2,
        Some(Table::Reservation | Table::Transport) => 1 <= row && row <= 3,
        Some(Table::Association) => 1 <= row && row <= 7,
        Some(Table::SlotMap | Table::Accessing) => 1 <= row && row <= 4,
        Some(Table::Processing) => 1 <= row && row <= 8,
        Some(Table::ProcessJob) => 1 <= row && row <= 18,
        Some(Table::ControlJob) => 1 <= row && row <= 12,
        _ => false,
    }
}
