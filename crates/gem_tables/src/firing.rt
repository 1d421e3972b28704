//! Rows of the tables, and their firings.

ghost use Rattle.std.specs.Prelude.{◌≡◌, ◌==◌, IsTrue};
ghost use Rattle.gem_tables.specs.Table.{firing};
ghost use Rattle.gem_tables.specs.Names.{table_number};

use crate::table::Table;

/// A row of a transition table, by the numbers of both.
#[derive(Clone, Copy, Default)]
pub struct RowId {
    pub table: u8,
    pub row: u8,
}

/// A firing: a row, at an object of its table. An object is told by a number that is its own as long as it is there: a load
/// port by the number of the port, a carrier by its number of creation. A table with one object calls it 0.
#[derive(Clone, Copy, Default)]
pub struct Firing {
    pub row: RowId,
    pub object: u64,
}

impl RowId {
    /// A row of a table.
    pub fn new(table: Table, row: u8) -> RowId
        ensures { result ≡ record { table = table_number table; row = row } }
    {
        RowId {
            table: table.number(),
            row,
        }
    }

    /// Whether it is a row of this table.
    pub fn is_of(&self, table: Table) -> bool
        ensures value { result ≡ (self.now.table == table_number table) }
        ensures same { IsTrue result → self.now.table ≡ table_number table }
    {
        self.table == table.number()
    }
}

impl Firing {
    /// A row of a table at an object.
    pub fn of(table: Table, object: u64, row: u8) -> Firing
        ensures { result ≡ firing (table_number table) object row }
    {
        Firing {
            row: RowId::new(table, row),
            object,
        }
    }

    /// A row of the table of a number at an object.
    pub fn new(table: u8, object: u64, row: u8) -> Firing
        ensures { result ≡ firing table object row }
    {
        Firing {
            row: RowId { table, row },
            object,
        }
    }
}
