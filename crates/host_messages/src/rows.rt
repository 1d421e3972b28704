//! The direct rows that a message leaves to fire.
ghost use Rattle.std.specs.Prelude.{◌≡◌, ◌++◌, [], IfOk, option_to_list};

use gem_tables::Firing;
use std::alloc::{AllocError, Global};
use std::marker::Model;

/// Rows that are still to fire, in their order, which contracts see as the list of them. The first takes no memory: most messages have
/// one at most.
#[derive(Drop)]
pub struct Rows {
    first: Option<Firing>,
    more: Vec<Firing>,
}

impl Model for Rows {
    ghost use Rattle.std.specs.Prelude.{List, ◌++◌, option_to_list};
    ghost use Rattle.gem_tables.specs.declared.firing.Firing.{Firing};

    ghost Value = { List Firing };

    ghost view = { λ r. option_to_list r.first ++ r.more.items };
}

impl Rows {
    /// No row. Takes no memory.
    pub fn none(alloc: Global) -> Rows
        ensures { result ≡ [] }
    {
        Rows {
            first: None,
            more: Vec::new(alloc),
        }
    }

    /// The row that there is, or none. Takes no memory.
    pub fn one(alloc: Global, row: Option<Firing>) -> Rows
        ensures { result ≡ option_to_list row }
    {
        Rows {
            first: row,
            more: Vec::new(alloc),
        }
    }

    /// These rows. `AllocError`: there is no memory for those behind the first.
    pub fn of(alloc: Global, rows: &[Firing]) -> Result<Rows, AllocError>
        ensures { IfOk result (λ all. all ≡ rows.now) }
    {
        match rows {
            [first, more @ ..] => Ok(Rows {
                first: Some(*first),
                more: Vec::from_slice(alloc, more)?,
            }),
            [] => Ok(Rows::none(alloc)),
        }
    }

    /// The rows of a vector. Takes no memory.
    pub fn from_vec(rows: Vec<Firing>) -> Rows
        ensures { result ≡ rows.items }
    {
        Rows {
            first: None,
            more: rows,
        }
    }

    /// One row at most, and those behind it.
    pub fn parts(&self) -> (Option<Firing>, &[Firing])
        ensures { option_to_list result.0 ++ result.1.now ≡ self.now }
    {
        (self.first, self.more.as_slice())
    }
}
