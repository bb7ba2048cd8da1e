//! Room for the rows that one call gives.
ghost use Rattle.std.specs.Prelude.{◌≡◌, ◌<◌, ◌≤◌, ◌++◌, ◌∷◌, [], length, IfOk};
ghost use Rattle.blsm_model.specs.Format.{most_rows};

use blsm_model::{Row, RowList};
use refusal::NoMemory;
use std::alloc::Global;
use std::marker::Model;

/// Room for 32 rows, some 17 kilobytes. It is reserved once and filled anew by each call that gives rows, so that these are never moved from
/// one function to another. Contracts see the rows that it has.
#[derive(Drop)]
pub struct RowRoom {
    rows: Vec<Row>,
}

impl Model for RowRoom {
    ghost use Rattle.std.specs.Prelude.{List, ◌≤◌, length, vec_capacity};
    ghost use Rattle.blsm_model.specs.declared.row.Row.{Row};
    ghost use Rattle.blsm_model.specs.Format.{most_rows};

    ghost Value = { List Row };

    ghost view = { λ r. r.rows.items };

    ghost invariant = { λ r. (length r.rows.items ≤ most_rows) × (most_rows ≤ vec_capacity r.rows) };
}

impl RowRoom {
    /// Room without a row. Where memory is refused there is none.
    pub fn reserve(alloc: Global) -> Result<RowRoom, NoMemory>
        ensures { IfOk result (λ room. room ≡ []) }
    {
        Ok(RowRoom {
            rows: Vec::with_capacity(alloc, RowList::MAX_LEN)?,
        })
    }

    // It has no row any more.
    pub(crate) fn clear(&mut self)
        ensures { self.new ≡ [] }
    {
        self.rows.clear();
    }

    // Puts a row at the end.
    pub(crate) fn push(&mut self, row: Row)
        requires { length self.old < most_rows }
        ensures { self.new ≡ self.old ++ row ∷ [] }
    {
        self.rows.push_reserved(row);
    }

    /// How many rows it has, at most 32.
    pub fn len(&self) -> u32
        ensures { result ≡ length self.now }
    {
        self.rows.len() as u32
    }

    /// Its rows, at most 32 of them.
    pub fn as_slice(&self) -> &[Row]
        ensures rows { result.now ≡ self.now }
        ensures fits { length result.now ≤ most_rows }
    {
        self.rows.as_slice()
    }
}
