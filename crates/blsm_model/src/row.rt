//! Values, and rows of a key and its value.
ghost use Rattle.std.specs.Prelude.{◌≡◌, ◌<◌, ◌≤◌, ◌++◌, ◌∷◌, [], length};
ghost use Rattle.blsm_model.specs.Format.{most_rows};
ghost use Rattle.blsm_model.specs.Rows.{unused_row};

use crate::{Key, Text};
use arrayvec::ArrayVec;
use std::default::MadeWith;
use std::marker::Model;

/// What a present key has: a count and a text. Sums of counts are modulo 2^64.
#[derive(PartialEq, Eq, Debug, Drop)]
pub struct Value {
    /// What adds change, and a put sets.
    pub count: u64,
    /// What a put sets; empty where there was none.
    pub text: Text,
}

impl Value {
    /// The same value once more. It takes no memory.
    pub fn copy(&self) -> Value
        ensures { result ≡ self.now }
    {
        let mut value = Value {
            count: self.count,
            text: Text::empty(),
        };
        // Its text is copied to where it stays.
        value.text.set(self.text.as_bytes());
        value
    }
}

/// A key and its value.
#[derive(PartialEq, Eq, Debug, Drop)]
pub struct Row {
    /// The key, which the rows of a list rise by.
    pub key: Key,
    /// What the key had when the rows were held.
    pub value: Value,
}

impl Row {
    /// The same row once more. It takes no memory.
    pub fn copy(&self) -> Row
        ensures { result ≡ self.now }
    {
        Row {
            key: self.key.copy(),
            value: self.value.copy(),
        }
    }
}

// What an unused place of a row list holds.
impl MadeWith<()> for Row {
    ghost is_made_with = { λ row. row ≡ unused_row };

    fn made_with(_alloc: ()) -> Row {
        match Key::from_bytes(b"-") {
            Some(key) => Row {
                key,
                value: Value {
                    count: 0,
                    text: Text::empty(),
                },
            },
            None => unreachable!(),
        }
    }
}

/// At most 32 rows, some 17 kilobytes that lie in the value itself. Contracts see it as the list of its rows.
#[derive(PartialEq, Eq, Debug, Drop)]
pub struct RowList {
    rows: ArrayVec<Row, { RowList::MAX_LEN }>,
}

impl Model for RowList {
    ghost use Rattle.std.specs.Prelude.{List, ◌≤◌, length};
    ghost use Rattle.blsm_model.specs.declared.row.Row.{Row};
    ghost use Rattle.blsm_model.specs.Format.{most_rows};

    ghost Value = { List Row };

    ghost view = { λ r. r.rows.items };

    ghost invariant = { λ r. length r.rows.items ≤ most_rows };

    ghost inverse = { λ rows. record { rows = record { items = rows } } };
}

impl RowList {
    /// How many rows a list has at most.
    pub const MAX_LEN: usize = 32;

    /// The list with no row.
    pub fn new() -> RowList
        ensures { result ≡ [] }
    {
        RowList {
            rows: ArrayVec::new_in(()),
        }
    }

    /// A list of copies of these rows. It takes no memory.
    pub fn from_slice(rows: &[Row]) -> RowList
        requires { length rows.now ≤ most_rows }
        ensures { result ≡ rows.now }
    {
        let mut list = RowList::new();
        for row in rows {
            list.push(row.copy());
        }
        list
    }

    /// Puts a row at the end.
    pub fn push(&mut self, row: Row)
        requires { length self.old < most_rows }
        ensures { self.new ≡ self.old ++ row ∷ [] }
    {
        self.rows.push(row);
    }

    /// Its rows, at most 32 of them.
    pub fn as_slice(&self) -> &[Row]
        ensures rows { result.now ≡ self.now }
        ensures fits { length result.now ≤ most_rows }
    {
        self.rows.as_slice()
    }

    /// The same rows once more. It takes no memory.
    pub fn copy(&self) -> RowList
        ensures { result ≡ self.now }
    {
        RowList::from_slice(self.as_slice())
    }
}
