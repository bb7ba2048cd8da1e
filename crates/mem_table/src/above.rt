//! A table that is read from a key on.
use crate::Table;
use blsm_model::Key;
use record_delta::{Rec, Stream};

/// The entries of a table above a key, or all of them where this is `None`, as a sorted run. It stands at the first of them.
#[derive(Drop)]
pub struct Above<'a> {
    /// The table.
    pub table: &'a Table,
    /// The key that all of the run's keys are above.
    pub key: Option<Key>,
}

impl Stream for Above<'_> {
    ghost use Rattle.record_delta.specs.Entries.{above, first_of};

    ghost at = { λ run. first_of (above run.key run.table.now.entries) };

    fn head(&self) -> Option<(Key, Rec)> {
        let key = match &self.key {
            Some(key) => Some(key.copy()),
            None => None,
        };
        self.table.least_above(key)
    }
}
