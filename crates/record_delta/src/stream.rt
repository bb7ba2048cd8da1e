//! Sorted runs that are read.
ghost use Rattle.std.specs.Prelude.{◌≡◌, Option};
ghost use Rattle.blsm_model.specs.declared.key.Key.{Key};
ghost use Rattle.record_delta.specs.declared.record.Rec.{Rec};

use crate::Rec;
use blsm_model::Key;

/// A sorted run of keys and records that is read: a table from a key on, or the entries of pages. How it goes on is a method of
/// its own, which needs the run's source.
pub trait Stream {
    /// The entry at which the run stands; `None` where there is none.
    ghost at: { Self → Option (Key × Rec) };

    /// The entry at which the run stands. It takes no memory.
    fn head(&self) -> Option<(Key, Rec)>
        ensures { result ≡ at self.now };
}
