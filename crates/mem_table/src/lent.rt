//! An entry of a table, where it lies.
ghost use Rattle.std.specs.Prelude.{◌≡◌, ◌<◌, length};
ghost use Rattle.blsm_model.specs.Keys.{key_cmp};
ghost use Rattle.entry_store.specs.Stores.{HasEntry};
ghost use Rattle.mem_table.specs.Ways.{entry_at};

use blsm_model::Key;
use entry_store::Store;
use record_delta::Rec;
use std::cmp::Ordering;
use std::marker::Model;

/// An entry of a table, where it lies. To compare its key moves no bytes. Contracts see the key and the record.
#[derive(Drop)]
pub struct LentEntry<'a> {
    store: &'a Store,
    place: u32,
}

impl<'a> Model for LentEntry<'a> {
    ghost use Rattle.std.specs.Prelude.{◌<◌, length};
    ghost use Rattle.blsm_model.specs.declared.key.Key.{Key};
    ghost use Rattle.record_delta.specs.declared.record.Rec.{Rec};
    ghost use Rattle.entry_store.specs.Stores.{HasEntry};
    ghost use Rattle.mem_table.specs.Ways.{entry_at};

    ghost Value = { Key × Rec };

    ghost view = { λ e. entry_at e.store.now.slots e.place };

    ghost invariant = { λ e. (e.place < length e.store.now.slots) × HasEntry e.store.now.slots e.place };
}

impl<'a> LentEntry<'a> {
    // The entry at a place.
    pub(crate) fn at(store: &'a Store, place: u32) -> LentEntry<'a>
        requires place { place < length store.now.slots }
        requires entry { HasEntry store.now.slots place }
        ensures { result ≡ entry_at store.now.slots place }
    {
        LentEntry { store, place }
    }

    /// How a key stands to the entry's.
    pub fn compare(&self, key: &Key) -> Ordering
        ensures { result ≡ key_cmp key.now self.now.0 }
    {
        self.store.compare(key, self.place)
    }

    /// Makes a key and a record those of the entry. Where the record is of the entry's kind, the bytes of both are copied, and nothing is
    /// blanked for them before.
    pub fn read_over(&self, key: &mut Key, rec: &mut Rec)
        ensures { (key.new, rec.new) ≡ self.now }
    {
        self.store.read_over(self.place, key, rec);
    }

    /// The entry as a value of its own. It takes no memory.
    pub fn copy(&self) -> (Key, Rec)
        ensures { result ≡ self.now }
    {
        self.store.entry(self.place)
    }
}
