//! How many keys a search compared, counted at no cost.
ghost use Rattle.std.specs.Prelude.{◌≡◌, ◌+◌, ◌<◌, length};
ghost use Rattle.blsm_model.specs.Keys.{key_cmp};
ghost use Rattle.mem_table.specs.Ways.{entry_at};

use blsm_model::Key;
use entry_store::Store;
use std::cmp::Ordering;
use std::marker::Model;
use std::sync::ledger::{Blank, Book, Ledger, Share};

/// How many times two keys were compared. It takes no bytes.
#[derive(Drop)]
pub struct Steps<L: Ledger> {
    book: Book<L>,
    share: Share<L>,
}

impl<L: Ledger> Model for Steps<L> {
    ghost use Rattle.std.specs.Prelude.{ℕ, ◌<◌};

    ghost Value = { ℕ };

    ghost view = { λ s. s.book.total };

    ghost invariant = { λ s. 0 < s.share.parts };
}

impl<L: Ledger> Steps<L> {
    /// No step yet.
    pub fn none(blank: Blank) -> Steps<L>
        requires name { blank.name ≡ L.name }
        requires parts { blank.parts ≡ L.parts }
        requires some { 0 < L.parts }
        ensures { result ≡ 0 }
    {
        let (book, share) = blank.open();
        Steps { book, share }
    }

    // Compares a key with the one at a place, which is a step.
    pub(crate) fn compare(&mut self, key: &Key, store: &Store, place: u32) -> Ordering
        requires { place < length store.now.slots }
        ensures step { self.new ≡ self.old + 1 }
        ensures order { result ≡ key_cmp key.now (entry_at store.now.slots place).0 }
    {
        self.book.add(&mut self.share, 1);
        store.compare(key, place)
    }
}
