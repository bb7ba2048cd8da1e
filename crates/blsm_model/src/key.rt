//! Keys.
ghost use Rattle.std.specs.Prelude.{◌≡◌, ◌<◌, ◌≤◌, ◌↔◌, ◌⊎◌, length, IsNone, IfSome};
ghost use Rattle.blsm_model.specs.Format.{most_key};

use arrayvec::ArrayVec;
use std::cmp::Ordering;
use std::marker::Model;

/// A key of 1 to 64 bytes. Contracts see it as the list of its bytes. Keys are ordered bytewise.
#[derive(PartialEq, Eq, Debug, Drop)]
pub struct Key {
    bytes: ArrayVec<u8, { Key::MAX_LEN }>,
}

impl Model for Key {
    ghost use Rattle.std.specs.Prelude.{ℕ, List, ◌≤◌, length};
    ghost use Rattle.blsm_model.specs.Format.{most_key};

    ghost Value = { List ℕ };

    ghost view = { λ k. k.bytes.items };

    ghost invariant = { λ k. (1 ≤ length k.bytes.items) × (length k.bytes.items ≤ most_key) };

    ghost inverse = { λ bytes. record { bytes = record { items = bytes } } };
}

impl Ord for Key {
    ghost use Rattle.std.specs.Prelude.{refl};
    ghost use Rattle.std.specs.Cmp.{nat_cmp_total};
    ghost use Rattle.std.specs.Cmp.Lexicographic.{lists_total, texts_ties};
    ghost use Rattle.blsm_model.specs.Keys.{key_cmp};

    ghost cmp = { key_cmp };

    ghost total = { lists_total nat_cmp_total };

    ghost matches_partial_cmp = { λ _ _. refl };

    ghost matches_eq = { texts_ties };

    fn cmp(&self, other: &Key) -> Ordering {
        self.as_bytes().cmp(&other.as_bytes())
    }
}

impl PartialOrd for Key {
    ghost use Rattle.std.specs.Cmp.{nat_cmp_total, partial_order_from_total, partial_order_from_own_ties};
    ghost use Rattle.std.specs.Cmp.Lexicographic.{lists_total, texts_ties};
    ghost use Rattle.std.specs.Ordering.{as_partial_cmp};
    ghost use Rattle.blsm_model.specs.Keys.{key_cmp};

    ghost partial_cmp = { as_partial_cmp key_cmp };

    ghost laws = { partial_order_from_own_ties (partial_order_from_total (lists_total nat_cmp_total)) texts_ties };

    fn partial_cmp(&self, other: &Key) -> Option<Ordering> {
        Some(self.cmp(other))
    }
}

impl Key {
    /// How many bytes a key has at most.
    pub const MAX_LEN: usize = 64;

    /// The key of these bytes; `None` for no bytes and for more than 64.
    pub fn from_bytes(bytes: &[u8]) -> Option<Key>
        ensures none { IsNone result ↔ ((length bytes.now ≡ 0) ⊎ (most_key < length bytes.now)) }
        ensures some { IfSome result (λ key. key ≡ bytes.now) }
    {
        if bytes.is_empty() {
            return None;
        }
        match ArrayVec::try_from(bytes) {
            Ok(bytes) => Some(Key { bytes }),
            Err(_) => None,
        }
    }

    /// Its bytes, 1 to 64 of them.
    pub fn as_bytes(&self) -> &[u8]
        ensures bytes { result.now ≡ self.now }
        ensures not_empty { 1 ≤ length result.now }
        ensures fits { length result.now ≤ most_key }
    {
        self.bytes.as_slice()
    }

    /// Becomes the key of these bytes, of which there are 1 to 64. It copies them and no more, and takes no memory.
    pub fn set(&mut self, bytes: &[u8])
        requires not_empty { 1 ≤ length bytes.now }
        requires fits { length bytes.now ≤ most_key }
        ensures { self.new ≡ bytes.now }
    {
        // What is written over need not be blanked before.
        self.bytes.truncate(bytes.len());
        let (over, behind) = bytes.split_at(self.bytes.len());
        self.bytes.as_mut_slice().copy_from_slice(over);
        // A copy of no bytes is a call too, and most keys are as long as the one before.
        if behind.is_empty() {
            return;
        }
        match self.bytes.try_extend_from_slice(behind) {
            Ok(()) => {}
            Err(_) => unreachable!(),
        }
    }

    /// The same key once more. It takes no memory.
    pub fn copy(&self) -> Key
        ensures { result ≡ self.now }
    {
        let mut bytes = ArrayVec::new();
        match bytes.try_extend_from_slice(self.as_bytes()) {
            Ok(()) => Key { bytes },
            Err(_) => unreachable!(),
        }
    }
}
