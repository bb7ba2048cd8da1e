//! Copies of the memory table's records of a range.
ghost use Rattle.std.specs.Prelude.{◌≡◌, ◌++◌, ◌∷◌, [], IfOk, OnOk};
ghost use Rattle.record_delta.specs.Entries.{folded_over};
ghost use Rattle.scan_view.specs.Hold.{within};

use crate::gather::is_in_range;
use crate::least::least;
use blsm_model::Key;
use mem_table::Table;
use record_delta::Rec;
use refusal::NoMemory;
use std::alloc::Global;

/// The same key once more, if there is one.
pub fn copy_of(key: &Option<Key>) -> Option<Key>
    ensures { result ≡ key.now }
{
    match key {
        Some(key) => Some(key.copy()),
        None => None,
    }
}

// Puts a copy of an entry behind the others, where its key is in the range.
fn push_within(
    copies: &mut Vec<(Key, Rec)>,
    low: &Key,
    high: &Key,
    key: &Key,
    rec: Rec,
) -> Result<(), NoMemory>
    ensures { OnOk result (copies.new.items ≡ copies.old.items ++ within low.now high.now ((key.now, rec) ∷ [])) }
{
    if is_in_range(low, high, key) {
        copies.push((key.copy(), rec))?;
    }
    Ok(())
}

/// The records of a range, those of table B folded over those of table A. `NoMemory` where memory is refused.
pub fn copy_range(
    alloc: Global,
    low: &Key,
    high: &Key,
    a: &Table,
    b: &Table,
) -> Result<Vec<(Key, Rec)>, NoMemory>
    ensures { IfOk result (λ copies. copies.items ≡ within low.now high.now (folded_over b.now.entries a.now.entries)) }
{
    // Tables are sorted.
    let _weights = (a.weight(), b.weight());
    let mut copies = Vec::new(alloc);
    let mut at = None;
    while let Some((key, rec)) = least(b.least_above(copy_of(&at)), a.least_above(copy_of(&at))) {
        if !(key < *high) {
            return Ok(copies);
        }
        push_within(&mut copies, low, high, &key, rec)?;
        at = Some(key);
    }
    Ok(copies)
}
