//! Records in memory, sorted by key.
ghost use Rattle.std.specs.Prelude.{◌≡◌};
ghost use Rattle.record_delta.specs.Entries.{AreSorted, above, first_of};
ghost use Rattle.mem_table.specs.Places.{IsSplit};

use blsm_model::Key;
use record_delta::Rec;

// How many of the entries have no key above this one.
fn split_at(entries: &[(Key, Rec)], at: &Option<Key>) -> usize
    requires { AreSorted entries.now }
    ensures { IsSplit entries.now at.now result }
{
    match at {
        None => 0,
        Some(key) => match entries.binary_search_by(|entry| entry.0.cmp(key)) {
            Ok(place) => place + 1,
            Err(place) => place,
        },
    }
}

/// The entry of the least key above this one, or of the least key where this is `None`.
pub fn first_above(entries: &[(Key, Rec)], at: &Option<Key>) -> Option<(Key, Rec)>
    requires { AreSorted entries.now }
    ensures { result ≡ first_of (above at.now entries.now) }
{
    let (key, rec) = entries.get(split_at(entries, at))?;
    Some((key.copy(), rec.copy()))
}
