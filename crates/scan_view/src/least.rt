//! The least entry of two runs, folded.
ghost use Rattle.std.specs.Prelude.{◌≡◌, Option};
ghost use Rattle.blsm_model.specs.declared.key.Key.{Key};
ghost use Rattle.record_delta.specs.Entries.{Entries, AreSorted, first_of, above, folded_over};
ghost use Rattle.merge_step.specs.Group.{group_of};
ghost use Rattle.scan_view.specs.Left.{IsAheadOf, IsFromOne, entry_of};

use blsm_model::Key;
use merge_step::least_group;
use record_delta::{Rec, Stream};

// A run of which only the entry at which it stands is known.
#[derive(Drop)]
struct Head {
    entry: Option<(Key, Rec)>,
}

impl Stream for Head {
    ghost at = { λ head. head.entry };

    fn head(&self) -> Option<(Key, Rec)> {
        match &self.entry {
            Some((key, rec)) => Some((key.copy(), rec.copy())),
            None => None,
        }
    }
}

/// The entry of the lesser key; where both have one key, it has the newer record folded over the older one.
pub fn least(newer: Option<(Key, Rec)>, older: Option<(Key, Rec)>) -> Option<(Key, Rec)>
    ensures entry { result ≡ entry_of (group_of newer older) }
    // Where they are the first ones of two lists above a key, it is the first one of the lists folded.
    ensures first { (at : Option Key) (xs ys : Entries) → AreSorted xs → AreSorted ys → newer ≡ first_of (above at xs) → older ≡ first_of (above at ys)
        → result ≡ first_of (above at (folded_over xs ys)) }
    ensures from_one { IsFromOne newer older result }
    ensures ahead { (at : Option Key) → IsAheadOf at newer → IsAheadOf at older → IsAheadOf at result }
{
    let (key, rec, _) = least_group(&Head { entry: newer }, &Head { entry: older })?;
    Some((key, rec))
}
