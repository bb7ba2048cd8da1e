//! What holds of lists that are folded. The functions do nothing: each stands for the laws that its clauses name.
ghost use Rattle.std.specs.Prelude.{◌≡◌, ℕ, [], ◌∷◌, ◌++◌, Option, Some, IsTrue};
ghost use Rattle.std.specs.FinMap.{find, is_sorted};
ghost use Rattle.blsm_model.specs.declared.key.Key.{Key};
ghost use Rattle.blsm_model.specs.Keys.{key_cmp};
ghost use Rattle.record_delta.specs.declared.record.Rec.{Rec};
ghost use Rattle.record_delta.specs.Folding.{fold};
ghost use Rattle.merge_step.specs.Group.{group_of};
ghost use Rattle.record_delta.specs.Entries.{Entries, first_of, folded_over, over_any, with_record, is_above, above, up_to};
ghost use Rattle.merge_step.specs.Merged.{IsTaken, IsPast, AreBeyond};

/// Of each key the folded list has the newer record over the older one, and it is sorted.
pub fn folds_per_key()
    ensures find { (key : Key) (newer older : Entries) → IsTrue (is_sorted key_cmp newer)
        → find key_cmp key (folded_over newer older) ≡ over_any (find key_cmp key newer) (find key_cmp key older) }
    ensures sorted { (newer older : Entries) → IsTrue (is_sorted key_cmp older) → IsTrue (is_sorted key_cmp (folded_over newer older)) }
{}

/// A record of a key above another changes nothing of what is up to that one: a table may take records ahead of a merge's cursor.
pub fn a_table_that_grows_ahead()
    ensures { (at : Option Key) (key : Key) (rec : Rec) (entries : Entries) → IsTrue (is_above at key)
        → up_to at (with_record key rec entries) ≡ up_to at entries }
{}

/// A key above all that was taken, from one list or from both, comes behind what these fold to.
pub fn a_step_of_a_merge()
    ensures newer { (newer older : Entries) (key : Key) (rec : Rec) → IsPast newer key → IsPast older key
        → folded_over (newer ++ (key, rec) ∷ []) older ≡ folded_over newer older ++ (key, rec) ∷ [] }
    ensures older { (newer older : Entries) (key : Key) (rec : Rec) → IsPast newer key
        → folded_over newer (older ++ (key, rec) ∷ []) ≡ folded_over newer older ++ (key, rec) ∷ [] }
    ensures both { (newer older : Entries) (key : Key) (rec below : Rec) → IsPast newer key → IsPast older key
        → folded_over (newer ++ (key, rec) ∷ []) (older ++ (key, below) ∷ []) ≡ folded_over newer older ++ (key, fold rec below) ∷ [] }
{}

/// Where a list's first entry above a key is taken, those behind it are left. A key that the list doesn't have takes nothing of it.
pub fn a_list_is_taken()
    ensures first { (at : Option Key) (entries more : Entries) (e : Key × Rec) → IsTrue (is_sorted key_cmp entries) → above at entries ≡ e ∷ more
        → (above (Some e.0) entries ≡ more) × (up_to (Some e.0) entries ≡ up_to at entries ++ e ∷ []) }
    ensures passed { (at : Option Key) (entries : Entries) (key : Key) → IsTrue (is_above at key) → AreBeyond key (above at entries)
        → (above (Some key) entries ≡ above at entries) × (up_to (Some key) entries ≡ up_to at entries) }
{}

/// The least group of what two lists have above a key is the next entry of what they fold to, and its weight is what they have less above
/// it.
pub fn a_merge_goes_on()
    ensures { (at : Option Key) (newer older : Entries) (key : Key) (rec : Rec) (taken : ℕ) → IsTrue (is_sorted key_cmp newer) → IsTrue (is_sorted key_cmp older)
        → group_of (first_of (above at newer)) (first_of (above at older)) ≡ Some (key, rec, taken) → IsTaken at newer older key rec taken }
{}
