//! What holds of spellings. The functions do nothing: each stands for the laws that its clauses name.
ghost use Rattle.std.specs.Prelude.{◌≡◌, ◌≤◌, ◌++◌, List, ℕ, length};
ghost use Rattle.blsm_model.specs.declared.key.Key.{Key};
ghost use Rattle.record_delta.specs.declared.record.Rec.{Rec};
ghost use Rattle.record_delta.specs.Records.{weight};
ghost use Rattle.entry_codec.specs.Spelling.{spelling, IsEntry, BeginsWith};

/// No spelling begins another one, and an entry has one: where two begin the same bytes, they are the same.
pub fn one_spelling()
    ensures { (a b : Key) (r s : Rec) (x y : List ℕ) → IsEntry a r → IsEntry b s → spelling a r ++ x ≡ spelling b s ++ y → (a ≡ b) × (r ≡ s) × (x ≡ y) }
{}

/// Whether an entry is at the front of bytes hangs on the bytes of its spelling alone: more bytes behind make no
/// difference.
pub fn whatever_follows()
    ensures more { (bytes more : List ℕ) (key : Key) (rec : Rec) → BeginsWith bytes key rec → BeginsWith (bytes ++ more) key rec }
    ensures fewer { (bytes more : List ℕ) (key : Key) (rec : Rec) → weight key rec ≤ length bytes → BeginsWith (bytes ++ more) key rec → BeginsWith bytes key rec }
{}
