//! That a file gives one reason at most not to be read. The functions do nothing: each stands for the laws that its clauses name.
ghost use Rattle.std.specs.Prelude.{◌≡◌, ◌≤◌, List, ℕ};
ghost use Rattle.blsm_model.specs.Sizes.{Sizes};
ghost use Rattle.blsm_model.specs.declared.key.Key.{Key};
ghost use Rattle.blsm_model.specs.declared.row.Value.{Value};
ghost use Rattle.store_file.specs.Layout.{IsStoreOf};
ghost use Rattle.tree_file.specs.Tree.{ReadsAsMap};
ghost use Rattle.tree_reading.specs.declared.found.Place.{Place};
ghost use Rattle.tree_reading.specs.declared.found.Unreadable.{Unreadable};
ghost use Rattle.tree_reading.specs.Damage.{IsFirstDamage, most_version};
ghost use Rattle.tree_reading.specs.First.{IsOfFile};
ghost use Rattle.tree_reading.specs.Reading.{IsWhy, IsWorn};

/// A file that reads as a map, with a version that is taken, gives no reason: only a fault or want of memory is answered.
pub fn a_map_is_read()
    ensures { (sizes : Sizes) (pairs : List (Key × Value)) (why : Unreadable) (file : List ℕ) → (reads : ReadsAsMap sizes pairs file)
        → reads.tree.catalogue.version ≤ most_version → IsOfFile why → IsWhy why file → ⊥ }
{}

/// A file that is damaged has just one first place that isn't of the written form, and then it is a store and isn't worn; it is worn by one
/// version.
pub fn one_reason()
    ensures place { (sizes : Sizes) (one other : Place) (file : List ℕ) → IsFirstDamage sizes one file → IsFirstDamage sizes other file → one ≡ other }
    ensures version { (one other : ℕ) (file : List ℕ) → IsWorn one file → IsWorn other file → one ≡ other }
    ensures not_both { (sizes : Sizes) (place : Place) (version : ℕ) (file : List ℕ) → IsFirstDamage sizes place file → IsWorn version file → ⊥ }
    ensures store { (sizes : Sizes) (place : Place) (file : List ℕ) → IsFirstDamage sizes place file → IsStoreOf sizes file }
{}
