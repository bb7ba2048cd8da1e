//! What holds of the places at which a store's file isn't of the written form. The function does nothing: it stands for the laws that its
//! clauses name.
ghost use Rattle.std.specs.Prelude.{List, ℕ, Bool, IsTrue};
ghost use Rattle.blsm_model.specs.Sizes.{Sizes};
ghost use Rattle.tree_file.specs.Tree.{Tree, HoldsTree, FitsSizes};
ghost use Rattle.tree_reading.specs.declared.found.Place.{Place};
ghost use Rattle.tree_reading.specs.declared.found.Found.{Found};
ghost use Rattle.tree_reading.specs.Damage.{HasCatalogue, IsFirstDamage};
ghost use Rattle.tree_reading.specs.Reading.{GuidesTree, HoldsFound, IsFound, IsReadAs};

/// A file that holds a tree which fits its sizes has no place that isn't of the written form.
pub fn a_damage_is_no_tree()
    ensures { (sizes : Sizes) (place : Place) (tree : Tree) (file : List ℕ) → IsFirstDamage sizes place file → HoldsTree sizes tree file
        → FitsSizes sizes tree → ⊥ }
{}

/// What was found of an honest disk, with its catalogue, its components, what is named of a deep merge, and the filters and fences of these, is a
/// tree of the file that fits its sizes.
pub fn what_is_found_is_a_tree()
    ensures { (found : Found) (honest : Bool) (file : List ℕ) → IsTrue honest → IsFound found honest file
        → HasCatalogue found.geometry found.catalogue file
        → IsReadAs found.geometry found.catalogue found.space found.guides found.ahead file
        → GuidesTree found.geometry found.catalogue found.guides file → HoldsFound found file }
{}
