//! What holds of the trees of files. The functions do nothing: each stands for the laws that its clauses name.
ghost use Rattle.std.specs.Prelude.{◌≡◌, ◌↔◌, ◌+◌, ◌<◌, [], ℕ, List};
ghost use Rattle.std.specs.List.{Contains};
ghost use Rattle.disk_trait.specs.Region.{IsSameOutside};
ghost use Rattle.blsm_model.specs.Sizes.{Sizes};
ghost use Rattle.blsm_model.specs.Geometry.{page_count};
ghost use Rattle.blsm_model.specs.Lanes.{a_of, b_of};
ghost use Rattle.blsm_model.specs.declared.key.Key.{Key};
ghost use Rattle.blsm_model.specs.declared.row.Value.{Value};
ghost use Rattle.record_delta.specs.Entries.{AreSorted, Entries, entries_weight};
ghost use Rattle.page_file.specs.File.{pages_region};
ghost use Rattle.page_file.specs.Component.{numbers_of};
ghost use Rattle.gated_log.specs.Lane.{lane_region, with_more, HasEntries};
ghost use Rattle.store_file.specs.Layout.{IsMade};
ghost use Rattle.tree_machine.specs.Layers.{AreLight};
ghost use Rattle.tree_file.specs.Tree.{Tree, HoldsTree, FitsSizes, ReadsAsMap, components_weight, first_tree, lists_of, live_pages, map_of_tree};
ghost use Rattle.tree_file.specs.Places.{appended_a, appended_b};

/// A file holds one tree at most, and reads as one map: it does so exactly where its tree fits.
pub fn one_tree()
    ensures sizes { (a b : Sizes) (one other : Tree) (file : List ℕ) → HoldsTree a one file → HoldsTree b other file → a ≡ b }
    ensures same { (sizes : Sizes) (one other : Tree) (file : List ℕ) → HoldsTree sizes one file → HoldsTree sizes other file → one ≡ other }
    ensures map { (a b : Sizes) (one other : List (Key × Value)) (file : List ℕ) → ReadsAsMap a one file → ReadsAsMap b other file → one ≡ other }
    ensures reads { (sizes : Sizes) (tree : Tree) (pairs : List (Key × Value)) (file : List ℕ) → HoldsTree sizes tree file
        → ReadsAsMap sizes pairs file ↔ (FitsSizes sizes tree × (map_of_tree tree ≡ pairs)) }
{}

/// The file of a store that was just made holds the empty tree, which reads as the empty map.
pub fn a_first_tree()
    ensures holds { (sizes : Sizes) (file : List ℕ) → IsMade sizes file → HoldsTree sizes first_tree file }
    ensures map { (sizes : Sizes) (file : List ℕ) → IsMade sizes file → ReadsAsMap sizes [] file }
{}

/// The lists of a tree that a file holds are sorted, none of their records is heavier than an entry may be, and the components weigh what
/// the catalogue says.
pub fn a_tree_has_lists()
    ensures sorted { (sizes : Sizes) (tree : Tree) (file : List ℕ) → HoldsTree sizes tree file
        → AreSorted (lists_of tree).b × AreSorted (lists_of tree).a × AreSorted (lists_of tree).c1 × AreSorted (lists_of tree).c1x × AreSorted (lists_of tree).c2 }
    ensures light { (sizes : Sizes) (tree : Tree) (file : List ℕ) → HoldsTree sizes tree file
        → AreLight (lists_of tree).b × AreLight (lists_of tree).a × AreLight (lists_of tree).c1 × AreLight (lists_of tree).c1x × AreLight (lists_of tree).c2 }
    ensures weights { (sizes : Sizes) (tree : Tree) (file : List ℕ) → HoldsTree sizes tree file
        → (entries_weight (lists_of tree).c1 ≡ tree.catalogue.c1.weight) × (entries_weight (lists_of tree).c1x ≡ tree.catalogue.c1x.weight)
        × (entries_weight (lists_of tree).c2 ≡ tree.catalogue.c2.weight) }
    ensures whole { (sizes : Sizes) (tree : Tree) (file : List ℕ) → HoldsTree sizes tree file
        → components_weight tree ≡ tree.catalogue.c1.weight + tree.catalogue.c1x.weight + tree.catalogue.c2.weight }
{}

/// A tree stays in a file where bytes change beside it alone. Where those of one lane change and it has other entries then, the tree has these.
pub fn a_tree_stays()
    ensures pages { (sizes : Sizes) (tree : Tree) (numbers : List ℕ) (old new : List ℕ) → HoldsTree sizes tree old
        → ((n : ℕ) → Contains numbers n → Contains (live_pages tree) n → ⊥) → ((n : ℕ) → Contains numbers n → Contains (numbers_of tree.output) n → ⊥)
        → ((n : ℕ) → Contains numbers n → n < page_count sizes)
        → IsSameOutside (pages_region sizes numbers) old new → HoldsTree sizes tree new }
    ensures lane_a { (sizes : Sizes) (tree : Tree) (more : Entries) (old new : List ℕ) → HoldsTree sizes tree old
        → IsSameOutside (lane_region sizes (a_of tree.catalogue.lanes)) old new
        → HasEntries sizes (a_of tree.catalogue.lanes) (with_more tree.lane_a more) new
        → HoldsTree sizes (appended_a more tree) new }
    ensures lane_b { (sizes : Sizes) (tree : Tree) (more : Entries) (old new : List ℕ) → HoldsTree sizes tree old
        → IsSameOutside (lane_region sizes (b_of tree.catalogue.lanes)) old new
        → HasEntries sizes (b_of tree.catalogue.lanes) (with_more tree.lane_b more) new
        → HoldsTree sizes (appended_b more tree) new }
{}
