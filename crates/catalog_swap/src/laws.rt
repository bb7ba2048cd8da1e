//! What holds of catalogues. The functions do nothing: each stands for the laws that its clauses name.
ghost use Rattle.std.specs.Prelude.{◌≡◌, ◌⊎◌, ◌≤◌, ℕ, List, None, length, replicate};
ghost use Rattle.disk_trait.specs.Disk.{part};
ghost use Rattle.blsm_model.specs.Sizes.{Sizes};
ghost use Rattle.catalog_swap.specs.declared.catalog.Catalog.{Catalog};
ghost use Rattle.catalog_swap.specs.Text.{FitsBody, BeginsWith, body_text, slot_text, body_length, first_catalog};
ghost use Rattle.catalog_swap.specs.Slots.{odd_slot, even_slot, plain_length, IsNewest, IsDamagedSlots, AreSameSlots};

/// Each file has one newest catalogue, or its slots are damaged, and never both. Where the slots read the same, so is the newest
/// catalogue.
pub fn one_newest()
    ensures same { (sizes : Sizes) (one other : Catalog) (file : List ℕ) → IsNewest sizes one file → IsNewest sizes other file
        → one ≡ other }
    ensures not_damaged { (sizes : Sizes) (catalog : Catalog) (file : List ℕ) → IsNewest sizes catalog file
        → IsDamagedSlots sizes file → ⊥ }
    ensures kept { (sizes : Sizes) (now : Catalog) (old new : List ℕ) → AreSameSlots old new → IsNewest sizes now old
        → IsNewest sizes now new }
    ensures some { (sizes : Sizes) (file : List ℕ) → ((catalog : Catalog) × IsNewest sizes catalog file) ⊎ IsDamagedSlots sizes file }
{}

/// A catalogue has one body, of 186 bytes at most, and of 84 where it names no progress. A body is of one catalogue at most, and bytes
/// begin with that of one at most.
pub fn one_body()
    ensures same { (one other : Catalog) → FitsBody one → FitsBody other → body_text one ≡ body_text other → one ≡ other }
    ensures front { (one other : Catalog) (bytes : List ℕ) → FitsBody one → FitsBody other → BeginsWith bytes one → BeginsWith bytes other → one ≡ other }
    ensures long { (catalog : Catalog) → FitsBody catalog → length (body_text catalog) ≤ body_length }
    ensures plain { (catalog : Catalog) → FitsBody catalog → catalog.progress ≡ None → length (slot_text catalog) ≡ plain_length }
{}

/// The newest catalogue of a store that was just made.
pub fn first_newest()
    ensures { (sizes : Sizes) (file : List ℕ) → part file odd_slot plain_length ≡ slot_text first_catalog
        → part file even_slot plain_length ≡ replicate plain_length 0 → IsNewest sizes first_catalog file }
{}
