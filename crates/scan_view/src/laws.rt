//! What holds of holds, while merges and the log write too. The functions do nothing: each stands for the laws that its clauses name.
ghost use Rattle.std.specs.Prelude.{◌≡◌, ◌≢◌, ◌+◌, ◌≤◌, ℕ, Bool, List, Option};
ghost use Rattle.disk_trait.specs.Region.{IsSameOutside, IsWithin as IsInside, span};
ghost use Rattle.blsm_model.specs.declared.component.Component.{Component};
ghost use Rattle.blsm_model.specs.declared.row.Row.{Row};
ghost use Rattle.blsm_model.specs.Sizes.{Sizes};
ghost use Rattle.record_delta.specs.Entries.{Entries};
ghost use Rattle.page_space.specs.PageSet.{Members};
ghost use Rattle.page_space.specs.Space.{SpaceState, IsWithin, KeepsOtherPins, role_size};
ghost use Rattle.page_file.specs.File.{AreSamePages, page_start};
ghost use Rattle.run_writer.specs.Writer.{role_region};
ghost use Rattle.merge_ends.specs.Output.{TakesPages};
ghost use Rattle.scan_view.specs.Hold.{HoldState, HasRows, pages_held};
ghost use Rattle.scan_view.specs.Pins.{Pins, IsUnpinned, HasHeld, beside_pins};
ghost use Rattle.scan_view.specs.Told.{Begins, IsFront};

/// The rows that a hold has to give stay where the pages that they are read from read the same: so they do where no byte of a pinned
/// page has changed, and where another seat pins other pages.
pub fn rows_stay()
    ensures pages { (sizes : Sizes) (hold : HoldState) (rows : List Row) (old new : List ℕ) → (before : HasRows sizes hold rows old)
        → AreSamePages sizes (pages_held before) old new → (now : HasRows sizes hold rows new) × (pages_held now ≡ pages_held before) }
    ensures beside { (sizes : Sizes) (pins : List Members) (seat : ℕ) (hold : Option HoldState) (rows : Option (List Row)) (old new : List ℕ)
        → IsSameOutside (beside_pins sizes pins) old new → HasHeld sizes pins seat hold rows old → HasHeld sizes pins seat hold rows new }
    ensures others { (sizes : Sizes) (old new : SpaceState) (seat other : ℕ) (hold : Option HoldState) (rows : Option (List Row)) (file : List ℕ)
        → KeepsOtherPins seat old new → other ≢ seat → HasHeld sizes old.pins other hold rows file → HasHeld sizes new.pins other hold rows file }
{}

/// A run whose pages nobody pins takes free ones, so none of its pages is pinned then, and it is written beside those that are. What
/// stands before the pages is beside them too. Where a seat's pins are at most its share, so are those of a new hold.
pub fn pins_stay()
    ensures takes { (old new : SpaceState) (role tag : ℕ) → TakesPages role old new → IsUnpinned old tag → IsUnpinned new tag }
    ensures writes { (sizes : Sizes) (old new : SpaceState) (role : ℕ) → TakesPages role old new → IsUnpinned old role → IsInside (role_region sizes new role) (beside_pins sizes old.pins) }
    ensures head { (sizes : Sizes) (pins : List Members) (at n : ℕ) → at + n ≤ page_start sizes 0 → IsInside (span at n) (beside_pins sizes pins) }
    ensures share { (old new : SpaceState) (seat c1 c1x c2 live share : ℕ) → Pins seat c1 c1x c2 old new → role_size old c1 + role_size old c1x + role_size old c2 ≤ share
        → IsWithin live share old → IsWithin live share new }
{}

/// What was read of a component is itself a list that the component may have: what is said of each list that it may have is said of that one too.
pub fn what_is_read()
    ensures { (is_front : Bool) (sizes : Sizes) (run : Component) (read : Entries) (file : List ℕ) → Begins is_front sizes run read file → IsFront run read read }
{}
