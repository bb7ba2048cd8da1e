//! What holds of cursors while other pages are written. The function does nothing: it stands for the laws that its clauses name.
ghost use Rattle.std.specs.Prelude.{◌≡◌, ℕ, List, Option};
ghost use Rattle.blsm_model.specs.Sizes.{Sizes};
ghost use Rattle.record_delta.specs.Entries.{Entries};
ghost use Rattle.page_file.specs.File.{AreSamePages};
ghost use Rattle.page_file.specs.Component.{numbers_of};
ghost use Rattle.run_cursor.specs.Cursor.{CursorState, HasAheadTo};

/// What a cursor has ahead it still has where the pages that it hasn't read read the same.
pub fn what_is_ahead()
    ensures { (end : Option ℕ) (sizes : Sizes) (cursor : CursorState) (rest : Entries) (old new : List ℕ) (before : HasAheadTo end sizes cursor rest old)
        → AreSamePages sizes (numbers_of before.coming) old new → (now : HasAheadTo end sizes cursor rest new) × (now.coming ≡ before.coming) }
{}
