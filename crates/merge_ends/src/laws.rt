//! What holds of what a merge wrote. The function does nothing: it stands for the law that its clause names.
ghost use Rattle.std.specs.Prelude.{Bool, ℕ, List, Option};
ghost use Rattle.disk_trait.specs.Region.{IsSameOutside};
ghost use Rattle.blsm_model.specs.Sizes.{Sizes};
ghost use Rattle.blsm_model.specs.declared.key.Key.{Key};
ghost use Rattle.bloom_bits.specs.BitSet.{BitState};
ghost use Rattle.bloom_bits.specs.Fences.{FencesState};
ghost use Rattle.record_delta.specs.Entries.{Entries, folded_over, up_to};
ghost use Rattle.page_space.specs.Space.{SpaceState};
ghost use Rattle.run_cursor.specs.Cursor.{CursorState};
ghost use Rattle.run_writer.specs.Writer.{role_region};
ghost use Rattle.merge_ends.specs.Input.{IsInput};
ghost use Rattle.merge_ends.specs.Merge.{MergeState, HasClosed, IsMerging};
ghost use Rattle.merge_ends.specs.Output.{TakesPages, kept};

/// The closed pages of a merge's run have what comes of both inputs up to the key that it tells of them, and no more.
pub fn what_is_finished()
    ensures { (settles : Bool) (sizes : Sizes) (file : List ℕ) (space : SpaceState) (merge : MergeState) (input : Option CursorState) (table : Entries) (filter : BitState) (fences : FencesState) (newer_pages older_pages : List ℕ) (newer older : Entries)
        → IsMerging settles sizes file space merge input table filter fences newer_pages older_pages newer older
        → HasClosed sizes file merge.writer filter fences (kept settles (folded_over (up_to merge.closed newer) (up_to merge.closed older))) }
{}
