//! What holds of runs that grow. The functions do nothing: each stands for the laws that its clauses name.
ghost use Rattle.std.specs.Prelude.{◌≡◌, ◌+◌, ◌<◌, ◌∷◌, ◌++◌, [], ℕ, Bool, List, Some, length, IsTrue};
ghost use Rattle.std.specs.List.{Contains};
ghost use Rattle.disk_trait.specs.Region.{AreApart, IsWithin, IsSameOutside};
ghost use Rattle.blsm_model.specs.Sizes.{Sizes};
ghost use Rattle.blsm_model.specs.Geometry.{page_count};
ghost use Rattle.blsm_model.specs.declared.key.Key.{Key};
ghost use Rattle.bloom_bits.specs.BitSet.{BitState};
ghost use Rattle.bloom_bits.specs.Fences.{FencesState, IsAboveAll};
ghost use Rattle.record_delta.specs.declared.record.Rec.{Rec};
ghost use Rattle.record_delta.specs.Entries.{Entries};
ghost use Rattle.record_delta.specs.Records.{weight};
ghost use Rattle.page_file.specs.Component.{ReadsOn, entries_of, numbers_of};
ghost use Rattle.page_file.specs.Entry.{AreRising};
ghost use Rattle.page_file.specs.File.{page_region};
ghost use Rattle.page_space.specs.Space.{SpaceState, HasRole, HasFree, IsSpace};
ghost use Rattle.run_writer.specs.Closed.{IsClosedPage};
ghost use Rattle.run_writer.specs.Writer.{WriterState, unfenced, closed_entries, closed_of, put_in, turned, whole_of, open_region, role_region, loose_region, IsInside, HasPushed};

/// While there is a free page a run doesn't have all pages, and its open page is one of the store's.
pub fn a_run_has_room()
    ensures room { (sizes : Sizes) (honest : Bool) (file : List ℕ) (space : SpaceState) (writer : WriterState) (filter : BitState) (fences : FencesState) (entries : Entries)
        → HasPushed sizes honest file space writer filter fences entries → IsSpace space → HasFree space → writer.component.pages < space.pages }
    ensures inside { (sizes : Sizes) (honest : Bool) (file : List ℕ) (space : SpaceState) (writer : WriterState) (filter : BitState) (fences : FencesState) (entries : Entries)
        → HasPushed sizes honest file space writer filter fences entries → IsSpace space → space.pages ≡ page_count sizes → IsInside (page_count sizes) writer }
{}

/// A run has a fence for each of its pages but an open one without entries, and a key that comes next is above them.
pub fn a_run_has_fences()
    ensures one_a_page { (sizes : Sizes) (honest : Bool) (file : List ℕ) (space : SpaceState) (writer : WriterState) (filter : BitState) (fences : FencesState) (entries : Entries)
        → HasPushed sizes honest file space writer filter fences entries → length fences.list + unfenced writer ≡ writer.component.pages }
    ensures above { (sizes : Sizes) (honest : Bool) (file : List ℕ) (space : SpaceState) (writer : WriterState) (filter : BitState) (fences : FencesState) (entries : Entries) (key : Key) (rec : Rec)
        → HasPushed sizes honest file space writer filter fences entries → AreRising (entries ++ (key, rec) ∷ []) → IsAboveAll key fences.list }
{}

/// The open page has its role's tag, and so have the closed ones, none of which it is: no byte of them may change. The list that was pushed stays
/// where other pages are written and other tags change hands.
pub fn where_a_run_writes()
    ensures role { (sizes : Sizes) (honest : Bool) (file : List ℕ) (space : SpaceState) (writer : WriterState) (filter : BitState) (fences : FencesState) (entries : Entries)
        → HasPushed sizes honest file space writer filter fences entries → IsWithin (open_region sizes writer) (role_region sizes space writer.role) }
    ensures pushed { (sizes : Sizes) (honest : Bool) (old new : List ℕ) (space after : SpaceState) (writer : WriterState) (filter : BitState) (fences : FencesState) (entries : Entries)
        → ((n : ℕ) → HasRole space writer.role n → HasRole after writer.role n)
        → (IsTrue honest → IsSameOutside (loose_region sizes space writer) old new)
        → HasPushed sizes honest old space writer filter fences entries → HasPushed sizes honest new after writer filter fences entries }
    ensures closed { (sizes : Sizes) (honest : Bool) (file : List ℕ) (space : SpaceState) (writer : WriterState) (filter : BitState)
        (fences : FencesState) (entries : Entries) → (has : HasPushed sizes honest file space writer filter fences entries)
        → (n : ℕ) → Contains (numbers_of has.run.closed) n → IsClosedPage space writer n }
    ensures apart { (sizes : Sizes) (space : SpaceState) (writer : WriterState) (n : ℕ)
        → IsClosedPage space writer n → AreApart (loose_region sizes space writer) (page_region sizes n) }
{}

/// The closed pages of a run read as a run that goes on with the open page, and have the entries that were pushed before those in the buffer. An entry
/// that has place in the open page leaves them as they are; where a page is taken for it they are all pages that there were.
pub fn what_is_closed()
    ensures reads { (sizes : Sizes) (honest : Bool) (file : List ℕ) (space : SpaceState) (writer : WriterState) (filter : BitState) (fences : FencesState) (entries : Entries)
        → (has : HasPushed sizes honest file space writer filter fences entries) → IsTrue honest → ReadsOn sizes (closed_of writer) has.run.closed (Some writer.number) file }
    ensures entries { (sizes : Sizes) (honest : Bool) (file : List ℕ) (space : SpaceState) (writer : WriterState) (filter : BitState) (fences : FencesState) (entries : Entries)
        → (has : HasPushed sizes honest file space writer filter fences entries) → entries_of has.run.closed ≡ closed_entries writer entries }
    ensures stays { (writer : WriterState) (key : Key) (rec : Rec) → closed_of (put_in key rec writer) ≡ closed_of writer }
    ensures grows { (writer : WriterState) (page : ℕ) (key : Key) (rec : Rec) → closed_of (put_in key rec (turned page writer)) ≡ whole_of page writer.component }
    ensures pushed { (sizes : Sizes) (honest : Bool) (file : List ℕ) (space : SpaceState) (writer : WriterState) (filter : BitState) (fences : FencesState) (entries : Entries) (key : Key) (rec : Rec)
        → HasPushed sizes honest file space writer filter fences entries
        → (closed_entries (put_in key rec writer) (entries ++ (key, rec) ∷ []) ≡ closed_entries writer entries)
        × ((page : ℕ) → closed_entries (put_in key rec (turned page writer)) (entries ++ (key, rec) ∷ []) ≡ entries) }
    // The open page has so many bytes more.
    ensures text { (writer : WriterState) (key : Key) (rec : Rec) → length (put_in key rec writer).buffer.text ≡ length writer.buffer.text + weight key rec }
{}
