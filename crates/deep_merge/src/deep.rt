//! A deep merge.
ghost use Rattle.std.specs.Prelude.{◌≡◌, ◌≢◌, ◌↔◌, ◌⊎◌, ◌+◌, ◌/◌, ◌≤◌, ◌<◌, ◌^◌, [], ◌∷◌, ℕ, Bool, true, List, Ok, Err, Some, length, IsTrue, IsErr, IfOk};
ghost use Rattle.std.specs.List.{Contains};
ghost use Rattle.blsm_model.specs.Components.{empty_component};
ghost use Rattle.blsm_model.specs.Sizes.{Sizes};
ghost use Rattle.blsm_model.specs.Geometry.{page_count, file_length};
ghost use Rattle.bloom_bits.specs.BitSet.{BitState, cleared};
ghost use Rattle.bloom_bits.specs.Fences.{FencesState};
ghost use Rattle.bloom_bits.specs.Filter.{rounded};
ghost use Rattle.bloom_bits.specs.Guides.{Guide, KeepSized};
ghost use Rattle.record_delta.specs.Entries.{Entries, folded_over, settled_entries};
ghost use Rattle.page_space.specs.Space.{SpaceState, HasRole, IsFree};
ghost use Rattle.page_file.specs.Component.{RunPage, entries_of, numbers_of, HasList};
ghost use Rattle.page_file.specs.File.{Writes};
ghost use Rattle.run_writer.specs.Writer.{IsCounted, IsInside, open_region, resumed};
ghost use Rattle.merge_ends.specs.Input.{IsInput, IsReady};
ghost use Rattle.merge_ends.specs.Closed.{KeepsClosed};
ghost use Rattle.merge_ends.specs.Merge.{finished_of, HasFinished, IsFront};
ghost use Rattle.merge_ends.specs.Quantum.{IsNext, NoneAbove, IsQuantum};
ghost use Rattle.merge_ends.specs.Progress.{IsRunning, MayGoOn, MergesOn, TakesGroup, TakesQuantum, left_to_take, stage};
ghost use Rattle.deep_merge.specs.Merge.{started, merge_of, taken_up, IsMerge, progress_of_deep};

use bloom_bits::{Fences, Filter};
use blsm_model::{Component, Geometry, Key};
use disk_trait::Disk;
use merge_ends::{Finished, Merge};
use page_file::Broken;
use page_space::{Role, Space};
use refusal::Failed;
use run_cursor::Cursor;
use std::marker::Model;

/// A deep merge. Contracts see the run that it writes, its cursors over C1' and C2, the greatest key that it took, and the one up to which all is on
/// closed pages of the run.
#[derive(Debug, Drop)]
pub struct Deep {
    merge: Merge,
    c1x: Cursor,
}

impl Model for Deep {
    ghost use Rattle.deep_merge.specs.Merge.{DeepState};

    ghost Value = { DeepState };

    ghost view = { λ d. record { writer = d.merge.writer; c1x = d.c1x; c2 = d.merge.older; at = d.merge.at; closed = d.merge.closed; left = d.merge.left; rest = d.merge.rest } };
}

impl Deep {
    /// A merge of C1' and C2 that has taken nothing. The run's filter gets so many bits, and filter and fences are empty. It calls no
    /// device.
    /// A clause for each part that the merge has.
    pub fn begin(
        c1x: &Component,
        c2: &Component,
        role: Role,
        bits: u64,
        filter: &mut Filter,
        fences: &mut Fences,
    ) -> Deep
        requires newer { c1x.now.pages ≡ 0 → c1x.now ≡ empty_component }
        requires older { c2.now.pages ≡ 0 → c2.now ≡ empty_component }
        requires bits { rounded bits ≤ filter.old.reserved }
        ensures started { result ≡ started role c1x.now c2.now }
        ensures reserves { KeepSized (rounded bits) filter.old filter.new fences.old fences.new }
        ensures filter { filter.new ≡ cleared filter.old.reserved (rounded bits) }
        ensures fences { fences.new ≡ record { reserved = fences.old.reserved; list = [] } }
        ensures running { (sizes : Sizes) (honest : Bool) (file : List ℕ) (space : SpaceState) → IsRunning sizes honest file space result.writer result.at (result.c1x ∷ result.c2 ∷ []) filter.new fences.new }
        // No page of either has the run's tag, and none is free.
        ensures merge { (sizes : Sizes) (file : List ℕ) (space : SpaceState) (newer older : Entries)
            → (list : HasList sizes c1x.now newer file) → ((n : ℕ) → Contains (numbers_of list.pages) n → (HasRole space role n → ⊥) × (IsFree space n → ⊥))
            → (below : HasList sizes c2.now older file) → ((n : ℕ) → Contains (numbers_of below.pages) n → (HasRole space role n → ⊥) × (IsFree space n → ⊥))
            → IsMerge sizes file space result filter.new fences.new (numbers_of list.pages) (numbers_of below.pages) newer older }
    {
        Deep {
            merge: Merge::begin(c2, role, bits, filter, fences),
            c1x: Cursor::start(c1x),
        }
    }

    /// The merge that is taken up behind what was finished of it: its cursors over C1' and C2 stand above the key, and its run goes on behind the
    /// finished pages with the next one, which has the role's tag already. Filter and fences are those of the finished pages. It calls no device.
    pub fn resume(c1x: Cursor, c2: Cursor, role: Role, done: &Finished) -> Deep
        requires counted { IsCounted (resumed role done.now.output done.now.next) }
        requires few { done.now.output.pages + 1 < 2 ^ 32 }
        ensures resumed { result ≡ taken_up role done.now c1x c2 }
        ensures running { (sizes : Sizes) (honest : Bool) (file : List ℕ) (space : SpaceState) (filter : BitState) (fences : FencesState)
            (pages : List RunPage) → HasFinished sizes honest file space role filter fences done.now pages
            → IsReady (Some done.now.key) c1x → IsReady (Some done.now.key) c2
            → IsRunning sizes honest file space result.writer result.at (result.c1x ∷ result.c2 ∷ []) filter fences }
        // What comes of both lists up to the key is on the pages, and less than comes of them in all: the next page gets an entry.
        ensures merge { (sizes : Sizes) (file : List ℕ) (space : SpaceState) (filter : BitState) (fences : FencesState)
            (newer_pages older_pages : List ℕ) (newer older : Entries) (pages : List RunPage)
            → IsInput sizes file space role (Some done.now.key) c1x newer_pages newer
            → IsInput sizes file space role (Some done.now.key) c2 older_pages older
            → HasFinished sizes true file space role filter fences done.now pages
            → IsFront true (Some done.now.key) (Some c1x) newer older (entries_of pages) done.now.left
            → IsMerge sizes file space result filter fences newer_pages older_pages newer older }
    {
        Deep {
            merge: Merge::resume(c2, role, done),
            c1x,
        }
    }

    /// The greatest key that was taken; `None` where none was.
    pub fn cursor(&self) -> Option<Key>
        ensures { result ≡ self.now.at }
    {
        self.merge.cursor()
    }

    /// The greatest key up to which all that was taken is on closed pages of the run, which stay as they are; `None` where none is closed.
    pub fn closed(&self) -> Option<Key>
        ensures { result ≡ self.now.closed }
    {
        self.merge.closed()
    }

    /// How much of both components was left above that key when it was told, in bytes; 0 where no page is closed.
    pub fn left(&self) -> u64
        ensures { result ≡ self.now.left }
    {
        self.merge.left()
    }

    /// What is on closed pages of the run, so that the merge may be taken up behind it; `None` where no page is closed.
    pub fn finished(&self) -> Option<Finished>
        ensures { result ≡ finished_of (merge_of self.now) }
    {
        self.merge.finished()
    }

    /// Whether C1' and C2 are wholly taken.
    pub fn is_done(&self) -> bool
        ensures { IsTrue result ↔ (left_to_take (progress_of_deep self.now) ≡ 0) }
    {
        self.merge.has_taken(&self.c1x) && self.merge.has_taken_older()
    }

    /// Takes whole key groups, the least key first, until they weigh a quantum or nothing is left. Gives the weight that it took.
    ///
    /// `Damaged` names a page of C1' or C2 that isn't valid or doesn't go on; it never comes where the merge stands over lists. `Fault`
    /// comes just where the disk's count of faults rose. After an `Err` the quantum isn't counted: the cursor is told as before, and the
    /// merge is not to be gone on with.
    ///
    /// One clause is on the lists of an honest disk; the others hold on every disk.
    pub fn quantum<D: Disk>(
        &mut self,
        disk: &mut D,
        geo: &Geometry,
        space: &mut Space,
        filter: &mut Filter,
        fences: &mut Fences,
    ) -> Result<u64, Broken>
        requires pages { space.old.pages ≡ page_count geo.now }
        requires length { IsTrue (D.state disk.old).tells_bytes → length (D.state disk.old).bytes ≡ file_length geo.now }
        requires runs { MayGoOn geo.now (stage (progress_of_deep self.old) space.old filter.old fences.old (D.state disk.old)) }

        // On an honest disk the merge stands as before, further on by one quantum.
        ensures merge { (newer older : List ℕ) (c1x c2 : Entries) → IsTrue (D.state disk.old).is_honest → IsMerge geo.now (D.state disk.old).bytes space.old self.old filter.old fences.old newer older c1x c2
            → result ≢ Err Broken.Fault
            → (n : ℕ) × (result ≡ Ok n) × IsMerge geo.now (D.state disk.new).bytes space.new self.new filter.new fences.new newer older c1x c2
            × IsQuantum geo.now.quantum self.old.at self.new.at c1x c2 n }

        // On any disk what was taken and what is left add up, and it is a quantum or all that was left, and less than one group more. Each group
        // weighs 14 bytes at least, and makes three calls at most.
        ensures numbers { MergesOn geo.now (geo.now.quantum / 4 + 3) (TakesQuantum geo.now.quantum) (stage (progress_of_deep self.old) space.old filter.old fences.old (D.state disk.old)) (stage (progress_of_deep self.new) space.new filter.new fences.new (D.state disk.new)) result }
        // What is on closed pages of its run stays there, whatever it answers.
        ensures closed { KeepsClosed geo.now space.old space.new self.old.writer self.new.writer (D.state disk.old) (D.state disk.new) }
        ensures kept { IsErr result → self.new.at ≡ self.old.at }
    {
        self.merge
            .quantum(disk, geo, &mut self.c1x, true, space, filter, fences)
    }

    /// Writes the run's last page, and gives the new C2. The merge stays as it was. After an `Err`, whose cause is a fault of the
    /// disk, nobody knows what that page has.
    pub fn finish<D: Disk>(&mut self, disk: &mut D, geo: &Geometry) -> Result<Component, Failed>
        requires done { left_to_take (progress_of_deep self.old) ≡ 0 }
        requires inside { IsInside (page_count geo.now) self.old.writer }
        requires length { IsTrue (D.state disk.old).tells_bytes → length (D.state disk.old).bytes ≡ file_length geo.now }
        ensures component { IfOk result (λ c. c ≡ self.old.writer.component) }
        // It reads as C1' folded over C2, settled, on pages that have the run's tag.
        ensures list { (space : SpaceState) (filter : BitState) (fences : FencesState) (newer older : List ℕ) (c1x c2 : Entries) → IsTrue (D.state disk.old).is_honest
            → IsMerge geo.now (D.state disk.old).bytes space self.old filter fences newer older c1x c2
            → IfOk result (λ c. (list : HasList geo.now c (settled_entries (folded_over c1x c2)) (D.state disk.new).bytes)
            × ((n : ℕ) → Contains (numbers_of list.pages) n → HasRole space self.old.writer.role n) × Guide filter fences list.pages) }
        ensures same { self.new ≡ self.old }
        // One call of the disk at most. No byte outside the open page changes, in no image of any moment.
        ensures writes { Writes (open_region geo.now self.old.writer) (file_length geo.now) result (D.state disk.old) (D.state disk.new) }
    {
        self.merge.finish(disk, geo)
    }
}
