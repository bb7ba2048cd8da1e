//! A pass.
ghost use Rattle.std.specs.Prelude.{◌≡◌, ◌≢◌, ◌↔◌, ◌⊎◌, ◌+◌, ◌*◌, ◌/◌, ◌≤◌, [], ◌∷◌, ℕ, Bool, List, Option, Some, None, Ok, Err, length, IsTrue, IsErr, IfOk, IfSome, OnOk};
ghost use Rattle.std.specs.List.{Contains};
ghost use Rattle.blsm_model.specs.Components.{empty_component};
ghost use Rattle.blsm_model.specs.declared.key.Key.{Key};
ghost use Rattle.blsm_model.specs.Keys.{key_cmp};
ghost use Rattle.blsm_model.specs.Format.{least_full, least_weight, most_weight};
ghost use Rattle.blsm_model.specs.Sizes.{Sizes};
ghost use Rattle.blsm_model.specs.Geometry.{page_count, file_length};
ghost use Rattle.bloom_bits.specs.BitSet.{BitState, cleared};
ghost use Rattle.bloom_bits.specs.Fences.{FencesState};
ghost use Rattle.bloom_bits.specs.Filter.{rounded};
ghost use Rattle.bloom_bits.specs.Guides.{Guide, KeepSized};
ghost use Rattle.record_delta.specs.declared.record.Rec.{Rec};
ghost use Rattle.record_delta.specs.Records.{weight as weight_with};
ghost use Rattle.record_delta.specs.Entries.{AreSorted, Entries, entries_weight, folded_over, above};
ghost use Rattle.record_delta.specs.Folding.{fold as fold_of};
ghost use Rattle.merge_step.specs.Group.{least_of, group_of, group_at};
ghost use Rattle.merge_step.specs.declared.group.Taken.TheVariants.{InRoom};
ghost use Rattle.page_space.specs.Space.{SpaceState, HasRole, IsFree};
ghost use Rattle.page_file.specs.Component.{numbers_of, HasList};
ghost use Rattle.page_file.specs.File.{Writes};
ghost use Rattle.run_writer.specs.Writer.{IsInside, open_region};
ghost use Rattle.merge_ends.specs.Merge.{finished_of};
ghost use Rattle.merge_ends.specs.Output.{IsUpTo};
ghost use Rattle.merge_ends.specs.Quantum.{IsNext, NoneAbove, IsQuantum};
ghost use Rattle.merge_ends.specs.Progress.{IsRunning, MayGoOn, MergesOn, TakesGroup, TakesQuantum, left_to_take, stage};
ghost use Rattle.snow_merge.specs.Pass.{started, Covers, IsPass, merge_of, progress_of_pass};

use bloom_bits::{Fences, Filter};
use blsm_model::{Component, Geometry, Key};
use disk_trait::Disk;
use mem_table::{LentEntry, Table};
use merge_ends::{Finished, Merge, Newer};
use merge_step::{Taken, least_of_lent};
use page_file::Broken;
use page_space::{Role, Space};
use record_delta::{Rec, fold_over, weight};
use refusal::Failed;
use run_cursor::Cursor;
use std::cmp::Ordering;
use std::marker::Model;

/// A pass. Contracts see the run that it writes, its cursor over C1, the greatest key that it took, and the one up to which all is on closed pages
/// of the run.
#[derive(Debug, Drop)]
pub struct Snow {
    merge: Merge,
}

impl Model for Snow {
    ghost use Rattle.snow_merge.specs.Pass.{SnowState};

    ghost Value = { SnowState };

    ghost view = { λ s. record { writer = s.merge.writer; c1 = s.merge.older; at = s.merge.at; closed = s.merge.closed; left = s.merge.left; rest = s.merge.rest } };
}

// Table A as the newer input.
#[derive(Drop)]
struct InMemory<'a> {
    table: &'a Table,
}

// The group of the table's entry and of the one at which the cursor is. The table's is copied only where it is taken, into the room.
fn group_from(first: &LentEntry, older: &Cursor, room: &mut Option<(Key, Rec)>) -> Option<Taken>
    ensures group { group_at result older.now.head room.new ≡ group_of (Some first.now) older.now.head }
    ensures some { IfSome (group_at result older.now.head room.new) (λ g. least_weight ≤ g.2) }
    ensures light { IfSome (group_at result older.now.head room.new) (λ g. (g.2 ≤ 2 * most_weight) × (weight_with g.0 g.1 ≤ g.2)) }
    ensures grows { IfSome (group_at result older.now.head room.new) (λ g. (rec : Rec) → Some first.now ≡ Some (g.0, rec) → weight_with g.0 rec ≤ weight_with g.0 g.1) }
{
    match older.peek() {
        Some((key, below)) => Some(lesser(first, key, below, room)),
        None => Some(copied(first, room)),
    }
}

// The lesser of the table's entry and of an older one, or one of both.
fn lesser(first: &LentEntry, key: &Key, below: &Rec, room: &mut Option<(Key, Rec)>) -> Taken
    ensures group { group_at (Some result) (Some (key.now, below.now)) room.new ≡ Some (least_of (key_cmp first.now.0 key.now) first.now (key.now, below.now)) }
    ensures some { IfSome (group_at (Some result) (Some (key.now, below.now)) room.new) (λ g. least_weight ≤ g.2) }
    ensures light { IfSome (group_at (Some result) (Some (key.now, below.now)) room.new) (λ g. (g.2 ≤ 2 * most_weight) × (weight_with g.0 g.1 ≤ g.2)) }
    ensures grows { IfSome (group_at (Some result) (Some (key.now, below.now)) room.new)
        (λ g. (rec : Rec) → Some first.now ≡ Some (g.0, rec) → weight_with g.0 rec ≤ weight_with g.0 g.1) }
{
    match first.compare(key) {
        Ordering::Less => Taken::Older(weight(key, below)),
        Ordering::Equal => folded(first, key, below, room),
        Ordering::Greater => copied(first, room),
    }
}

// Puts the table's entry into the room, over what stands there.
fn put_in(first: &LentEntry, room: &mut Option<(Key, Rec)>)
    ensures { room.new ≡ Some first.now }
{
    if let Some((key, rec)) = room {
        first.read_over(key, rec);
        return;
    }
    put_first(first, room);
}

// What holds a record stays a call, as a function zeroes all its locals at entry.
// The same where the room is empty.
#[inline(never)]
fn put_first(first: &LentEntry, room: &mut Option<(Key, Rec)>)
    ensures { room.new ≡ Some first.now }
{
    *room = Some(first.copy());
}

// The table's entry, which is taken alone, in the room.
fn copied(first: &LentEntry, room: &mut Option<(Key, Rec)>) -> Taken
    ensures group { result ≡ InRoom (weight_with first.now.0 first.now.1) }
    ensures room { room.new ≡ Some first.now }
    ensures some { least_weight ≤ weight_with first.now.0 first.now.1 }
    ensures light { weight_with first.now.0 first.now.1 ≤ most_weight }
{
    put_in(first, room);
    match room {
        Some((key, rec)) => Taken::InRoom(weight(key, rec)),
        None => unreachable!(),
    }
}

// The table's entry and an older one of its key, in the room.
fn folded(first: &LentEntry, key: &Key, below: &Rec, room: &mut Option<(Key, Rec)>) -> Taken
    requires { key_cmp key.now first.now.0 ≡ Ordering.Equal }
    ensures group { result ≡ InRoom (weight_with first.now.0 first.now.1 + weight_with key.now below.now) }
    ensures room { room.new ≡ Some (first.now.0, fold_of first.now.1 below.now) }
    ensures some { least_weight ≤ weight_with first.now.0 first.now.1 + weight_with key.now below.now }
    ensures most { weight_with first.now.0 first.now.1 + weight_with key.now below.now ≤ 2 * most_weight }
    ensures light { weight_with first.now.0 (fold_of first.now.1 below.now) ≤ weight_with first.now.0 first.now.1 + weight_with key.now below.now }
    ensures grows { weight_with first.now.0 first.now.1 ≤ weight_with first.now.0 (fold_of first.now.1 below.now) }
{
    put_in(first, room);
    match room {
        Some((same, rec)) => {
            let weight = weight(same, rec) + weight(key, below);
            fold_over(rec, below);
            Taken::InRoom(weight)
        }
        None => unreachable!(),
    }
}

impl Newer for InMemory<'_> {
    ghost run = { λ _. None };

    ghost table = { λ it. it.table.now.entries };

    fn go_above<D: Disk>(
        &mut self,
        _disk: &mut D,
        _geo: &Geometry,
        _at: &Option<Key>,
    ) -> Result<(), Broken> {
        Ok(())
    }

    fn group_with(
        &self,
        at: &Option<Key>,
        older: &Cursor,
        room: &mut Option<(Key, Rec)>,
    ) -> Option<Taken> {
        // A table is sorted.
        let _weight = self.table.weight();
        let Some(first) = self.table.first_above(at) else {
            return least_of_lent(None, older.peek(), room);
        };
        group_from(&first, older, room)
    }

    fn left_above(&self, _at: &Option<Key>) -> u64 {
        0
    }
}

impl Snow {
    /// A pass over C1 that has taken nothing. The run's filter gets so many bits, and filter and fences are empty. It calls no device.
    pub fn begin(
        c1: &Component,
        role: Role,
        bits: u64,
        filter: &mut Filter,
        fences: &mut Fences,
    ) -> Snow
        requires empty { c1.now.pages ≡ 0 → c1.now ≡ empty_component }
        requires bits { rounded bits ≤ filter.old.reserved }
        ensures started { result ≡ started role c1.now }
        ensures covers { (a : Entries) (total : ℕ) → entries_weight a + c1.now.weight ≤ total → Covers total result a }
        ensures running { (sizes : Sizes) (honest : Bool) (file : List ℕ) (space : SpaceState) → IsRunning sizes honest file space result.writer result.at (result.c1 ∷ []) filter.new fences.new }
        ensures reserves { KeepSized (rounded bits) filter.old filter.new fences.old fences.new }
        ensures filter { filter.new ≡ cleared filter.old.reserved (rounded bits) }
        ensures fences { fences.new ≡ record { reserved = fences.old.reserved; list = [] } }
        // No page of C1 has the run's tag, and none is free.
        ensures pass { (sizes : Sizes) (file : List ℕ) (space : SpaceState) (a entries : Entries) → AreSorted a
            → (list : HasList sizes c1.now entries file)
            → ((n : ℕ) → Contains (numbers_of list.pages) n → (HasRole space role n → ⊥) × (IsFree space n → ⊥))
            → IsPass sizes file space result filter.new fences.new (numbers_of list.pages) a entries }
    {
        Snow {
            merge: Merge::begin(c1, role, bits, filter, fences),
        }
    }

    /// The greatest key that was taken; `None` where none was.
    pub fn cursor(&self) -> Option<Key>
        ensures { result ≡ self.now.at }
    {
        self.merge.cursor()
    }

    /// What is on closed pages of the run, which stay as they are, and up to which key: all that the pass took up to there. `None` where no page is
    /// closed.
    pub fn finished(&self) -> Option<Finished>
        ensures finished { result ≡ finished_of (merge_of self.now) }
        ensures full { IfSome result (λ done. least_full * done.output.pages ≤ done.output.weight) }
    {
        self.merge.finished()
    }

    /// C1 from the page on that had the head of its cursor when that key was told: what it has above the key is there. Where no page is closed it is
    /// all of C1.
    pub fn behind(&self) -> Component
        ensures { result ≡ self.now.rest.behind }
    {
        self.merge.behind()
    }

    /// Whether table A, as it is now, and C1 are wholly taken. A record that comes into the table ahead of the cursor makes it false again.
    pub fn is_done(&self, a: &Table) -> bool
        ensures { IsTrue result ↔ (left_to_take (progress_of_pass self.now a.now.entries) ≡ 0) }
    {
        self.merge.has_taken_older() && has_none_above(a, self.cursor())
    }

    /// Takes whole key groups, the least key first, until they weigh a quantum or nothing is left. Gives the weight that it took.
    ///
    /// `Damaged` names a page of C1 that isn't valid or doesn't go on; it never comes where the pass stands over lists. `Fault` comes
    /// just where the disk's count of faults rose. After an `Err` the quantum isn't counted: the cursor is told as before, and the
    /// pass is not to be gone on with.
    ///
    /// One clause is on the lists of an honest disk; the others hold on every disk.
    pub fn quantum<D: Disk>(
        &mut self,
        disk: &mut D,
        geo: &Geometry,
        a: &Table,
        space: &mut Space,
        filter: &mut Filter,
        fences: &mut Fences,
    ) -> Result<u64, Broken>
        requires pages { space.old.pages ≡ page_count geo.now }
        requires length { IsTrue (D.state disk.old).tells_bytes → length (D.state disk.old).bytes ≡ file_length geo.now }
        requires runs { MayGoOn geo.now (stage (progress_of_pass self.old a.now.entries) space.old filter.old fences.old (D.state disk.old)) }

        // On an honest disk the pass stands as before, further on by one quantum. Above its cursor the table has what table A's list has.
        ensures pass { (pages : List ℕ) (all c1 : Entries) → IsTrue (D.state disk.old).is_honest
            → above self.old.at all ≡ above self.old.at a.now.entries
            → IsPass geo.now (D.state disk.old).bytes space.old self.old filter.old fences.old pages all c1 → result ≢ Err Broken.Fault
            → (n : ℕ) × (result ≡ Ok n) × IsPass geo.now (D.state disk.new).bytes space.new self.new filter.new fences.new pages all c1
            × IsQuantum geo.now.quantum self.old.at self.new.at all c1 n }

        // On any disk what was taken and what is left add up, and it is a quantum or all that was left, and less than one group more. Each group
        // weighs 14 bytes at least, and makes two calls at most.
        ensures numbers { MergesOn geo.now (geo.now.quantum / 7 + 2) (TakesQuantum geo.now.quantum) (stage (progress_of_pass self.old a.now.entries) space.old filter.old fences.old (D.state disk.old)) (stage (progress_of_pass self.new a.now.entries) space.new filter.new fences.new (D.state disk.new)) result }
        // What of the table was taken and isn't on closed pages yet weighs no more than a page; and the key up to which all is on them never falls.
        ensures covers { (total : ℕ) → Covers total self.old a.now.entries → OnOk result (Covers total self.new a.now.entries × IsUpTo self.old.closed self.new.closed) }
        ensures kept { IsErr result → self.new.at ≡ self.old.at }
    {
        let mut newer = InMemory { table: a };
        self.merge
            .quantum(disk, geo, &mut newer, false, space, filter, fences)
    }

    /// Writes the run's last page, and gives the new C1. The pass stays as it was. After an `Err`, whose cause is a fault of the
    /// disk, nobody knows what that page has.
    pub fn finish<D: Disk>(
        &mut self,
        disk: &mut D,
        geo: &Geometry,
        a: &Table,
    ) -> Result<Component, Failed>
        requires done { left_to_take (progress_of_pass self.old a.now.entries) ≡ 0 }
        requires inside { IsInside (page_count geo.now) self.old.writer }
        requires length { IsTrue (D.state disk.old).tells_bytes → length (D.state disk.old).bytes ≡ file_length geo.now }
        ensures component { IfOk result (λ c. c ≡ self.old.writer.component) }
        // It reads as table A's list folded over C1, on pages that have the run's tag.
        ensures list { (space : SpaceState) (filter : BitState) (fences : FencesState) (pages : List ℕ) (all c1 : Entries)
            → IsTrue (D.state disk.old).is_honest → above self.old.at all ≡ above self.old.at a.now.entries
            → IsPass geo.now (D.state disk.old).bytes space self.old filter fences pages all c1
            → IfOk result (λ c. (list : HasList geo.now c (folded_over all c1) (D.state disk.new).bytes)
            × ((n : ℕ) → Contains (numbers_of list.pages) n → HasRole space self.old.writer.role n) × Guide filter fences list.pages) }
        ensures same { self.new ≡ self.old }
        // One call of the disk at most. No byte outside the open page changes, in no image of any moment.
        ensures writes { Writes (open_region geo.now self.old.writer) (file_length geo.now) result (D.state disk.old) (D.state disk.new) }
    {
        self.merge.finish(disk, geo)
    }
}

// Whether a table has nothing above a key.
fn has_none_above(a: &Table, at: Option<Key>) -> bool
    ensures { IsTrue result ↔ (entries_weight (above at a.now.entries) ≡ 0) }
{
    a.least_above(at).is_none()
}
